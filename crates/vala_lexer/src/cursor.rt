// Where the tokens of a file were taken up to.

ghost use Rattle.std.specs.Prelude.{◌≤◌, ◌<◌, ◌^◌, length};

/// The tokens of a file that are left. A copy looks ahead.
#[derive(Clone, Copy)]
pub struct Lexer<'t> {
    pub(crate) bytes: &'t [u8],
    pub(crate) file: u32,
    pub(crate) at: usize,
    ghost within: { at ≤ length bytes.now },
    ghost short: { length bytes.now < 2 ^ 32 },
}
