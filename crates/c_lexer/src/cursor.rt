// Where the tokens of a text were taken up to.

ghost use Rattle.std.specs.Prelude.{◌≤◌, ◌<◌, ◌^◌, length};

/// The tokens of a text that are left. A copy looks ahead.
#[derive(Clone, Copy)]
pub struct Lexer<'t> {
    pub(crate) bytes: &'t [u8],
    pub(crate) at: usize,
    ghost within: { at ≤ length bytes.now },
    ghost short: { length bytes.now < 2 ^ 32 },
}
