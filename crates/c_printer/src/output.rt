// What was written.

/// A text of C that is written token by token.
#[derive(Drop)]
pub struct Writer {
    pub(crate) bytes: Vec<u8>,
    /// Where the last token begins, where nothing stands behind it.
    pub(crate) last: Option<usize>,
}
