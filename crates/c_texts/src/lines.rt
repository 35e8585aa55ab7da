// Lines of the input.

ghost use Rattle.std.specs.Prelude.{◌≡◌};
ghost use Rattle.c_meaning.specs.Texts.{before_zero, behind_line, line_of};

/// The bytes before the first line feed.
pub fn line_of(bytes: &[u8]) -> &[u8]
    ensures { result.now ≡ line_of bytes.now }
{
    for (at, byte) in bytes.iter().enumerate() {
        if *byte == b'\n' {
            return &bytes[..at];
        }
    }
    bytes
}

/// The bytes behind the first line feed.
pub fn behind_line(bytes: &[u8]) -> &[u8]
    ensures { result.now ≡ behind_line bytes.now }
{
    for (at, byte) in bytes.iter().enumerate() {
        if *byte == b'\n' {
            return &bytes[at + 1..];
        }
    }
    &[]
}

/// The bytes before the first zero.
pub fn before_zero(bytes: &[u8]) -> &[u8]
    ensures { result.now ≡ before_zero bytes.now }
{
    for (at, byte) in bytes.iter().enumerate() {
        if *byte == 0 {
            return &bytes[..at];
        }
    }
    bytes
}
