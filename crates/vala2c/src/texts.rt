// Texts: a front, what stands behind the last of a byte, and the name of a C file.

ghost use Rattle.std.specs.Prelude.{◌≡◌, ◌==◌, ◌++◌, IfOk, take, codes};
ghost use Rattle.std.specs.List.{after_last};
ghost use Rattle.std.specs.String.{string_bytes};
ghost use Rattle.command_line.specs.Names.{c_file};

use std::alloc::{AllocError, Global};

/// What stands behind the last `byte`, or all where there is none.
pub fn after_last_byte(bytes: &[u8], byte: u8) -> &[u8]
    ensures { result.now ≡ after_last (λ b. b == byte) bytes.now }
{
    let mut start = bytes.len();
    while start > 0 && bytes[start - 1] != byte {
        start -= 1;
    }
    &bytes[start..]
}

/// The first so many bytes, or all where there are fewer.
pub fn front(bytes: &[u8], count: usize) -> &[u8]
    ensures { result.now ≡ take count bytes.now }
{
    if count < bytes.len() {
        &bytes[..count]
    } else {
        bytes
    }
}

/// The C file of a program.
pub fn c_file_of(alloc: Global, name: &str) -> Result<String, AllocError>
    ensures { IfOk result (λ s. string_bytes s ≡ c_file name.now) }
{
    format!(in alloc; "{name}.c")
}
