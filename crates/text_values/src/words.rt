// Words: what their bytes name.

ghost use Rattle.std.specs.Prelude.{◌≡◌, IfOk};
ghost use Rattle.text_values.specs.Words as spec;

use crate::bytes::{after, byte_at};
use sqlite_items::Items;
use std::alloc::{AllocError, Global};

/// The bytes of a word, without the `@` in front.
pub fn word(alloc: Global, text: &[u8]) -> Result<Items<u8>, AllocError>
    ensures { IfOk result (λ v. v ≡ spec.word text.now) }
{
    Items::from_slice(alloc, without_at(text))
}

fn without_at(text: &[u8]) -> &[u8]
    ensures { result.now ≡ spec.word text.now }
{
    if byte_at(text, 0) == b'@' {
        after(text, 1)
    } else {
        text
    }
}
