// Texts: what their bytes denote.

ghost use Rattle.std.specs.Prelude.{◌≡◌, ◌≤◌, ◌*◌, ◌-◌, ◌++◌, length, take, drop, IfOk, OnOk};
ghost use Rattle.vala_lexer.specs.Bytes as lexer_bytes;
ghost use Rattle.vala_lexer.specs.Texts as lexer;
ghost use Rattle.vala_lexer.specs.declared.texts.Literal.TheVariants as Literal;

use crate::bytes::{after, byte_at, front};
use crate::escapes::read_escape;
use sqlite_items::Items;
use std::alloc::{AllocError, Global};

// Whether three `"` stand in front.
fn starts_with_quotes(bytes: &[u8]) -> bool
    ensures { result ≡ lexer_bytes.starts_with_quotes bytes.now }
{
    byte_at(bytes, 0) == b'"' && byte_at(bytes, 1) == b'"' && byte_at(bytes, 2) == b'"'
}

// What stands between as many quotes at either end.
fn between(text: &[u8], quotes: usize) -> &[u8]
    requires { quotes ≤ 3 }
    ensures { result.now ≡ take (length text.now - 2 * quotes) (drop quotes text.now) }
{
    front(after(text, quotes), text.len().saturating_sub(2 * quotes))
}

fn push_all(value: &mut Items<u8>, bytes: &[u8]) -> Result<(), AllocError>
    ensures { OnOk result (value.new ≡ value.old ++ bytes.now) }
{
    for byte in bytes {
        value.push(*byte)?;
    }
    Ok(())
}

// Puts the bytes of an escape's character, and answers how many bytes behind its backslash it takes.
fn push_escape(value: &mut Items<u8>, bytes: &[u8]) -> Result<usize, AllocError>
    ensures value { OnOk result (value.new ≡ value.old ++ lexer.escape_bytes (lexer.escape Literal.Text bytes.now)) }
    ensures len { IfOk result (λ n. n ≡ lexer.escape_len (lexer.escape Literal.Text bytes.now)) }
{
    match read_escape(bytes) {
        Some(escape) => {
            let mut room = [0; 4];
            push_all(value, escape.character.encode_utf8(&mut room).as_bytes())?;
            Ok(escape.len)
        }
        None => Ok(0),
    }
}

// What bytes between two `"` denote.
fn denoted(alloc: Global, bytes: &[u8]) -> Result<Items<u8>, AllocError>
    ensures { IfOk result (λ v. v ≡ lexer.denoted bytes.now) }
{
    let mut value = Items::new(alloc);
    let mut taken = 0;
    for (i, byte) in bytes.iter().enumerate() {
        if taken > 0 {
            taken -= 1;
        } else if *byte == b'\\' {
            taken = push_escape(&mut value, after(bytes, i + 1))?;
        } else {
            value.push(*byte)?;
        }
    }
    Ok(value)
}

/// What a text denotes, as it is written: each escape its character, and all bytes between `"""` themselves.
pub fn text_value(alloc: Global, text: &[u8]) -> Result<Items<u8>, AllocError>
    ensures { IfOk result (λ v. v ≡ lexer.text_value text.now) }
{
    if starts_with_quotes(text) {
        Items::from_slice(alloc, between(text, 3))
    } else {
        denoted(alloc, between(text, 1))
    }
}
