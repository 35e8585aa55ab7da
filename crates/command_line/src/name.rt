// The name that a program is called by.

ghost use Rattle.std.specs.Prelude.{◌≡◌, ◌==◌, ◌++◌, IfOk, OnOk, map, take, ◌<◌, not};
ghost use Rattle.std.specs.List.{after_last, list_all};
ghost use Rattle.std.specs.Str.{bytes_eq};
ghost use Rattle.std.specs.String.{string_bytes};
ghost use Rattle.vg_base.specs.World.{is_letter as is_letter_byte};
ghost use Rattle.command_line.specs.Names.{name_of, name_byte, stem as stem_of, c_file};
ghost use Rattle.command_line.specs.Names.{begins_with_letter as begins_with_letter_byte, first_word as first_word_of};

use std::alloc::{AllocError, Global};

/// What stands behind the last `byte`, or all where there is none.
pub(crate) fn after_last_byte(bytes: &[u8], byte: u8) -> &[u8]
    ensures { result.now ≡ after_last (λ b. b == byte) bytes.now }
{
    let mut start = bytes.len();
    while start > 0 && bytes[start - 1] != byte {
        start -= 1;
    }
    &bytes[start..]
}

/// The first so many bytes, or all where there are fewer.
pub(crate) fn front(bytes: &[u8], count: usize) -> &[u8]
    ensures { result.now ≡ take count bytes.now }
{
    if count < bytes.len() {
        &bytes[..count]
    } else {
        bytes
    }
}

// Without an ending `.vala`, or else without an ending `.c`.
fn stem(bytes: &[u8]) -> &[u8]
    ensures { result.now ≡ stem_of bytes.now }
{
    if bytes.ends_with(b".vala") {
        &bytes[..bytes.len() - 5]
    } else if bytes.ends_with(b".c") {
        &bytes[..bytes.len() - 2]
    } else {
        bytes
    }
}

fn is_letter(b: u8) -> bool
    ensures { result ≡ is_letter_byte b }
{
    b.is_ascii_alphabetic()
}

// A byte of a name: another one becomes `_`.
fn name_char(b: u8) -> u8
    ensures byte { result ≡ name_byte b }
    ensures ascii { result < 128 }
{
    if b.is_ascii_alphanumeric() || b == b'_' {
        b
    } else {
        b'_'
    }
}

// The bytes of a name, cut to so many.
fn push_name(name: &mut String, bytes: &[u8]) -> Result<(), AllocError>
    ensures { OnOk result (string_bytes name.new ≡ string_bytes name.old ++ map name_byte bytes.now) }
{
    for b in bytes {
        name.push(name_char(*b) as char)?;
    }
    Ok(())
}

/// The name of the program in a file.
pub(crate) fn name_in(alloc: Global, word: &str) -> Result<String, AllocError>
    ensures { IfOk result (λ s. string_bytes s ≡ name_of word.now) }
{
    let stem = stem(after_last_byte(word.as_bytes(), b'/'));
    let mut name = String::new(alloc);
    if begins_with_letter(stem) {
        push_name(&mut name, front(stem, 100))?;
    } else {
        name.push('p')?;
        push_name(&mut name, front(stem, 99))?;
    }
    Ok(name)
}

/// The C file of a program.
pub(crate) fn c_file_of(alloc: Global, name: &str) -> Result<String, AllocError>
    ensures { IfOk result (λ s. string_bytes s ≡ c_file name.now) }
{
    format!(in alloc; "{name}.c")
}

fn begins_with_letter(bytes: &[u8]) -> bool
    ensures { result ≡ begins_with_letter_byte bytes.now }
{
    match bytes {
        [] => false,
        [b, ..] => is_letter(*b),
    }
}

/// Whether no word is this name.
pub(crate) fn is_none_of(words: &[String], name: &str) -> bool
    ensures { result ≡ list_all (λ word. not (bytes_eq word name.now)) (map string_bytes words.now) }
{
    words.iter().all(|word| word.as_str() != name)
}

/// The word of the first file, or nothing where there is none.
pub(crate) fn first_word(files: &[String]) -> &str
    ensures { result.now ≡ first_word_of (map string_bytes files.now) }
{
    match files {
        [] => "",
        [file, ..] => file.as_str(),
    }
}
