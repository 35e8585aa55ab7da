// The tokens of a small text, byte by byte. A mode says what is open, so that each byte is read once.

ghost use Rattle.std.specs.Prelude.{◌≡◌, ◌++◌, ◌∷◌, ℕ, List, [], IfOk, OnOk, MatchOption, option_map};
ghost use Rattle.vg_base.specs.World.{is_word_byte};
ghost use Rattle.vg_base.specs.Small.{Lexes, is_space, is_sign, is_plain, escape_of};
ghost use Rattle.vg_base.specs.Scanner as spec;
ghost use Rattle.vg_base.specs.declared.small.Token.{Token};

use crate::event::{Bytes, Memory};
use crate::small::Token;
use std::alloc::Global;

const INCLUDE_LINE: &[u8] = b"#include <glib.h>\n";

/// What begins with a byte that stands between tokens.
#[derive(Clone, Copy)]
enum Start {
    Word,
    Space,
    Sign,
    Quote,
    Line,
    Other,
}

/// What is open between two bytes.
#[derive(Drop)]
enum Mode {
    /// No token is open.
    Between,
    /// In a word, with its bytes so far.
    Word(Bytes),
    /// In a text, with the bytes that it denotes so far.
    Text(Bytes),
    /// The same, behind a `\`.
    Escape(Bytes),
    /// In an include line, with how many of its bytes have passed.
    Include(usize),
}

fn is_word_byte(byte: u8) -> bool
    ensures { result ≡ is_word_byte byte }
{
    matches!(byte, b'A'..=b'Z' | b'a'..=b'z' | b'0'..=b'9' | b'_')
}

fn is_space(byte: u8) -> bool
    ensures { result ≡ is_space byte }
{
    matches!(byte, b' ' | b'\t' | b'\n' | 12 | b'\r')
}

fn is_sign(byte: u8) -> bool
    ensures { result ≡ is_sign byte }
{
    matches!(byte, b'(' | b')' | b'*' | b',' | b';' | b'{' | b'}')
}

fn is_plain(byte: u8) -> bool
    ensures { result ≡ is_plain byte }
{
    b' ' <= byte && byte <= b'~' && byte != b'"' && byte != b'%' && byte != b'\\'
}

fn escape_of(byte: u8) -> Option<u8>
    ensures { result ≡ escape_of byte }
{
    match byte {
        b'n' => Some(b'\n'),
        b'"' | b'\\' => Some(byte),
        _ => None,
    }
}

fn start_of(byte: u8) -> Start
    ensures { result ≡ spec.start_of byte }
{
    if is_word_byte(byte) {
        Start::Word
    } else if is_space(byte) {
        Start::Space
    } else if is_sign(byte) {
        Start::Sign
    } else if byte == b'"' {
        Start::Quote
    } else if byte == b'#' {
        Start::Line
    } else {
        Start::Other
    }
}

fn push_token(tokens: &mut Vec<Token>, token: Token) -> Result<(), Memory>
    ensures { OnOk result (tokens.new.items ≡ tokens.old.items ++ token ∷ []) }
{
    if tokens.push(token).is_err() {
        Err(Memory)
    } else {
        Ok(())
    }
}

fn with_byte(mut bytes: Bytes, byte: u8) -> Result<Bytes, Memory>
    ensures { IfOk result (λ longer. longer ≡ bytes ++ byte ∷ []) }
{
    if bytes.list.push(byte).is_err() {
        Err(Memory)
    } else {
        Ok(bytes)
    }
}

fn no_bytes(alloc: Global) -> Bytes
    ensures { result ≡ [] }
{
    Bytes {
        list: Vec::new(alloc),
    }
}

// A byte that stands between tokens.
fn begin(alloc: Global, byte: u8, tokens: &mut Vec<Token>) -> Result<Option<Mode>, Memory>
    ensures { IfOk result (λ next. spec.scanned next tokens.new.items ≡ spec.begin byte tokens.old.items) }
{
    match start_of(byte) {
        Start::Word => Ok(Some(Mode::Word(with_byte(no_bytes(alloc), byte)?))),
        Start::Space => Ok(Some(Mode::Between)),
        Start::Sign => {
            push_token(tokens, Token::Sign(byte))?;
            Ok(Some(Mode::Between))
        }
        Start::Quote => Ok(Some(Mode::Text(no_bytes(alloc)))),
        Start::Line => Ok(Some(Mode::Include(1))),
        Start::Other => Ok(None),
    }
}

fn in_word(
    alloc: Global,
    word: Bytes,
    byte: u8,
    tokens: &mut Vec<Token>,
) -> Result<Option<Mode>, Memory>
    ensures { IfOk result (λ next. spec.scanned next tokens.new.items ≡ spec.in_word word byte tokens.old.items) }
{
    if is_word_byte(byte) {
        return Ok(Some(Mode::Word(with_byte(word, byte)?)));
    }
    push_token(tokens, Token::Word(word))?;
    begin(alloc, byte, tokens)
}

fn in_text(text: Bytes, byte: u8, tokens: &mut Vec<Token>) -> Result<Option<Mode>, Memory>
    ensures { IfOk result (λ next. spec.scanned next tokens.new.items ≡ spec.in_text text byte tokens.old.items) }
{
    if is_plain(byte) {
        Ok(Some(Mode::Text(with_byte(text, byte)?)))
    } else if byte == b'\\' {
        Ok(Some(Mode::Escape(text)))
    } else if byte == b'"' {
        push_token(tokens, Token::Text(text))?;
        Ok(Some(Mode::Between))
    } else {
        Ok(None)
    }
}

fn in_escape(text: Bytes, byte: u8) -> Result<Option<Mode>, Memory>
    ensures { IfOk result (λ next. (ended : List Token) → spec.scanned next ended ≡ spec.in_escape text byte ended) }
{
    match escape_of(byte) {
        Some(denoted) => Ok(Some(Mode::Text(with_byte(text, denoted)?))),
        None => Ok(None),
    }
}

fn in_include(passed: usize, byte: u8, tokens: &mut Vec<Token>) -> Result<Option<Mode>, Memory>
    ensures { IfOk result (λ next. spec.scanned next tokens.new.items ≡ spec.in_include passed byte tokens.old.items) }
{
    match INCLUDE_LINE.get(passed) {
        Some(expected) if *expected == byte => {
            if passed + 1 < INCLUDE_LINE.len() {
                return Ok(Some(Mode::Include(passed + 1)));
            }
            push_token(tokens, Token::Include)?;
            Ok(Some(Mode::Between))
        }
        _ => Ok(None),
    }
}

fn step(
    alloc: Global,
    mode: Mode,
    byte: u8,
    tokens: &mut Vec<Token>,
) -> Result<Option<Mode>, Memory>
    ensures { IfOk result (λ next. spec.scanned next tokens.new.items ≡ spec.step mode byte tokens.old.items) }
{
    match mode {
        Mode::Between => begin(alloc, byte, tokens),
        Mode::Word(word) => in_word(alloc, word, byte, tokens),
        Mode::Text(text) => in_text(text, byte, tokens),
        Mode::Escape(text) => in_escape(text, byte),
        Mode::Include(passed) => in_include(passed, byte, tokens),
    }
}

fn finish(mode: Mode, mut tokens: Vec<Token>) -> Result<Option<Vec<Token>>, Memory>
    ensures { IfOk result (λ found. option_map (λ v. v.items) found ≡ spec.finish mode tokens.items) }
{
    match mode {
        Mode::Between => Ok(Some(tokens)),
        Mode::Word(word) => {
            push_token(&mut tokens, Token::Word(word))?;
            Ok(Some(tokens))
        }
        Mode::Text(_) | Mode::Escape(_) | Mode::Include(_) => Ok(None),
    }
}

/// The tokens of a text, or None where it has none.
pub fn tokens(alloc: Global, bytes: &[u8]) -> Result<Option<Vec<Token>>, Memory>
    ensures { IfOk result (λ found. MatchOption found ((ts : List Token) → Lexes bytes.now ts → ⊥) (λ ts. Lexes bytes.now ts.items)) }
{
    let mut tokens = Vec::new(alloc);
    let mut mode = Mode::Between;
    for byte in bytes {
        match step(alloc, mode, *byte, &mut tokens)? {
            Some(next) => mode = next,
            None => return Ok(None),
        }
    }
    finish(mode, tokens)
}
