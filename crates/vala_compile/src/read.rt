// Reads all files as a program.

ghost use Rattle.std.specs.Prelude.{List, map};
ghost use Rattle.vala_lexer.specs.Tokens.{Lexeme};
ghost use Rattle.vala_compile.specs.Program.{AreRead, Joined};
ghost use Rattle.vala_compile.specs.Steps.{Told, at_end, outcome, seen};

use crate::reader::{Expected, Reader, left_out};
use static_rules::Refusal;
use std::alloc::Global;
use vg_base::{Bytes, Fault, Span};

// The first byte of the first file.
const START: Span = Span {
    file: 0,
    start: 0,
    end: 0,
};

fn texts_of(reader: Reader) -> Result<Vec<Bytes>, Fault<Refusal>>
    ensures { Told (at_end (seen reader)) result }
{
    match reader.next {
        Expected::Nothing => Ok(reader.texts),
        _ => Err(Fault::Refused(left_out(START))),
    }
}

/// The program that the files are, by the texts that it prints, where each is a file of the grammar.
pub fn read(alloc: Global, files: &[Vec<u8>]) -> Result<Vec<Bytes>, Fault<Refusal>>
    requires { AreRead (map (λ f. f.items) files.now) }
    ensures { (ts : List Lexeme) → Joined 0 (map (λ f. f.items) files.now) ts → Told (outcome ts) result }
{
    let mut reader = Reader::new(alloc);
    for (number, bytes) in files.iter().enumerate() {
        reader.take_file(alloc, bytes, number as u32)?;
    }
    texts_of(reader)
}
