// Writes a text of C token by token.

ghost use Rattle.std.specs.Prelude.{◌≡◌, ◌∷◌, ◌++◌, [], drop, slice_index, OnOk};
ghost use Rattle.c_printer.specs.Put.{spelled};
ghost use Rattle.c_printer.specs.Text as spec;

use crate::output::Writer;
use crate::piece::Piece;
use crate::token::{append, put_token};
use c_lexer::needs_space;
use std::alloc::Global;
use vg_base::Memory;

// The bytes from a place on.
fn after(bytes: &[u8], at: usize) -> &[u8]
    ensures { result.now ≡ drop at bytes.now }
{
    if at < bytes.len() {
        bytes.split_at(at).1
    } else {
        bytes.split_at(bytes.len()).1
    }
}

// The first byte, or 0 where there is none.
fn first(bytes: &[u8]) -> u8
    ensures { result ≡ slice_index bytes.now 0 }
{
    if bytes.is_empty() { 0 } else { bytes[0] }
}

fn put_spaces(out: &mut Vec<u8>, count: usize) -> Result<(), Memory>
    ensures { OnOk result (out.new.items ≡ out.old.items ++ spec.spaces count) }
{
    for _ in 0..count {
        append(out, b" ".as_slice())?;
    }
    Ok(())
}

impl Writer {
    /// A text of no bytes.
    pub fn new(alloc: Global) -> Writer
        ensures { spec.seen result ≡ spec.empty }
    {
        Writer {
            bytes: Vec::new(alloc),
            last: None,
        }
    }

    /// Puts a token, behind a space where one is needed.
    pub fn token(&mut self, alloc: Global, piece: Piece<'_>) -> Result<(), Memory>
        ensures { OnOk result (spec.seen self.new ≡ spec.with_token (spec.seen self.old) (spelled piece.entry)) }
    {
        let mut token = Vec::new(alloc);
        put_token(alloc, &mut token, piece)?;
        self.part(&token)?;
        self.last = Some(self.bytes.len());
        append(&mut self.bytes, &token)
    }

    /// Puts a space.
    pub fn space(&mut self) -> Result<(), Memory>
        ensures { OnOk result (spec.seen self.new ≡ spec.with_white (spec.seen self.old) (32 ∷ [])) }
    {
        self.last = None;
        append(&mut self.bytes, b" ".as_slice())
    }

    /// Begins a new line with a number of spaces.
    pub fn line(&mut self, indent: usize) -> Result<(), Memory>
        ensures { OnOk result (spec.seen self.new ≡ spec.with_white (spec.seen self.old) (spec.new_line indent)) }
    {
        self.last = None;
        append(&mut self.bytes, b"\n".as_slice())?;
        put_spaces(&mut self.bytes, indent)
    }

    /// The bytes that were written.
    pub fn into_bytes(self) -> Vec<u8>
        ensures { result.items ≡ (spec.seen self).bytes }
    {
        self.bytes
    }

    // The space that the last token needs in front of a token.
    fn part(&mut self, token: &[u8]) -> Result<(), Memory>
        ensures { OnOk result (self.new.bytes.items ≡ self.old.bytes.items ++ spec.gap (spec.seen self.old).last token.now) }
    {
        match self.last {
            Some(at) if needs_space(after(&self.bytes, at), first(token)) => {
                append(&mut self.bytes, b" ".as_slice())
            }
            _ => Ok(()),
        }
    }
}
