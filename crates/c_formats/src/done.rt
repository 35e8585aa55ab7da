// What was written so far.

ghost use Rattle.std.specs.Prelude.{◌≡◌, ◌++◌, ◌-◌, ◌&&◌, [], List, ℕ, IfOk, OnOk, if◌then◌else◌, replicate};
ghost use Rattle.c_meaning.specs.Formats.{character, writes};
ghost use Rattle.c_texts.specs.Answers.{Answers};
ghost use Rattle.c_formats.specs.Seen.{as_fault, seen_directive, seen_done};

use crate::filling::{append, append_many, filled};
use crate::pieces::Directive;
use std::alloc::Global;
use vg_base::{Fault, Memory, UndefKind};

/// What a directive writes, and whether the text goes on behind it.
#[derive(Drop)]
pub struct Done {
    pub bytes: Vec<u8>,
    pub goes_on: bool,
}

/// Bytes behind which the text goes on.
pub fn writes(bytes: Result<Vec<u8>, Memory>) -> Result<Done, Fault<UndefKind>>
    ensures { (list : List ℕ) → IfOk bytes (λ text. text.items ≡ list) → Answers seen_done result (writes list) }
{
    match bytes {
        Ok(bytes) => Ok(Done {
            bytes,
            goes_on: true,
        }),
        Err(_) => Err(Fault::Memory),
    }
}

/// Want of memory as a fault.
pub fn stored(added: Result<(), Memory>) -> Result<(), Fault<UndefKind>>
    ensures { result ≡ as_fault added }
{
    match added {
        Ok(()) => Ok(()),
        Err(_) => Err(Fault::Memory),
    }
}

// The spaces in front of a character that ends the text.
fn spaces(alloc: Global, directive: Directive) -> Result<Vec<u8>, Memory>
    ensures { IfOk result (λ text. text.items ≡ (if directive.is_left then [] else replicate (directive.width - 1) 32)) }
{
    let mut text = Vec::new(alloc);
    if !directive.is_left {
        append_many(&mut text, 32, directive.width.saturating_sub(1))?;
    }
    Ok(text)
}

/// A character of 0 ends the text; what fills it up in front still stands.
pub fn character(alloc: Global, directive: Directive, byte: u8) -> Result<Done, Fault<UndefKind>>
    ensures { Answers seen_done result (character (seen_directive directive) byte) }
{
    if byte != 0 {
        return writes(filled(alloc, directive, &[byte]));
    }
    match spaces(alloc, directive) {
        Ok(bytes) => Ok(Done {
            bytes,
            goes_on: false,
        }),
        Err(_) => Err(Fault::Memory),
    }
}

/// A text that is written, and whether what is written next stands in it.
#[derive(Drop)]
pub struct Draft {
    pub text: Vec<u8>,
    pub is_open: bool,
}

impl Draft {
    /// Appends bytes, if the text has not ended.
    pub fn add(&mut self, bytes: &[u8]) -> Result<(), Memory>
        ensures text { OnOk result (self.new.text.items ≡ (if self.old.is_open then self.old.text.items ++ bytes.now else self.old.text.items)) }
        ensures open { self.new.is_open ≡ self.old.is_open }
    {
        if self.is_open {
            append(&mut self.text, bytes)
        } else {
            Ok(())
        }
    }

    /// Appends what a directive wrote, which may end the text.
    pub fn add_done(&mut self, done: &Done) -> Result<(), Memory>
        ensures text { OnOk result (self.new.text.items ≡ (if self.old.is_open then self.old.text.items ++ done.now.bytes.items else self.old.text.items)) }
        ensures open { OnOk result (self.new.is_open ≡ (self.old.is_open && done.now.goes_on)) }
    {
        self.add(done.bytes.as_slice())?;
        self.is_open = self.is_open && done.goes_on;
        Ok(())
    }
}
