// The tokens of the small texts that the first path reads, Vala and C alike.

ghost use Rattle.std.specs.Prelude.{◌≡◌, ◌++◌, ℕ, List, OnOk};
ghost use Rattle.vg_base.specs.Small.{Denotes, EndsCalls, Lexes, calls_between, spelled, spelling};
ghost use Rattle.vg_base.specs.declared.small.Token.{Token};

use crate::event::{Bytes, Memory};

/// A token of a small text.
#[derive(Debug, Drop)]
pub enum Token {
    /// A word: letters, digits and `_`.
    Word(Bytes),
    /// One of `(` `)` `*` `,` `;` `{` `}`.
    Sign(u8),
    /// A text literal, by the bytes that it denotes.
    Text(Bytes),
    /// The line `#include <glib.h>`.
    Include,
}

/// A token that a grammar names.
#[derive(Clone, Copy, Debug)]
pub enum Piece {
    Word(&'static str),
    Sign(u8),
}

fn append(out: &mut Vec<u8>, bytes: &[u8]) -> Result<(), Memory>
    ensures { OnOk result (out.new.items ≡ out.old.items ++ bytes.now) }
{
    if out.extend_from_slice(bytes).is_err() {
        Err(Memory)
    } else {
        Ok(())
    }
}

fn push_spelled(out: &mut Vec<u8>, byte: u8) -> Result<(), Memory>
    ensures { OnOk result (out.new.items ≡ out.old.items ++ spelled byte) }
{
    match byte {
        b'\n' => append(out, &[b'\\', b'n']),
        b'"' | b'\\' => append(out, &[b'\\', byte]),
        _ => append(out, &[byte]),
    }
}

/// Appends bytes as they are written between the quotes of a text.
pub fn push_spelling(out: &mut Vec<u8>, bytes: &[u8]) -> Result<(), Memory>
    ensures { OnOk result (out.new.items ≡ out.old.items ++ spelling bytes.now) }
{
    for byte in bytes {
        push_spelled(out, *byte)?;
    }
    Ok(())
}

/// A text has one list of tokens.
pub fn one_list_of_tokens()
    ensures { (bytes : List ℕ) (ts us : List Token) → Lexes bytes ts → Lexes bytes us → ts ≡ us }
{}

/// The texts between a head and a tail are determined.
pub fn one_list_of_texts()
    ensures { (head tail : List Token) (name : List ℕ) (xs ys : List (List ℕ)) → EndsCalls name tail → calls_between head name tail xs ≡ calls_between head name tail ys → xs ≡ ys }
{}

/// What is denoted is spelled again: the spelling of bytes is read as a text that denotes them.
pub fn spelled_texts()
    ensures { (body bytes : List ℕ) → Denotes body bytes → Denotes (spelling bytes) bytes }
{}
