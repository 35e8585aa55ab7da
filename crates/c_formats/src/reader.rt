// Reading a format.

ghost use Rattle.std.specs.Prelude.{◌≡◌, ◌++◌, map, IfOk, OnOk};
ghost use Rattle.std.specs.Option.{option_map};
ghost use Rattle.c_meaning.specs.Formats.{Copying, pieces};
ghost use Rattle.c_formats.specs.Seen.{ended, is_copying, seen_mode, seen_piece};

use crate::modes::{Mode, read_byte};
use crate::pieces::Piece;
use std::alloc::Global;
use vg_base::Memory;

// One more piece, if a step ended one.
fn push_piece(pieces: &mut Vec<Piece>, piece: Option<Piece>) -> Result<(), Memory>
    ensures { OnOk result (map seen_piece pieces.new.items ≡ map seen_piece pieces.old.items ++ ended piece) }
{
    let Some(piece) = piece else {
        return Ok(());
    };
    if pieces.push(piece).is_err() {
        Err(Memory)
    } else {
        Ok(())
    }
}

fn is_copying(mode: Mode) -> bool
    ensures { result ≡ is_copying (seen_mode mode) }
{
    matches!(mode, Mode::Copying)
}

/// The pieces of a format, if it is one.
pub fn pieces(alloc: Global, bytes: &[u8]) -> Result<Option<Vec<Piece>>, Memory>
    ensures { IfOk result (λ found. option_map (λ pieces. map seen_piece pieces.items) found ≡ pieces Copying bytes.now) }
{
    let mut pieces = Vec::new(alloc);
    let mut mode = Mode::Copying;
    for byte in bytes {
        let step = read_byte(mode, *byte);
        push_piece(&mut pieces, step.piece)?;
        mode = step.mode;
    }
    Ok(if is_copying(mode) { Some(pieces) } else { None })
}
