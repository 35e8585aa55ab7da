// Filling up to a width.

ghost use Rattle.std.specs.Prelude.{◌≡◌, ◌++◌, ◌-◌, IfOk, OnOk, length, replicate};
ghost use Rattle.c_meaning.specs.Formats.{filled, filled_number};
ghost use Rattle.c_formats.specs.Seen.{seen_directive};

use crate::pieces::Directive;
use std::alloc::Global;
use vg_base::Memory;

/// Appends bytes.
pub fn append(text: &mut Vec<u8>, bytes: &[u8]) -> Result<(), Memory>
    ensures { OnOk result (text.new.items ≡ text.old.items ++ bytes.now) }
{
    if text.extend_from_slice(bytes).is_err() {
        Err(Memory)
    } else {
        Ok(())
    }
}

/// Appends one byte so many times.
pub fn append_many(text: &mut Vec<u8>, byte: u8, count: u64) -> Result<(), Memory>
    ensures { OnOk result (text.new.items ≡ text.old.items ++ replicate count byte) }
{
    for done in 0..count {
        append(text, &[byte])?;
    }
    Ok(())
}

/// Bytes filled up to the width: behind them for `-`, else in front of them.
pub fn filled(alloc: Global, directive: Directive, bytes: &[u8]) -> Result<Vec<u8>, Memory>
    ensures { IfOk result (λ text. text.items ≡ filled (seen_directive directive) bytes.now) }
{
    let mut text = Vec::new(alloc);
    let missing = directive.width.saturating_sub(bytes.len() as u64);
    if directive.is_left {
        append(&mut text, bytes)?;
        append_many(&mut text, 32, missing)?;
    } else {
        append_many(&mut text, 32, missing)?;
        append(&mut text, bytes)?;
    }
    Ok(text)
}

/// The figures of a number behind its sign, filled up to the width.
pub fn filled_number(
    alloc: Global,
    directive: Directive,
    sign: &[u8],
    figures: &[u8],
) -> Result<Vec<u8>, Memory>
    ensures { IfOk result (λ text. text.items ≡ filled_number (seen_directive directive) sign.now figures.now) }
{
    let mut text = Vec::new(alloc);
    append(&mut text, sign)?;
    append(&mut text, figures)?;
    if directive.is_left || !directive.is_zeroed {
        return filled(alloc, directive, text.as_slice());
    }
    let missing = directive.width.saturating_sub(text.len() as u64);
    let mut zeros = Vec::new(alloc);
    append(&mut zeros, sign)?;
    append_many(&mut zeros, 48, missing)?;
    append(&mut zeros, figures)?;
    Ok(zeros)
}
