// Numbers as directives write them.

ghost use Rattle.std.specs.Prelude.{◌≡◌, [], IfOk, decimal, false, string_bytes, true};
ghost use Rattle.std.specs.Fmt.{digits};
ghost use Rattle.c_meaning.specs.Formats.{filled_number, written_signed};
ghost use Rattle.c_formats.specs.Seen.{seen_directive};

use crate::filling::filled_number;
use crate::pieces::Directive;
use std::alloc::Global;
use vg_base::Memory;

fn decimal(alloc: Global, number: u64) -> Result<String, Memory>
    ensures { IfOk result (λ text. string_bytes text ≡ decimal number) }
{
    match format!(in alloc; "{number}") {
        Ok(text) => Ok(text),
        Err(_) => Err(Memory),
    }
}

fn lower_hexadecimal(alloc: Global, number: u64) -> Result<String, Memory>
    ensures { IfOk result (λ text. string_bytes text ≡ digits 16 false number) }
{
    match format!(in alloc; "{number:x}") {
        Ok(text) => Ok(text),
        Err(_) => Err(Memory),
    }
}

fn upper_hexadecimal(alloc: Global, number: u64) -> Result<String, Memory>
    ensures { IfOk result (λ text. string_bytes text ≡ digits 16 true number) }
{
    match format!(in alloc; "{number:X}") {
        Ok(text) => Ok(text),
        Err(_) => Err(Memory),
    }
}

/// A number with a sign.
pub fn written_signed(alloc: Global, directive: Directive, number: i64) -> Result<Vec<u8>, Memory>
    ensures { IfOk result (λ text. text.items ≡ written_signed (seen_directive directive) number) }
{
    let figures = decimal(alloc, number.unsigned_abs())?;
    if number < 0 {
        filled_number(alloc, directive, &[45], figures.as_bytes())
    } else {
        filled_number(alloc, directive, &[], figures.as_bytes())
    }
}

/// A number without a sign.
pub fn written_unsigned(alloc: Global, directive: Directive, number: u64) -> Result<Vec<u8>, Memory>
    ensures { IfOk result (λ text. text.items ≡ filled_number (seen_directive directive) [] (decimal number)) }
{
    let figures = decimal(alloc, number)?;
    filled_number(alloc, directive, &[], figures.as_bytes())
}

/// A number in hexadecimal figures.
pub fn written_hexadecimal(
    alloc: Global,
    directive: Directive,
    is_upper: bool,
    number: u64,
) -> Result<Vec<u8>, Memory>
    ensures { IfOk result (λ text. text.items ≡ filled_number (seen_directive directive) [] (digits 16 is_upper number)) }
{
    let figures = if is_upper {
        upper_hexadecimal(alloc, number)?
    } else {
        lower_hexadecimal(alloc, number)?
    };
    filled_number(alloc, directive, &[], figures.as_bytes())
}
