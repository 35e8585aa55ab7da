// Writes the C of a program.

ghost use Rattle.std.specs.Prelude.{◌≡◌, IfOk};
ghost use Rattle.c_printer.specs.Printed.{IsTextOf};
ghost use Rattle.c_printer.specs.Marks.{put_marks};
ghost use Rattle.c_printer.specs.PutItems.{unit_marks};
ghost use Rattle.c_printer.specs.Text.{empty};
ghost use Rattle.c_printer.specs.declared.grade.Brackets.TheVariants.{Clear};
ghost use Rattle.c_emit.specs.Program.{AreTexts};
ghost use Rattle.c_emit.specs.Emission as spec;

use crate::tree::unit_of;
use c_printer::{Brackets, Writer, pieces_read_back, put_unit, tokens_are_read};
use std::alloc::Global;
use vg_base::{Bytes, Memory};

fn written(alloc: Global, texts: &[Bytes]) -> Result<Vec<u8>, Memory>
    ensures { IfOk result (λ c. c.items ≡ (put_marks empty (unit_marks Clear (spec.unit_of texts.now))).bytes) }
{
    match unit_of(alloc, texts) {
        Ok(unit) => {
            let mut out = Writer::new(alloc);
            put_unit(alloc, &mut out, Brackets::Clear, &unit)?;
            Ok(out.into_bytes())
        }
        Err(_) => Err(Memory),
    }
}

/// The C of the program that prints these texts, in which no byte is zero: its text is read as the unit of that program.
pub fn emit(alloc: Global, texts: &[Bytes]) -> Result<Vec<u8>, Memory>
    ensures { IfOk result (λ c. AreTexts texts.now → IsTextOf (spec.unit_of texts.now) c.items) }
{
    tokens_are_read();
    pieces_read_back();
    written(alloc, texts)
}
