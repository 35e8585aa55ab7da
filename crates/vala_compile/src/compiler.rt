// Compiles files.

ghost use Rattle.std.specs.Prelude.{map};
ghost use Rattle.vg_base.specs.World.{IsName};
ghost use Rattle.vala_compile.specs.Correct.{Compiles};

use crate::checker::check;
use crate::read::read;
use c_emit::{emit, emitted_units_run, emitted_units_stay_within};
use c_places::texts_stand_apart;
use static_rules::Refusal;
use std::alloc::Global;
use vg_base::Fault;

/// What compiling gives.
#[derive(Debug, Drop)]
pub struct Emitted {
    /// The bytes of NAME.c.
    pub c: Vec<u8>,
}

/// The C of a program, or the first rule that the files break.
/// `name` and `strict_null` have no effect yet: the name stands in the C of larger programs, and the rules on null come with
/// nullable types.
pub fn compile(
    alloc: Global,
    files: &[Vec<u8>],
    name: &str,
    strict_null: bool,
) -> Result<Emitted, Fault<Refusal>>
    requires { IsName name.now }
    ensures { Compiles (map (λ f. f.items) files.now) strict_null result }
{
    check(alloc, files, strict_null)?;
    let program = read(alloc, files)?;
    texts_stand_apart();
    emitted_units_run();
    emitted_units_stay_within();
    match emit(alloc, &program) {
        Ok(c) => Ok(Emitted { c }),
        Err(_) => Err(Fault::Memory),
    }
}
