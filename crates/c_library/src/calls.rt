// A call.

ghost use Rattle.std.specs.Prelude.{OnOk};
ghost use Rattle.c_library.specs.Calls.{Calls};

use crate::outside::{make_slice, number_quark, read_line};
use crate::rows::answer_of;
use c_code::{LibraryFunction, TypeArgument};
use c_meaning::Cell;
use c_run_state::Run;
use std::alloc::Global;
use vg_base::Memory;

/// Calls a function of the library, with a type before the arguments.
pub fn call(
    alloc: Global,
    run: &mut Run,
    function: LibraryFunction,
    argument: TypeArgument,
    cells: &[Cell],
) -> Result<(), Memory>
    ensures { OnOk result (Calls function argument cells.now run.old run.new) }
{
    match function {
        LibraryFunction::SliceNew => make_slice(alloc, run, argument, cells),
        LibraryFunction::ReadLine => read_line(alloc, run, argument, cells),
        LibraryFunction::Quark => number_quark(alloc, run, argument, cells),
        _ => {
            let answer = answer_of(
                alloc,
                &mut run.heap,
                &run.kinds,
                function,
                argument.cells,
                cells,
            )?;
            run.apply(answer)
        }
    }
}
