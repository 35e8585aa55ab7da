// The functions that look at more than blocks.

ghost use Rattle.std.specs.Prelude.{OnOk};
ghost use Rattle.c_code.specs.declared.program.LibraryFunction.TheVariants as library;
ghost use Rattle.c_library.specs.Calls.{Calls};

use c_code::TypeArgument;
use c_meaning::Cell;
use c_run_state::Run;
use glib_model::{g_quark_from_static_string, g_slice_new0, vala_rt_read_line};
use std::alloc::Global;
use vg_base::Memory;

/// Makes a struct of a type.
pub fn make_slice(
    alloc: Global,
    run: &mut Run,
    argument: TypeArgument,
    cells: &[Cell],
) -> Result<(), Memory>
    ensures { OnOk result (Calls library.SliceNew argument cells.now run.old run.new) }
{
    let answer = g_slice_new0(alloc, &mut run.heap, argument.cells)?;
    run.slice_made(argument.sliced)?;
    run.apply(answer)
}

/// Reads a line of the input.
pub fn read_line(
    alloc: Global,
    run: &mut Run,
    argument: TypeArgument,
    cells: &[Cell],
) -> Result<(), Memory>
    ensures { OnOk result (Calls library.ReadLine argument cells.now run.old run.new) }
{
    let answer = vala_rt_read_line(
        alloc,
        &mut run.heap,
        &run.kinds,
        cells,
        run.input.as_slice(),
        &mut run.at,
    )?;
    run.apply(answer)
}

/// Numbers a text.
pub fn number_quark(
    alloc: Global,
    run: &mut Run,
    argument: TypeArgument,
    cells: &[Cell],
) -> Result<(), Memory>
    ensures { OnOk result (Calls library.Quark argument cells.now run.old run.new) }
{
    let answer = g_quark_from_static_string(alloc, &run.heap, cells, &mut run.quarks)?;
    run.apply(answer)
}
