// Printing, and texts by a format.

ghost use Rattle.std.specs.Prelude.{IfOk};
ghost use Rattle.vg_base.specs.declared.event.Stream.TheVariants as stream;
ghost use Rattle.c_meaning.specs.BlockRows.{g_strdup_printf, print_to};
ghost use Rattle.glib_model.specs.Ends.{IsRow};

use crate::ends::{LibEnd, LibWhat, quiet, refused, undefined};
use crate::kinds::Kinds;
use crate::making::give_text;
use c_formats::formatted;
use c_meaning::Cell;
use cell_heap::CellHeap;
use std::alloc::Global;
use vg_base::{Bytes, Memory, Stream, UndefKind};

/// A text by a format.
pub fn g_strdup_printf(
    alloc: Global,
    heap: &mut CellHeap,
    kinds: &Kinds,
    args: &[Cell],
) -> Result<LibEnd, Memory>
    ensures { IfOk result (IsRow g_strdup_printf args.now heap.old kinds.now heap.new) }
{
    if args.is_empty() {
        return Ok(undefined(alloc, UndefKind::Kind));
    }
    let format = args[0];
    let rest = &args[1..];
    match formatted(alloc, heap, format, rest) {
        Ok(text) => give_text(alloc, heap, text.as_slice()),
        Err(fault) => refused(alloc, fault),
    }
}

// Prints what a format writes.
fn print_to(
    alloc: Global,
    heap: &CellHeap,
    kinds: &Kinds,
    stream: Stream,
    args: &[Cell],
) -> Result<LibEnd, Memory>
    ensures { IfOk result (IsRow (print_to stream) args.now heap.now kinds.now heap.now) }
{
    if args.is_empty() {
        return Ok(undefined(alloc, UndefKind::Kind));
    }
    let format = args[0];
    let rest = &args[1..];
    match formatted(alloc, heap, format, rest) {
        Ok(list) => Ok(quiet(
            alloc,
            LibWhat::Print {
                stream,
                bytes: Bytes { list },
            },
        )),
        Err(fault) => refused(alloc, fault),
    }
}

/// Prints to the output.
pub fn g_print(
    alloc: Global,
    heap: &CellHeap,
    kinds: &Kinds,
    args: &[Cell],
) -> Result<LibEnd, Memory>
    ensures { IfOk result (IsRow (print_to stream.Out) args.now heap.now kinds.now heap.now) }
{
    print_to(alloc, heap, kinds, Stream::Out, args)
}

/// Prints to the output for errors.
pub fn g_printerr(
    alloc: Global,
    heap: &CellHeap,
    kinds: &Kinds,
    args: &[Cell],
) -> Result<LibEnd, Memory>
    ensures { IfOk result (IsRow (print_to stream.Err) args.now heap.now kinds.now heap.now) }
{
    print_to(alloc, heap, kinds, Stream::Err, args)
}
