// The functions that look at blocks alone.

ghost use Rattle.std.specs.Prelude.{◌≡◌, true, IfOk};
ghost use Rattle.c_code.specs.Statements.{row_of};
ghost use Rattle.c_library.specs.Calls.{is_of_blocks};
ghost use Rattle.glib_model.specs.Ends.{IsTypedRow};

use c_code::LibraryFunction;
use c_meaning::Cell;
use cell_heap::CellHeap;
use glib_model::{
    Kinds, LibEnd, g_ascii_strtoll, g_error, g_error_copy, g_error_free, g_error_matches,
    g_error_new, g_free, g_new0, g_print, g_printerr, g_propagate_error, g_renew, g_slice_free,
    g_str_has_prefix, g_str_has_suffix, g_strcmp0, g_strconcat, g_strdup, g_strdup_printf,
    g_strndup, g_strstr_len, strlen,
};
use std::alloc::Global;
use vg_base::Memory;

/// What a function answers to cells, with a type of so many cells before them.
pub fn answer_of(
    alloc: Global,
    heap: &mut CellHeap,
    kinds: &Kinds,
    function: LibraryFunction,
    size: u64,
    cells: &[Cell],
) -> Result<LibEnd, Memory>
    requires { is_of_blocks function ≡ true }
    ensures { IfOk result (IsTypedRow (row_of function) size cells.now heap.old kinds.now heap.new) }
{
    match function {
        LibraryFunction::Print => g_print(alloc, heap, kinds, cells),
        LibraryFunction::PrintErr => g_printerr(alloc, heap, kinds, cells),
        LibraryFunction::SliceFree => g_slice_free(alloc, heap, kinds, cells),
        LibraryFunction::New => g_new0(alloc, heap, kinds, size, cells),
        LibraryFunction::Renew => g_renew(alloc, heap, kinds, size, cells),
        LibraryFunction::Free => g_free(alloc, heap, kinds, cells),
        LibraryFunction::Duplicate => g_strdup(alloc, heap, kinds, cells),
        LibraryFunction::DuplicateFront => g_strndup(alloc, heap, kinds, cells),
        LibraryFunction::Concatenate => g_strconcat(alloc, heap, kinds, cells),
        LibraryFunction::Format => g_strdup_printf(alloc, heap, kinds, cells),
        LibraryFunction::Compare => g_strcmp0(alloc, heap, kinds, cells),
        LibraryFunction::Length => strlen(alloc, heap, kinds, cells),
        LibraryFunction::HasPrefix => g_str_has_prefix(alloc, heap, kinds, cells),
        LibraryFunction::HasSuffix => g_str_has_suffix(alloc, heap, kinds, cells),
        LibraryFunction::Find => g_strstr_len(alloc, heap, kinds, cells),
        LibraryFunction::ReadNumber => g_ascii_strtoll(alloc, heap, kinds, cells),
        LibraryFunction::Abort => g_error(alloc, heap, kinds, cells),
        LibraryFunction::ErrorNew => g_error_new(alloc, heap, kinds, cells),
        LibraryFunction::ErrorCopy => g_error_copy(alloc, heap, kinds, cells),
        LibraryFunction::ErrorFree => g_error_free(alloc, heap, kinds, cells),
        LibraryFunction::ErrorPropagate => g_propagate_error(alloc, heap, kinds, cells),
        LibraryFunction::ErrorMatches => g_error_matches(alloc, heap, kinds, cells),
        LibraryFunction::SliceNew | LibraryFunction::ReadLine | LibraryFunction::Quark => {
            unreachable!()
        }
    }
}
