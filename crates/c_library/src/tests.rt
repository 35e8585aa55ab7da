// Calls one after another.

use crate::call;
use c_code::{LibraryFunction, Sliced, TypeArgument};
use c_meaning::Cell;
use c_run_state::Run;
use std::test::Fail;

#[test]
fn a_struct_is_made(rt: HostRuntime) -> Result<(), Fail> {
    let alloc = rt.alloc();
    let mut run = Run::new(alloc, Vec::new(alloc));
    let argument = TypeArgument {
        cells: 2,
        sliced: Sliced::Scope,
    };
    call(alloc, &mut run, LibraryFunction::SliceNew, argument, &[])?;
    assert_eq!(rt; run.made, 1);
    assert!(rt; run.heap.get(1, 1).is_some());
    let pointer = Cell::Ptr { block: 1, at: 0 };
    call(alloc, &mut run, LibraryFunction::Free, argument, &[pointer])?;
    assert!(rt; run.heap.get(1, 1).is_none());
    assert_eq!(rt; run.said.len(), 2);
    Ok(())
}
