// Changes one after another.

use crate::{Frame, Run, Work};
use c_code::{Place, Sliced, Value};
use c_meaning::Cell;
use std::test::Fail;
use vg_base::{CEnd, UndefKind};

// The block of the function that goes on next, and 0 where none does.
fn block_of_next(run: &mut Run) -> u64 {
    match run.pop() {
        Some(Work::Run(frame)) => frame.block,
        _ => 0,
    }
}

#[test]
fn a_function_returns_and_the_run_ends(rt: HostRuntime) -> Result<(), Fail> {
    let alloc = rt.alloc();
    let mut run = Run::new(alloc, Vec::new(alloc));
    run.enter_with(0, 2, &[Cell::Int(5)])?;
    let block = block_of_next(&mut run);
    assert_eq!(rt; block, 1);
    assert!(rt; run.heap.get(block, 1).is_some());
    let frame = Frame {
        routine: 0,
        at: 0,
        block,
    };
    run.leave(frame, Some(Value::Scalar(Cell::Int(7))))?;
    assert!(rt; run.heap.get(block, 1).is_none());
    run.finish()?;
    assert!(rt; matches!(run.ended, Some(CEnd::Ended(7))));
    Ok(())
}

#[test]
fn a_scope_lives_and_goes(rt: HostRuntime) -> Result<(), Fail> {
    let alloc = rt.alloc();
    let mut run = Run::new(alloc, Vec::new(alloc));
    let plain = run.make_block(&[Cell::Unset])?;
    assert!(rt; run.heap.make(2).is_ok());
    run.slice_made(Sliced::Scope)?;
    run.store(Place { block: 2, at: 0 }, &Value::Scalar(Cell::Uns(3)));
    let rows = run.live()?;
    assert_eq!(rt; rows.len(), 1);
    assert_eq!(rt; rows.as_slice()[0].serial, 1);
    assert_eq!(rt; rows.as_slice()[0].owners, 3);
    run.free_block(2)?;
    assert_eq!(rt; run.said.len(), 2);
    assert_eq!(rt; run.live()?.len(), 0);
    run.store(
        Place {
            block: plain,
            at: 1,
        },
        &Value::Scalar(Cell::Null),
    );
    assert!(rt; matches!(run.ended, Some(CEnd::Undefined(UndefKind::Outside))));
    Ok(())
}
