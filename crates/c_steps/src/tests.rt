// A function that gives a number, as `main`.

use crate::make_step;
use c_code::{Body, Code, Routine, Start, Statement};
use c_meaning::Cell;
use c_run_state::{Run, Work};
use sqlite_items::Items;
use std::test::Fail;
use vg_base::CEnd;

#[test]
fn a_function_gives_a_number(rt: HostRuntime) -> Result<(), Fail> {
    let alloc = rt.alloc();
    let seven = Code {
        start: Start::Cell(Cell::Int(7)),
        moves: Items::new(alloc),
    };
    let mut statements = Items::new(alloc);
    statements.push(Statement::Onward)?;
    statements.push(Statement::Return(Some(seven)))?;
    let body = Body {
        parameters: Items::new(alloc),
        cells: 0,
        statements,
    };
    let mut routines = Vec::new(alloc);
    routines.push(Routine {
        is_void: false,
        body: Some(body),
    })?;
    let mut run = Run::new(alloc, Vec::new(alloc));
    run.push(Work::Finish)?;
    run.push(Work::Enter(0, Vec::new(alloc)))?;
    for step in 0..3 {
        assert!(rt; run.ended.is_none());
        make_step(alloc, &mut run, routines.as_slice())?;
    }
    assert!(rt; matches!(run.ended, Some(CEnd::Ended(7))));
    Ok(())
}
