// The library's types, and the entry into `main`.

ghost use Rattle.std.specs.Prelude.{◌≡◌, IfOk, OnOk};
ghost use Rattle.c_meaning.specs.Runs.{with_types};
ghost use Rattle.c_opening.specs.Opens.{AreArguments, Becomes, Enters, EntersAt, Works, cell_of_number, routine_at};

use crate::opening::Opening;
use c_code::Value;
use c_meaning::Cell;
use c_run_state::Work;
use sqlite_items::Items;
use std::alloc::Global;
use vg_base::{Memory, UndefKind};

/// The number of the function of a name, where there is one.
pub fn number_in(names: &[Items<u8>], name: &[u8]) -> Option<u64>
    ensures { cell_of_number result ≡ routine_at 0 names.now name.now }
{
    for (number, other) in names.iter().enumerate() {
        if other.as_slice() == name {
            return Some(number as u64);
        }
    }
    None
}

// What `main` is given: how many arguments, and where they are.
fn arguments(alloc: Global, array: u64) -> Result<Vec<Value>, Memory>
    ensures { IfOk result (AreArguments array) }
{
    let mut arguments = Vec::new(alloc);
    let pushed = arguments.push(Value::Scalar(Cell::Int(1))).is_ok()
        && arguments
            .push(Value::Scalar(Cell::Ptr {
                block: array,
                at: 0,
            }))
            .is_ok();
    if pushed { Ok(arguments) } else { Err(Memory) }
}

impl Opening<'_> {
    /// The types that the library has from the start have blocks.
    pub fn add_types(&mut self) -> Result<(), Memory>
        ensures { OnOk result (Becomes with_types self.old self.new) }
    {
        self.make_block(&[
            Cell::Uns(80),
            Cell::Null,
            Cell::Null,
            Cell::Null,
            Cell::Null,
        ])?;
        self.make_block(&[Cell::Uns(8), Cell::Null])?;
        Ok(())
    }

    // `main` is to be entered, and nothing else.
    fn enter(&mut self, alloc: Global, main: u64, array: u64) -> Result<(), Memory>
        ensures { OnOk result (Works main array self.old self.new) }
    {
        let arguments = arguments(alloc, array)?;
        self.run.push(Work::Finish)?;
        self.run.push(Work::Enter(main, arguments))
    }

    // `main` is to be entered with one argument, the name.
    fn enter_with(&mut self, alloc: Global, main: u64, name: &[u8]) -> Result<(), Memory>
        ensures { OnOk result (EntersAt main name.now self.old self.new) }
    {
        let block = self.make_text(alloc, name)?;
        let array = self.make_block(&[Cell::Ptr { block, at: 0 }])?;
        self.enter(alloc, main, array)
    }

    /// The function `main` is to be entered, where there is one.
    pub fn enter_main(&mut self, alloc: Global, name: &[u8]) -> Result<(), Memory>
        ensures { OnOk result (Enters name.now self.old self.new) }
    {
        match number_in(self.tables.routines.as_slice(), b"main") {
            Some(main) => self.enter_with(alloc, main, name),
            None => {
                self.run.undefined(UndefKind::Kind);
                Ok(())
            }
        }
    }
}
