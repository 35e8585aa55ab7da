// What is noted of blocks: which things they are, and that they were freed.

ghost use Rattle.std.specs.Prelude.{◌≡◌, List, OnOk, None, Some, true};
ghost use Rattle.c_meaning.specs.declared.cell.Cell.{Cell};
ghost use Rattle.c_meaning.specs.Blocks.{add_block, free, make, make_thing};
ghost use Rattle.c_run_state.specs.Shows.{BooksBecome};
ghost use Rattle.c_run_state.specs.Standings.{standing_at, struck};

use crate::lists::append;
use crate::state::{Run, Standing};
use vg_base::{Event, Memory, ThingKind, UndefKind};

// What became of the block with a number.
fn standing(standings: &[Standing], block: u64) -> Standing
    ensures { result ≡ standing_at standings.now block }
{
    let Some(index) = block.checked_sub(1) else {
        return Standing::Freed;
    };
    match standings.get(index as usize) {
        Some(standing) => *standing,
        None => Standing::Freed,
    }
}

// The block with a number is freed, if there is one.
fn strike(standings: &mut Vec<Standing>, block: u64)
    ensures { standings.new.items ≡ struck standings.old.items block }
{
    let Some(index) = block.checked_sub(1) else {
        return;
    };
    if let Some(standing) = standings.get_mut(index as usize) {
        *standing = Standing::Freed;
    }
}

impl Run {
    /// The next block is a thing.
    pub(crate) fn note_thing(
        &mut self,
        kind: ThingKind,
        count: Option<u64>,
        is_sliced: bool,
    ) -> Result<(), Memory>
        ensures heap { self.new.heap ≡ self.old.heap }
        ensures made { OnOk result ((cells : List Cell) → BooksBecome (λ s. make_thing s kind count is_sliced cells) self.old self.new) }
    {
        let block = self.standings.len() as u64 + 1;
        let Some(serial) = self.made.checked_add(1) else {
            return Err(Memory);
        };
        self.kinds.add(block, Some(kind), count, is_sliced)?;
        append(&mut self.standings, Standing::Thing(serial))?;
        append(&mut self.said, Event::Made(kind))?;
        self.made = serial;
        Ok(())
    }

    /// The next block is no thing, and `g_slice_new0` made it.
    pub(crate) fn note_sliced(&mut self) -> Result<(), Memory>
        ensures heap { self.new.heap ≡ self.old.heap }
        ensures made { OnOk result ((cells : List Cell) → BooksBecome (λ s. add_block s (record { cells = cells; is_live = true; thing = None; is_sliced = true })) self.old self.new) }
    {
        let block = self.standings.len() as u64 + 1;
        self.kinds.add(block, None, None, true)?;
        append(&mut self.standings, Standing::Plain)
    }

    /// The next block is no thing.
    pub(crate) fn note_plain(&mut self) -> Result<(), Memory>
        ensures heap { self.new.heap ≡ self.old.heap }
        ensures made { OnOk result ((cells : List Cell) → BooksBecome (λ s. make s cells) self.old self.new) }
    {
        append(&mut self.standings, Standing::Plain)
    }

    /// The block with a number is freed, if it is live.
    pub(crate) fn note_freed(&mut self, block: u64) -> Result<(), Memory>
        ensures heap { self.new.heap ≡ self.old.heap }
        ensures freed { OnOk result (BooksBecome (λ s. free s block) self.old self.new) }
    {
        match standing(self.standings.as_slice(), block) {
            Standing::Freed => {
                self.undefined(UndefKind::Freed);
                Ok(())
            }
            Standing::Plain => {
                strike(&mut self.standings, block);
                self.kinds.remove(block);
                Ok(())
            }
            Standing::Thing(serial) => {
                strike(&mut self.standings, block);
                self.kinds.remove(block);
                append(&mut self.said, Event::Gone(serial))
            }
        }
    }
}
