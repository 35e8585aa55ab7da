// Which blocks are things, and which `g_slice_new0` made.

ghost use Rattle.std.specs.Prelude.{◌≡◌, ◌<◌, ◌≤◌, [], ℕ, OnErr, OnOk, Some, None, length};
ghost use Rattle.glib_model.specs.Kinds.{Changed, mark_at};

use std::alloc::Global;
use std::marker::Model;
use vg_base::{Memory, ThingKind};

/// What a block is: the kind of thing, if it is one, the place of its count cell, if it has one, and whether
/// `g_slice_new0` made it.
#[derive(Clone, Copy)]
pub struct Mark {
    pub kind: Option<ThingKind>,
    pub count: Option<u64>,
    pub is_sliced: bool,
}

/// The marks of blocks by their numbers, which count from 1.
#[derive(Drop)]
pub struct Kinds {
    alloc: Global,
    marks: Vec<Option<Mark>>,
}

impl Model for Kinds {
    ghost use Rattle.std.specs.Prelude.{List, Option};
    ghost use Rattle.glib_model.specs.declared.kinds.Mark.{Mark};

    ghost Value = { List (Option Mark) };

    ghost view = { λ kinds. kinds.marks.items };
}

// Room for so many marks.
fn grow(marks: &mut Vec<Option<Mark>>, count: usize) -> Result<(), Memory>
    ensures same { (k : ℕ) → mark_at marks.new.items k ≡ mark_at marks.old.items k }
    ensures room { OnOk result (count ≤ length marks.new.items) }
{
    for done in marks.len()..count {
        if marks.push(None).is_err() {
            return Err(Memory);
        }
    }
    Ok(())
}

// Another mark of a block that has room.
fn set_mark(marks: &mut Vec<Option<Mark>>, block: u64, mark: Option<Mark>)
    requires some { 0 < block }
    requires room { block ≤ length marks.old.items }
    ensures { Changed marks.old.items marks.new.items block mark }
{
    marks[(block - 1) as usize] = mark;
}

impl Kinds {
    /// No marks.
    pub fn new(alloc: Global) -> Kinds
        ensures { result ≡ [] }
    {
        Kinds {
            alloc,
            marks: Vec::new(alloc),
        }
    }

    /// The mark of a block.
    pub fn get(&self, block: u64) -> Option<Mark>
        ensures { result ≡ mark_at self.now block }
    {
        let index = block.checked_sub(1)?;
        *self.marks.get(index as usize)?
    }

    /// Sets the mark of a block.
    pub fn add(
        &mut self,
        block: u64,
        kind: Option<ThingKind>,
        count: Option<u64>,
        is_sliced: bool,
    ) -> Result<(), Memory>
        requires { 0 < block }
        ensures added { OnOk result (Changed self.old self.new block (Some (record { kind = kind; count = count; is_sliced = is_sliced }))) }
        ensures unchanged { OnErr result ((k : ℕ) → mark_at self.new k ≡ mark_at self.old k) }
    {
        grow(&mut self.marks, block as usize)?;
        let mark = Mark {
            kind,
            count,
            is_sliced,
        };
        set_mark(&mut self.marks, block, Some(mark));
        Ok(())
    }

    /// Drops the mark of a block.
    pub fn remove(&mut self, block: u64)
        ensures { Changed self.old self.new block None }
    {
        if block > 0 && block <= self.marks.len() as u64 {
            set_mark(&mut self.marks, block, None);
        }
    }
}
