// What stands in errors.

ghost use Rattle.std.specs.Prelude.{◌≡◌};
ghost use Rattle.c_meaning.specs.BlockRows.{same_number};
ghost use Rattle.c_meaning.specs.Blocks.{bind, get};
ghost use Rattle.c_meaning.specs.Texts.{text_of};
ghost use Rattle.c_texts.specs.Answers.{Answers, InRuns};
ghost use Rattle.glib_model.specs.Errors.{code_cell, domain_cell, has_code, parts_of, place, seen_parts};

use crate::numbers::{as_int, as_uint, number_of};
use c_meaning::Cell;
use c_texts::text_of;
use cell_heap::CellHeap;
use std::alloc::Global;
use vg_base::{Fault, UndefKind};

/// The parts of an error.
#[derive(Drop)]
pub struct ErrorParts {
    pub domain: Cell,
    pub code: Cell,
    pub message: Vec<u8>,
}

/// The cell of a block at a place.
pub fn part(heap: &CellHeap, block: u64, at: u64) -> Result<Cell, UndefKind>
    ensures { InRuns heap.now (λ s. result ≡ get s (place block at)) }
{
    if heap.length(block).is_none() {
        return Err(UndefKind::Freed);
    }
    match heap.get(block, at) {
        Some(cell) => Ok(cell),
        None => Err(UndefKind::Outside),
    }
}

fn domain_cell(heap: &CellHeap, block: u64) -> Result<Cell, UndefKind>
    ensures { InRuns heap.now (λ s. result ≡ domain_cell s block) }
{
    as_uint(part(heap, block, 0)?)
}

fn code_cell(heap: &CellHeap, block: u64) -> Result<Cell, UndefKind>
    ensures { InRuns heap.now (λ s. result ≡ code_cell s block) }
{
    as_int(part(heap, block, 1)?)
}

// The message that an error points to.
fn message_of(alloc: Global, heap: &CellHeap, block: u64) -> Result<Vec<u8>, Fault<UndefKind>>
    ensures { InRuns heap.now (λ s. Answers (λ text. text.items) result (bind (get s (place block 2)) (text_of s))) }
{
    match part(heap, block, 2) {
        Ok(cell) => text_of(alloc, heap, cell),
        Err(kind) => Err(Fault::Refused(kind)),
    }
}

/// The domain, the code and the message of an error.
pub fn parts_of(alloc: Global, heap: &CellHeap, block: u64) -> Result<ErrorParts, Fault<UndefKind>>
    ensures { InRuns heap.now (λ s. Answers seen_parts result (parts_of s block)) }
{
    let domain = match domain_cell(heap, block) {
        Ok(cell) => cell,
        Err(kind) => return Err(Fault::Refused(kind)),
    };
    let code = match code_cell(heap, block) {
        Ok(cell) => cell,
        Err(kind) => return Err(Fault::Refused(kind)),
    };
    let message = message_of(alloc, heap, block)?;
    Ok(ErrorParts {
        domain,
        code,
        message,
    })
}

fn is_same(first: i128, second: i128) -> bool
    ensures { result ≡ same_number first second }
{
    first <= second && second <= first
}

/// Whether an error has a domain and a code.
pub fn has_code(heap: &CellHeap, block: u64, domain: Cell, code: Cell) -> Result<bool, UndefKind>
    ensures { InRuns heap.now (λ s. result ≡ has_code s block domain code) }
{
    let own_domain = number_of(domain_cell(heap, block)?)?;
    let domain = number_of(domain)?;
    let own_code = number_of(code_cell(heap, block)?)?;
    let code = number_of(code)?;
    Ok(is_same(own_domain, domain) && is_same(own_code, code))
}
