// A walk over the bases of a class or interface, which looks at each of them once.

ghost use Rattle.std.specs.Prelude.{◌≡◌, ℕ, [], length, false, slice_index_or};
ghost use Rattle.vala_types.specs.Walk.{IsCounted, add, add_all};

use crate::ties::MOST_ROWS;
use arrayvec::ArrayVec;

/// The numbers that were met, each once, in the order in which they are looked at.
#[derive(Drop)]
pub(crate) struct Found {
    pub(crate) marks: [bool; MOST_ROWS],
    pub(crate) list: ArrayVec<u32, MOST_ROWS>,
}

impl Found {
    /// Nothing was met yet.
    pub(crate) fn new() -> Self
        ensures counted { IsCounted result }
        ensures sized { length result.marks ≡ MOST_ROWS }
        ensures unmarked { (number : ℕ) → slice_index_or result.marks number false ≡ false }
        ensures empty { result.list.items ≡ [] }
    {
        Found {
            marks: [false; MOST_ROWS],
            list: ArrayVec::new(),
        }
    }

    /// Lists a number that was not met yet. One past the marks is left out.
    pub(crate) fn add(&mut self, number: u32)
        requires { IsCounted self.old }
        ensures { self.new ≡ add number self.old }
    {
        let index = number as usize;
        if index < MOST_ROWS && !self.marks[index] {
            self.marks[index] = true;
            self.list.push(number);
        }
    }

    pub(crate) fn add_all(&mut self, numbers: &[u32])
        requires { IsCounted self.old }
        ensures { self.new ≡ add_all numbers.now self.old }
    {
        for number in numbers {
            self.add(*number);
        }
    }
}
