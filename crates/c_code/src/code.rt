// Values of C in which names are resolved: what is computed, from what, in which order.

use c_meaning::Cell;
use c_tree::{BinaryOperator, Kind};
use sqlite_items::{Boxed, Items};

/// What a value or a place is reached by: where it starts, and moves from there, the first one first.
#[cycle(code)]
pub struct Code {
    pub start: Start,
    pub moves: Items<Move>,
}

impl Drop for Code {
    #[cycle(dropped)]
    fn drop(self) {
        let Code { start, moves } = self;
        drop(start);
        drop(moves);
    }
}

#[cycle(code)]
pub enum Start {
    /// A cell that is known before the run.
    Cell(Cell),
    /// A place of the frame's block.
    Local(u64),
    /// The first place of a block.
    Block(u64),
    /// What has no meaning: no well-formed unit has it.
    Nothing,
    /// `a + b - c`: one operation or more, from the left.
    Chain(Boxed<Code>, Items<Operation>),
    /// `a ? b : c ? d : e`: one choice or more, and the value behind the last `:`.
    Choice(Items<Alternative>, Boxed<Code>),
}

impl Drop for Start {
    #[cycle(dropped)]
    fn drop(self) {
        match self {
            Start::Chain(first, operations) => {
                drop(first);
                drop(operations);
            }
            Start::Choice(alternatives, last) => {
                drop(alternatives);
                drop(last);
            }
            Start::Cell(_) | Start::Local(_) | Start::Block(_) | Start::Nothing => {}
        }
    }
}

/// One step from what is reached, a value or a place, to the next.
#[cycle(code)]
pub enum Move {
    /// `!value`
    Not,
    /// `+`, `-` or `~` before a number, with the kind of the result.
    Sign(Sign, Kind),
    /// A value as another kind.
    Convert(Kind),
    /// From a pointer to the place that it leads to.
    Follow,
    /// From a place to the value there, of a kind that takes so many cells.
    Read(Kind, u64),
    /// From a place to the pointer to it.
    Address,
    /// From a place to the one so many cells on.
    Field(u64),
    /// From a pointer so many steps on, of so many cells each.
    Index(Code, u64),
}

impl Drop for Move {
    #[cycle(dropped)]
    fn drop(self) {
        match self {
            Move::Index(code, _) => drop(code),
            Move::Not
            | Move::Sign(_, _)
            | Move::Convert(_)
            | Move::Follow
            | Move::Read(_, _)
            | Move::Address
            | Move::Field(_) => {}
        }
    }
}

#[derive(Clone, Copy)]
pub enum Sign {
    Plus,
    Minus,
    Complement,
}

/// An operator and the operand behind it: the kinds of the result and of the two operands, and the cells of a step of the
/// first where it is a pointer.
#[cycle(code)]
pub struct Operation {
    pub operator: BinaryOperator,
    pub gives: Kind,
    pub left: Kind,
    pub right: Kind,
    pub step: u64,
    pub operand: Code,
}

impl Drop for Operation {
    #[cycle(dropped)]
    fn drop(self) {
        let Operation {
            operator: _,
            gives: _,
            left: _,
            right: _,
            step: _,
            operand,
        } = self;
        drop(operand);
    }
}

/// `test ? yes :`, and the kind of the whole from here on.
#[cycle(code)]
pub struct Alternative {
    pub test: Code,
    pub yes: Code,
    pub gives: Kind,
}

impl Drop for Alternative {
    #[cycle(dropped)]
    fn drop(self) {
        let Alternative {
            test,
            yes,
            gives: _,
        } = self;
        drop(test);
        drop(yes);
    }
}
