// Cells as numbers and pointers of a kind.

ghost use Rattle.std.specs.Prelude.{◌≡◌, IfOk, Ok};
ghost use Rattle.c_tree.specs.Constants.{Figure};
ghost use Rattle.c_tree.specs.Checks.{prefix_worth};
ghost use Rattle.c_numbers.specs.Told.{number_told};
ghost use Rattle.c_meaning.specs.Numbers as spec;
ghost use Rattle.c_meaning.specs.Values.{on_number};
ghost use Rattle.c_meaning.specs.declared.cell.Cell.TheVariants.{Int};
ghost use Rattle.c_code.specs.Coded.{prefix_of};
ghost use Rattle.c_texts.specs.Answers.{Answers};
ghost use Rattle.c_code.specs.Values.{place_seen, value_seen};

use crate::value::scalar;
use c_code::{Place, Sign, Value};
use c_meaning::Cell;
use c_numbers::{
    NumberWorth, combine_numbers, complement, is_integer, modulo, negated, result, wrap,
};
use c_texts::no_pointer;
use c_tree::{BinaryOperator, Kind, KindBase, Width};
use vg_base::{Fault, Memory, UndefKind};

const LONG: Kind = Kind {
    base: KindBase::Integer(Width::SixtyFour, true),
    stars: 0,
};

/// The number in a cell: null is 0.
pub fn number_of(cell: Cell) -> Result<i128, Fault<UndefKind>>
    ensures { Answers (λ number. number) result (spec.number_of cell) }
{
    match cell {
        Cell::Int(number) => Ok(number as i128),
        Cell::Uns(number) => Ok(number as i128),
        Cell::Null => Ok(0),
        Cell::Unset => Err(Fault::Refused(UndefKind::Unset)),
        Cell::Ptr { block: _, at: _ } | Cell::Func(_) => Err(Fault::Refused(UndefKind::Kind)),
    }
}

// The pointer or function in a cell.
fn pointer_of(cell: Cell) -> Result<Cell, Fault<UndefKind>>
    ensures { Answers (λ cell. cell) result (spec.pointer_of cell) }
{
    match cell {
        Cell::Int(_) | Cell::Uns(_) | Cell::Unset => Err(Fault::Refused(no_pointer(cell))),
        Cell::Ptr { block: _, at: _ } | Cell::Func(_) | Cell::Null => Ok(cell),
    }
}

fn int_cell(number: i128) -> Result<Cell, Fault<UndefKind>>
    ensures { Answers (λ cell. cell) result (Ok (Int number)) }
{
    if i64::MIN as i128 <= number && number <= i64::MAX as i128 {
        Ok(Cell::Int(number as i64))
    } else {
        Err(Fault::Memory)
    }
}

/// A number as the cell of a kind, modulo its width.
pub fn number(kind: Kind, number: i128) -> Result<Cell, Fault<UndefKind>>
    ensures { Answers (λ cell. cell) result (Ok (spec.number kind number)) }
{
    match kind.base {
        KindBase::Integer(width, false) => Ok(Cell::Uns(modulo(width, number))),
        base => int_cell(wrap(Kind { base, stars: 0 }, number)),
    }
}

/// A cell as a kind: numbers are converted, pointers and functions stay as they are.
pub fn as_kind(kind: Kind, cell: Cell) -> Result<Cell, Fault<UndefKind>>
    ensures { Answers (λ cell. cell) result (spec.as_kind kind cell) }
{
    if is_integer(kind) {
        let found = number_of(cell)?;
        number(kind, found)
    } else {
        pointer_of(cell)
    }
}

/// The same of a value; the cells of a struct stay as they are.
pub fn converted(kind: Kind, value: Value) -> Result<Value, Fault<UndefKind>>
    ensures { Answers value_seen result (spec.converted kind (value_seen value)) }
{
    match value {
        Value::Scalar(cell) => Ok(Value::Scalar(as_kind(kind, cell)?)),
        Value::Struct(cells) => Ok(Value::Struct(cells)),
    }
}

/// What is false where a condition stands.
pub fn is_false(cell: Cell) -> bool
    ensures { result ≡ spec.is_false cell }
{
    match cell {
        Cell::Int(number) => number == 0,
        Cell::Uns(number) => number == 0,
        Cell::Null => true,
        Cell::Ptr { block: _, at: _ } | Cell::Func(_) | Cell::Unset => false,
    }
}

pub fn truth(test: bool) -> Cell
    ensures { result ≡ spec.truth test }
{
    Cell::Int(if test { 1 } else { 0 })
}

// The cell of what an operation gives, or why it gives nothing.
fn worth_cell(kind: Kind, cause: UndefKind, worth: NumberWorth) -> Result<Cell, Fault<UndefKind>>
    ensures { Answers (λ cell. cell) result (spec.worth_cell kind cause (number_told worth)) }
{
    match worth {
        NumberWorth::Is(found) => number(kind, found),
        NumberWorth::Ends => Err(Fault::Refused(cause)),
        NumberWorth::Untold => Err(Fault::Refused(UndefKind::Kind)),
    }
}

fn cause_of(operator: BinaryOperator, second: i128) -> UndefKind
    ensures { result ≡ spec.cause_of operator second }
{
    match operator {
        BinaryOperator::Divide | BinaryOperator::Remainder if second == 0 => UndefKind::Divide,
        _ => UndefKind::Overflow,
    }
}

/// An operator on two numbers of kinds, whose result has the kind `gives`.
pub fn calculated(
    operator: BinaryOperator,
    gives: Kind,
    left: Kind,
    right: Kind,
    a: i128,
    b: i128,
) -> Result<Cell, Fault<UndefKind>>
    ensures { Answers (λ cell. cell) result (spec.calculated operator gives left right a b) }
{
    match combine_numbers(operator, left, right, a, b) {
        Ok(worth) => worth_cell(gives, cause_of(operator, b), worth),
        Err(_) => Err(Fault::Memory),
    }
}

// What a sign makes of a number, in the kind of the result.
fn sign_worth(sign: Sign, kind: Kind, number: i128) -> Result<NumberWorth, Memory>
    ensures { IfOk result (λ worth. number_told worth ≡ prefix_worth (prefix_of sign) kind (Figure number)) }
{
    match sign {
        Sign::Plus => Ok(result(kind, number)),
        Sign::Minus => negated(kind, number),
        Sign::Complement => complement(kind, number),
    }
}

/// `+`, `-` or `~` before a number.
pub fn signed(sign: Sign, kind: Kind, value: Value) -> Result<Value, Fault<UndefKind>>
    ensures { Answers value_seen result (on_number (prefix_of sign) kind (value_seen value)) }
{
    let cell = scalar(value)?;
    let found = number_of(cell)?;
    match sign_worth(sign, kind, found) {
        Ok(worth) => Ok(Value::Scalar(worth_cell(kind, UndefKind::Overflow, worth)?)),
        Err(_) => Err(Fault::Memory),
    }
}

/// Two pointers or functions are the same.
pub fn same(a: Cell, b: Cell) -> bool
    ensures { result ≡ spec.same a b }
{
    match (a, b) {
        (Cell::Null, Cell::Null) => true,
        (Cell::Ptr { block: b, at: i }, Cell::Ptr { block: c, at: j }) => b == c && i == j,
        (Cell::Func(f), Cell::Func(g)) => f == g,
        _ => false,
    }
}

/// The difference of two places of one block.
pub fn difference(p: Place, q: Place) -> Result<Cell, Fault<UndefKind>>
    ensures { Answers (λ cell. cell) result (spec.difference (place_seen p) (place_seen q)) }
{
    if p.block == q.block {
        number(LONG, p.at as i128 - q.at as i128)
    } else {
        Err(Fault::Refused(UndefKind::Outside))
    }
}
