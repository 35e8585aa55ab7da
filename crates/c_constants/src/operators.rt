// Operators on constants.

ghost use Rattle.std.specs.Prelude.{◌≡◌, ◌&&◌, ◌+ℤ◌, ◌*ℤ◌, neg_ℤ, pos, negsuc, int_le, IfOk};
ghost use Rattle.c_tree.specs.Checks as checks;
ghost use Rattle.c_tree.specs.Constants as spec;
ghost use Rattle.c_constants.specs.Told.{datum_told, worth_told};

use crate::numbers::{combine_numbers, result, wrap};
use crate::worth::{Datum, Worth, converted, is_false, of_number, truth, truth_of};
use c_tree::{BinaryOperator, Kind, Prefix};
use vg_base::Memory;

// No two text literals are one block.
fn same_place(a: Datum, b: Datum) -> bool
    ensures { result ≡ spec.same_place (datum_told a.entry) (datum_told b.entry) }
{
    match (a, b) {
        (Datum::NoPlace, Datum::NoPlace) => true,
        (Datum::Code(x), Datum::Code(y)) => x == y,
        _ => false,
    }
}

// So many cells.
fn cells(count: i128, step: u64) -> Result<i128, Memory>
    ensures { IfOk result (λ cells. cells ≡ count *ℤ pos step) }
{
    match count.checked_mul(step as i128) {
        None => Err(Memory),
        Some(cells) => Ok(cells),
    }
}

fn negative(number: i128) -> Result<i128, Memory>
    ensures { IfOk result (λ less. less ≡ neg_ℤ number) }
{
    match number.checked_neg() {
        None => Err(Memory),
        Some(less) => Ok(less),
    }
}

fn placed<'a>(length: u64, place: i128) -> Worth<'a>
    ensures { worth_told result ≡ spec.placed (int_le (pos 0) place && int_le place (pos length)) length place }
{
    if 0 <= place && place <= length as i128 {
        Worth::Is(Datum::InText(length, place))
    } else {
        Worth::Ends
    }
}

// A place in a text so many cells on.
fn stepped<'a>(datum: Datum<'a>, count: i128) -> Result<Worth<'a>, Memory>
    ensures { IfOk result (λ worth. worth_told worth ≡ spec.stepped (datum_told datum.entry) count) }
{
    match datum {
        Datum::InText(length, at) => match at.checked_add(count) {
            None => Err(Memory),
            Some(place) => Ok(placed(length, place)),
        },
        _ => Ok(Worth::Ends),
    }
}

fn step_forward<'a>(datum: Datum<'a>, count: i128, step: u64) -> Result<Worth<'a>, Memory>
    ensures { IfOk result (λ worth. worth_told worth ≡ spec.stepped (datum_told datum.entry) (count *ℤ pos step)) }
{
    let count = cells(count, step)?;
    stepped(datum, count)
}

fn step_back<'a>(datum: Datum<'a>, count: i128, step: u64) -> Result<Worth<'a>, Memory>
    ensures { IfOk result (λ worth. worth_told worth ≡ spec.stepped (datum_told datum.entry) (neg_ℤ (count *ℤ pos step))) }
{
    let count = cells(count, step)?;
    let back = negative(count)?;
    stepped(datum, back)
}

// An operator on two constants of these kinds, where a pointer's step is so many cells.
fn combine<'a>(
    operator: BinaryOperator,
    step: u64,
    j: Kind,
    k: Kind,
    a: Datum<'a>,
    b: Datum<'a>,
) -> Result<Worth<'a>, Memory>
    ensures { IfOk result (λ worth. worth_told worth ≡ spec.combined operator step j k (datum_told a.entry) (datum_told b.entry)) }
{
    match (operator, a, b) {
        (_, Datum::Figure(x), Datum::Figure(y)) => {
            let worth = combine_numbers(operator, j, k, x, y)?;
            Ok(of_number(worth))
        }
        (BinaryOperator::Add, _, Datum::Figure(count)) => step_forward(a, count, step),
        (BinaryOperator::Subtract, _, Datum::Figure(count)) => step_back(a, count, step),
        (BinaryOperator::Subtract, _, _) => Ok(Worth::Ends),
        (BinaryOperator::Equal, _, _) => Ok(truth(same_place(a, b))),
        (BinaryOperator::Unequal, _, _) => Ok(truth(!same_place(a, b))),
        _ => Ok(Worth::Untold),
    }
}

/// An operator on two values. The second of `&&` and `||` counts where the first leaves it open.
pub fn both<'a>(
    operator: BinaryOperator,
    step: u64,
    j: Kind,
    k: Kind,
    first: Worth<'a>,
    second: Worth<'a>,
) -> Result<Worth<'a>, Memory>
    ensures { IfOk result (λ worth. worth_told worth ≡ spec.both operator step j k (worth_told first.entry) (worth_told second.entry)) }
{
    let Worth::Is(a) = first else {
        return Ok(first);
    };
    match (operator, second) {
        (BinaryOperator::And, _) => Ok(if is_false(a) {
            truth(false)
        } else {
            truth_of(second)
        }),
        (BinaryOperator::Or, _) => Ok(if is_false(a) {
            truth_of(second)
        } else {
            truth(true)
        }),
        (_, Worth::Is(b)) => combine(operator, step, j, k, a, b),
        (_, other) => Ok(other),
    }
}

// What an operator gives of a number, in the kind of its result.
fn negated<'a>(kind: Kind, number: i128) -> Result<Worth<'a>, Memory>
    ensures { IfOk result (λ worth. worth_told worth ≡ spec.result kind (neg_ℤ (spec.wrap kind number))) }
{
    let less = negative(wrap(kind, number))?;
    Ok(of_number(result(kind, less)))
}

fn complement<'a>(kind: Kind, number: i128) -> Result<Worth<'a>, Memory>
    ensures { IfOk result (λ worth. worth_told worth ≡ spec.Is (spec.Figure (spec.wrap kind (neg_ℤ number +ℤ negsuc 0)))) }
{
    let less = negative(number)?;
    match less.checked_add(-1) {
        None => Err(Memory),
        Some(number) => Ok(Worth::Is(Datum::Figure(wrap(kind, number)))),
    }
}

fn prefix_worth<'a>(prefix: &Prefix, kind: Kind, datum: Datum<'a>) -> Result<Worth<'a>, Memory>
    ensures { IfOk result (λ worth. worth_told worth ≡ checks.prefix_worth prefix.now kind (datum_told datum.entry)) }
{
    match (prefix, datum) {
        (Prefix::Plus, Datum::Figure(number)) => Ok(of_number(result(kind, number))),
        (Prefix::Minus, Datum::Figure(number)) => negated(kind, number),
        (Prefix::Complement, Datum::Figure(number)) => complement(kind, number),
        (Prefix::Not, _) => Ok(truth(is_false(datum))),
        (Prefix::Cast(_), _) => Ok(Worth::Is(converted(kind, datum))),
        _ => Ok(Worth::Untold),
    }
}

/// What an operator gives of what a value comes to, in the kind of its result.
pub fn prefix_told<'a>(
    prefix: &Prefix,
    kind: Option<Kind>,
    worth: Worth<'a>,
) -> Result<Worth<'a>, Memory>
    ensures { IfOk result (λ after. worth_told after ≡ checks.told_prefix prefix.now kind (worth_told worth.entry)) }
{
    match (kind, worth) {
        (Some(kind), Worth::Is(datum)) => prefix_worth(prefix, kind, datum),
        (_, Worth::Ends) => Ok(Worth::Ends),
        _ => Ok(Worth::Untold),
    }
}
