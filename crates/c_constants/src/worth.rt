// What values come to as constants.

ghost use Rattle.std.specs.Prelude.{◌≡◌, not};
ghost use Rattle.c_tree.specs.Constants as spec;
ghost use Rattle.c_tree.specs.Checks.{in_kind, chosen_worth};
ghost use Rattle.c_constants.specs.Told.{datum_told, number_told, worth_told};

use crate::numbers::{NumberWorth, wrap};
use c_tree::{Kind, Operand};
use c_value_checker::is_integer;

/// A constant.
#[derive(Clone, Copy)]
pub enum Datum<'a> {
    Figure(i128),
    /// `NULL`
    NoPlace,
    /// A function, by its name.
    Code(&'a [u8]),
    /// A place in a text literal of so many cells.
    InText(u64, i128),
}

/// What a value comes to.
#[derive(Clone, Copy)]
pub enum Worth<'a> {
    Is(Datum<'a>),
    /// To compute it ends the run.
    Ends,
    /// Nothing that is told, where it is no constant or breaks a rule.
    Untold,
}

/// What an operator on numbers gives, as a value.
pub fn of_number<'a>(worth: NumberWorth) -> Worth<'a>
    ensures { worth_told result ≡ number_told worth }
{
    match worth {
        NumberWorth::Is(number) => Worth::Is(Datum::Figure(number)),
        NumberWorth::Ends => Worth::Ends,
        NumberWorth::Untold => Worth::Untold,
    }
}

/// What is false where a condition stands.
pub fn is_false(datum: Datum) -> bool
    ensures { result ≡ spec.is_false (datum_told datum.entry) }
{
    match datum {
        Datum::Figure(number) => number == 0,
        Datum::NoPlace => true,
        _ => false,
    }
}

/// The number of a truth.
pub fn truth<'a>(test: bool) -> Worth<'a>
    ensures { worth_told result ≡ spec.truth test }
{
    Worth::Is(Datum::Figure(if test { 1 } else { 0 }))
}

/// Whether a constant is true, where it is told.
pub fn truth_of<'a>(worth: Worth<'a>) -> Worth<'a>
    ensures { worth_told result ≡ spec.truth_of (worth_told worth.entry) }
{
    match worth {
        Worth::Is(datum) => truth(!is_false(datum)),
        other => other,
    }
}

/// A constant in another kind.
pub fn converted<'a>(kind: Kind, datum: Datum<'a>) -> Datum<'a>
    ensures { datum_told result ≡ spec.converted kind (datum_told datum.entry) }
{
    match datum {
        Datum::Figure(number) if is_integer(kind) => Datum::Figure(wrap(kind, number)),
        other => other,
    }
}

/// What a value comes to in the kind of the whole.
pub fn in_kind<'a>(operand: Option<Operand>, worth: Worth<'a>) -> Worth<'a>
    ensures { worth_told result ≡ in_kind operand (worth_told worth.entry) }
{
    match (operand, worth) {
        (Some(operand), Worth::Is(datum)) => Worth::Is(converted(operand.kind, datum)),
        (_, other) => other,
    }
}

/// The value that a condition chooses.
pub fn choose<'a>(test: Worth<'a>, yes: Worth<'a>, no: Worth<'a>) -> Worth<'a>
    ensures { worth_told result ≡ chosen_worth (worth_told test.entry) (worth_told yes.entry) (worth_told no.entry) }
{
    match test {
        Worth::Is(datum) => { if is_false(datum) { no } else { yes } }
        other => other,
    }
}
