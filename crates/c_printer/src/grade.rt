// Where values need brackets.

ghost use Rattle.std.specs.Prelude.{◌≡◌};
ghost use Rattle.c_printer.specs.Grades as spec;

use c_tree::Level;

/// What a value is outside of all brackets.
#[derive(Clone, Copy)]
pub enum Grade {
    /// `a ? b : c`
    Choosing,
    Chaining(Level),
    /// Whether the first operator is `!`.
    Prefixing(bool),
    Suffixing,
    Single,
}

/// Where a value is written.
#[derive(Clone, Copy)]
pub enum Place {
    Anywhere,
    /// In front of `?`, and behind the last `:`.
    Chosen,
    Operand(Level),
    BehindPrefix,
    BeforeSuffix,
}

fn rank(level: Level) -> u8
    ensures { result ≡ spec.rank level }
{
    match level {
        Level::Or => 1,
        Level::And => 2,
        Level::BitOr => 3,
        Level::BitXor => 4,
        Level::BitAnd => 5,
        Level::Equality => 6,
        Level::Relation => 7,
        Level::Shift => 8,
        Level::Sum => 9,
        Level::Product => 10,
    }
}

fn grade_rank(grade: Grade) -> u8
    ensures { result ≡ spec.grade_rank grade }
{
    match grade {
        Grade::Choosing => 0,
        Grade::Chaining(level) => rank(level),
        Grade::Prefixing(_) => 11,
        Grade::Suffixing => 12,
        Grade::Single => 13,
    }
}

// What binds less tightly needs brackets there.
fn binds(place: Place, grade: Grade) -> bool
    ensures { result ≡ spec.binds place grade }
{
    match place {
        Place::Anywhere => true,
        Place::Chosen => 1 <= grade_rank(grade),
        Place::Operand(level) => rank(level) < grade_rank(grade),
        Place::BehindPrefix => 12 <= grade_rank(grade),
        Place::BeforeSuffix => 13 <= grade_rank(grade),
    }
}

fn is_sum_or_comparison(level: Level) -> bool
    ensures { result ≡ spec.is_sum_or_comparison level }
{
    matches!(level, Level::Equality | Level::Relation | Level::Sum)
}

fn is_unclear_chain(outer: Level, inner: Level) -> bool
    ensures { result ≡ spec.is_unclear_chain outer inner }
{
    match outer {
        Level::Or => matches!(inner, Level::And),
        Level::BitOr => {
            is_sum_or_comparison(inner) || matches!(inner, Level::BitXor | Level::BitAnd)
        }
        Level::BitXor => is_sum_or_comparison(inner) || matches!(inner, Level::BitAnd),
        Level::BitAnd => is_sum_or_comparison(inner),
        Level::Equality => matches!(inner, Level::Relation),
        Level::Shift => matches!(inner, Level::Sum),
        _ => false,
    }
}

fn is_unclear_not(outer: Level) -> bool
    ensures { result ≡ spec.is_unclear_not outer }
{
    matches!(outer, Level::BitAnd | Level::Equality | Level::Relation)
}

// A C compiler asks for brackets there that the grammar does not need.
fn is_unclear(place: Place, grade: Grade) -> bool
    ensures { result ≡ spec.is_unclear place grade }
{
    match (place, grade) {
        (Place::Operand(outer), Grade::Chaining(inner)) => is_unclear_chain(outer, inner),
        (Place::Operand(outer), Grade::Prefixing(is_not)) => is_not && is_unclear_not(outer),
        _ => false,
    }
}

/// Which brackets are written.
#[derive(Clone, Copy)]
pub enum Brackets {
    /// Those that the grammar needs, and those that a C compiler asks for.
    Clear,
    /// Those that the grammar needs.
    Needed,
}

/// Whether a value stands at a place without brackets.
pub fn stands(brackets: Brackets, place: Place, grade: Grade) -> bool
    ensures { result ≡ spec.stands brackets place grade }
{
    match brackets {
        Brackets::Clear => binds(place, grade) && !is_unclear(place, grade),
        Brackets::Needed => binds(place, grade),
    }
}
