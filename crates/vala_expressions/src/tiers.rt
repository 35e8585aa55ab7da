// The operators of each tier.

ghost use Rattle.std.specs.Prelude.{◌≡◌, ◌<◌, false, true, IsOk, IfSome};
ghost use Rattle.vala_grammar.specs.Tests.{begins_expression, begins_prefix, binds, goes_on, is, is_asked, is_plain, is_prefix, opens_choice, tighter};
ghost use Rattle.vala_grammar.specs.declared.sort.Sort.TheVariants as s;
ghost use Rattle.vala_cursor.specs.Ahead.{rest, stop};
ghost use Rattle.vala_expressions.specs.Chains.{further, is_alone, links, looseness, tests_type};
ghost use Rattle.vala_cursor.specs.Gets.{Gives, got, next, seen};

use vala_cursor::{Cursor, Flaw, Stop, is_one_of, same_sort};
use vala_grammar::{Context, Last, Signs, Sort, Tier};
use vala_lexer::Token;

/// The next tighter tier.
pub fn tighter_than(tier: Tier) -> Option<Tier>
    ensures next { result ≡ tighter tier }
    ensures falls { IfSome result (λ t. looseness t < looseness tier) }
{
    match tier {
        Tier::Product => None,
        Tier::Sum => Some(Tier::Product),
        Tier::Shift => Some(Tier::Sum),
        Tier::Relation => Some(Tier::Shift),
        Tier::Equality => Some(Tier::Relation),
        Tier::BitAnd => Some(Tier::Equality),
        Tier::BitXor => Some(Tier::BitAnd),
        Tier::BitOr => Some(Tier::BitXor),
        Tier::And => Some(Tier::BitOr),
        Tier::Or => Some(Tier::And),
    }
}

/// Whether the sort is an operator of the tier, other than `is` and `as`.
fn is_of_tier(tier: Tier, sort: Sort) -> bool
    ensures { result ≡ binds tier sort }
{
    match tier {
        Tier::Product => is_one_of(&[Sort::Star, Sort::Slash, Sort::Percent], sort),
        Tier::Sum => is_one_of(&[Sort::Plus, Sort::Minus], sort),
        Tier::Shift => same_sort(sort, Sort::Shift),
        Tier::Relation => is_one_of(&[Sort::Less, Sort::Relation], sort),
        Tier::Equality => same_sort(sort, Sort::Equality),
        Tier::BitAnd => same_sort(sort, Sort::Ampersand),
        Tier::BitXor => same_sort(sort, Sort::Caret),
        Tier::BitOr => same_sort(sort, Sort::Bar),
        Tier::And => same_sort(sort, Sort::AndAnd),
        Tier::Or => same_sort(sort, Sort::OrOr),
    }
}

/// Whether the chain ends with a choice that only waits for `:`.
pub fn ends_asked(last: &Last) -> bool
    ensures { result ≡ is_asked last.now }
{
    match last {
        Last::Asked(_) => true,
        _ => false,
    }
}

/// Whether a chain that ends so can be called.
fn ends_plain(last: &Last) -> bool
    ensures { result ≡ is_plain last.now }
{
    match last {
        Last::Plain => true,
        _ => false,
    }
}

/// Whether a chain that ends so is names with nothing behind them.
pub fn ends_alone(last: &Last) -> bool
    ensures { result ≡ is_alone last.now }
{
    match last {
        Last::Alone => true,
        _ => false,
    }
}

/// Whether an operator of the tier goes on with a chain that ends so.
fn binds_behind(tier: Tier, last: &Last, sort: Sort) -> bool
    ensures { result ≡ goes_on tier last.now sort }
{
    match last {
        Last::Integer => is_of_tier(tier, sort) && !same_sort(sort, Sort::Minus),
        _ => is_of_tier(tier, sort),
    }
}

/// Whether the sort is `is` or `as`, where these may stand.
fn is_type_test(tier: Tier, sort: Sort) -> bool
    ensures { result ≡ tests_type tier sort }
{
    match tier {
        Tier::Relation => same_sort(sort, Sort::TypeTest),
        _ => false,
    }
}

/// Whether `is` or `as` comes next, where these may stand.
pub fn type_test_next(cursor: &Cursor<'_>, tier: Tier) -> bool
    ensures { result ≡ next (tests_type tier) (rest cursor.now) }
{
    match cursor.sort() {
        Some(sort) => is_type_test(tier, sort),
        None => false,
    }
}

fn operator_next(cursor: &Cursor<'_>, tier: Tier, last: &Last) -> bool
    ensures { result ≡ next (goes_on tier last.now) (rest cursor.now) }
{
    match cursor.sort() {
        Some(sort) => binds_behind(tier, last, sort),
        None => false,
    }
}

fn continues(tier: Tier, last: &Last, sort: Sort) -> bool
    ensures { result ≡ further tier last.now sort }
{
    if ends_asked(last) {
        return false;
    }
    if is_type_test(tier, sort) {
        return true;
    }
    binds_behind(tier, last, sort)
}

/// Whether the next token goes on with a chain of the tier.
pub fn goes_further(cursor: &Cursor<'_>, tier: Tier, last: &Last) -> bool
    ensures { result ≡ next (further tier last.now) (rest cursor.now) }
{
    match cursor.sort() {
        Some(sort) => continues(tier, last, sort),
        None => false,
    }
}

/// Takes an operator of the tier.
#[tactic(auto, unfolding(vala_cursor::specs::Gets::got))]
pub fn operator<'t>(
    cursor: &mut Cursor<'t>,
    level: u32,
    tier: Tier,
    last: &Last,
) -> Result<Token<'t>, Stop>
    ensures token { Gives seen (got (goes_on tier last.now) 0 level (rest cursor.old)) result (rest cursor.new) }
    ensures kept { stop cursor.new ≡ stop cursor.old }
    ensures low { IsOk result → level < 201 }
{
    if operator_next(cursor, tier, last) {
        cursor.shift(0, level)
    } else {
        Err(Stop::Flawed(Flaw::Syntax))
    }
}

fn is_link(last: &Last, sort: Sort) -> bool
    ensures { result ≡ links last.now sort }
{
    is_one_of(&[Sort::Dot, Sort::OpenBracket, Sort::Step], sort)
        || ends_plain(last) && same_sort(sort, Sort::OpenParen)
}

/// Whether the next token goes on with an operand that ends so.
pub fn link_next(cursor: &Cursor<'_>, last: &Last) -> bool
    ensures { result ≡ next (links last.now) (rest cursor.now) }
{
    match cursor.sort() {
        Some(sort) => is_link(last, sort),
        None => false,
    }
}

fn is_sign(signs: Signs, sort: Sort) -> bool
    ensures { result ≡ is_prefix signs sort }
{
    match signs {
        Signs::All => is_one_of(
            &[Sort::Plus, Sort::Minus, Sort::Not, Sort::Tilde, Sort::Step],
            sort,
        ),
        Signs::Cast => is_one_of(&[Sort::Not, Sort::Tilde], sort),
        Signs::IntegerCast => is_one_of(&[Sort::Minus, Sort::Not, Sort::Tilde], sort),
    }
}

/// Whether the next token is one of the signs.
pub fn sign_next(cursor: &Cursor<'_>, signs: Signs) -> bool
    ensures { result ≡ next (is_prefix signs) (rest cursor.now) }
{
    match cursor.sort() {
        Some(sort) => is_sign(signs, sort),
        None => false,
    }
}

/// Takes one of the signs.
#[tactic(auto, unfolding(vala_cursor::specs::Gets::got))]
pub fn sign<'t>(cursor: &mut Cursor<'t>, level: u32, signs: Signs) -> Result<Token<'t>, Stop>
    ensures token { Gives seen (got (is_prefix signs) 0 level (rest cursor.old)) result (rest cursor.new) }
    ensures kept { stop cursor.new ≡ stop cursor.old }
    ensures low { IsOk result → level < 201 }
{
    if sign_next(cursor, signs) {
        cursor.shift(0, level)
    } else {
        Err(Stop::Flawed(Flaw::Syntax))
    }
}

fn begins(signs: Signs, sort: Sort) -> bool
    ensures { result ≡ begins_prefix signs sort }
{
    is_sign(signs, sort)
        || is_one_of(
            &[Sort::Literal, Sort::Text, Sort::This, Sort::Base, Sort::New],
            sort,
        )
        || is_one_of(&[Sort::Identifier, Sort::Yield, Sort::OpenParen], sort)
}

/// Whether the next token begins an operand with one of the signs, or with none.
#[tactic(auto, using(crate::proofs::ChainLaws::no_slash))]
pub fn operand_next(cursor: &Cursor<'_>, signs: Signs) -> bool
    ensures operand { result ≡ next (begins_prefix signs) (rest cursor.now) }
    ensures no_slash { result ≡ true → next (is s.Slash) (rest cursor.now) ≡ false }
{
    match cursor.sort() {
        Some(sort) => begins(signs, sort),
        None => false,
    }
}

fn opens(context: Context, sort: Sort) -> bool
    ensures { result ≡ opens_choice context sort }
{
    match context {
        Context::Statement => begins(Signs::All, sort) && !same_sort(sort, Sort::Identifier),
        Context::Bracket => begins(Signs::All, sort),
    }
}

/// Whether `?` behind names begins a choice there.
#[tactic(auto, using(crate::proofs::BracketLaws::opens_no_slash))]
pub fn choice_next(cursor: &Cursor<'_>, context: Context) -> bool
    ensures choice { result ≡ next (opens_choice context) (rest cursor.now) }
    ensures no_slash { result ≡ true → next (is s.Slash) (rest cursor.now) ≡ false }
{
    match cursor.sort() {
        Some(sort) => opens(context, sort),
        None => false,
    }
}
