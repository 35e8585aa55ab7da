// Where declarations stand.

ghost use Rattle.std.specs.Prelude.{◌≡◌};
ghost use Rattle.vala_cursor.specs.Ahead.{rest};
ghost use Rattle.vala_file_grammar.specs.Grammar.{is_left_out, begins_member, begins_nested, begins_type};
ghost use Rattle.vala_file_grammar.specs.Parts.{Outside};
ghost use Rattle.vala_parse.specs.Steps.{next, plain_kind};
ghost use Rattle.vala_parse.specs.Views.{place_in};

use crate::heads::is_modifier;
use vala_cursor::{Cursor, is_one_of, same_sort};
use vala_grammar::Sort;

/// At the top of a file or in a namespace; or in a class, or an interface, whose name ends with the word.
#[derive(Clone, Copy)]
pub enum Place<'w> {
    Outside,
    Inside(bool, &'w [u8]),
}

/// Whose parameters they are: those of a method, a creation method or a delegate; of an async method; of a signal.
#[derive(Clone, Copy)]
pub enum Owner {
    Plain,
    Async,
    Signal,
}

/// Whose body it is.
#[derive(Clone, Copy)]
pub enum Bodied {
    Method,
    InterfaceMethod,
    Accessing,
}

/// Whether the next token begins a left-out declaration.
#[tactic(auto, using(crate::proofs::KindTests::outside_by_sort, crate::proofs::KindTests::inside_by_sort))]
pub fn is_left_out(cursor: &Cursor<'_>, place: Place<'_>) -> bool
    ensures { result ≡ next (is_left_out (place_in place.entry)) (rest cursor.now) }
{
    match cursor.sort() {
        Some(sort) => match place {
            Place::Outside => same_sort(sort, Sort::New),
            Place::Inside(..) => same_sort(sort, Sort::New) || begins_nested(sort),
        },
        None => false,
    }
}

/// Whether the next token begins a declaration at the top of a file.
#[tactic(auto, using(crate::proofs::KindTests::member_by_sort))]
pub fn begins_member(cursor: &Cursor<'_>) -> bool
    ensures { result ≡ next (begins_member Outside) (rest cursor.now) }
{
    match cursor.sort() {
        Some(sort) => sort_begins_member(sort),
        None => false,
    }
}

fn sort_begins_member(sort: Sort) -> bool
    ensures { result ≡ begins_member Outside (plain_kind sort) }
{
    same_sort(sort, Sort::OpenBracket)
        || (is_modifier(sort)
            || (begins_nested(sort) || (same_sort(sort, Sort::Const) || begins_type(sort))))
}

fn begins_nested(sort: Sort) -> bool
    ensures { result ≡ begins_nested (plain_kind sort) }
{
    is_one_of(
        &[
            Sort::Namespace,
            Sort::Class,
            Sort::Interface,
            Sort::Struct,
            Sort::Enum,
            Sort::Errordomain,
            Sort::Delegate,
        ],
        sort,
    )
}

fn begins_type(sort: Sort) -> bool
    ensures { result ≡ begins_type (plain_kind sort) }
{
    is_one_of(
        &[Sort::Owned, Sort::Unowned, Sort::Void, Sort::Identifier],
        sort,
    )
}
