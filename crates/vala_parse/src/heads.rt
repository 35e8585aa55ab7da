// Which words may stand in front of a declaration.

ghost use Rattle.std.specs.Prelude.{◌≡◌, ◌<◌, IfOk, OnSome};
ghost use Rattle.predictive_grammar.specs.Steps.{LeftOut};
ghost use Rattle.vala_cursor.specs.Ahead.{rest, stop};
ghost use Rattle.vala_cursor.specs.Gets.{Gives, fault_of, seen_option};
ghost use Rattle.vala_grammar.specs.Tests.{is};
ghost use Rattle.vala_file_grammar.specs.Heads as spec;
ghost use Rattle.vala_parse.specs.Heads.{told};
ghost use Rattle.vala_parse.specs.Steps.{next, plain_kind};
ghost use Rattle.vala_parse.specs.Views.{head_in};

use crate::next::{expect, is_next};
use static_rules::Rule;
use vala_cursor::{Cursor, Flaw, Stop, is_one_of, same_sort};
use vala_grammar::Sort;
use vala_lexer::Token;
use vala_tree::{Modifier, ModifierWord};
use vg_base::Span;

/// Whose words they are: what is told by the first token behind them, or by the token behind a name.
#[derive(Clone, Copy)]
pub enum HeadKind {
    Class,
    Field,
    Method,
    Property,
    Signal,
    Construct,
    Creation,
    Another,
}

fn is_access(word: ModifierWord) -> bool
    ensures { result ≡ spec.is_access word }
{
    matches!(
        word,
        ModifierWord::Public
            | ModifierWord::Protected
            | ModifierWord::Internal
            | ModifierWord::Private
    )
}

fn is_overriding(word: ModifierWord) -> bool
    ensures { result ≡ spec.is_overriding word }
{
    matches!(
        word,
        ModifierWord::Abstract | ModifierWord::Virtual | ModifierWord::Override
    )
}

/// Whether a declaration of the kind takes the word, which is no access word.
fn takes(kind: HeadKind, word: ModifierWord) -> bool
    ensures { result ≡ spec.takes (head_in kind) word }
{
    match kind {
        HeadKind::Class => matches!(word, ModifierWord::Abstract),
        HeadKind::Field => matches!(word, ModifierWord::Static),
        HeadKind::Method => true,
        HeadKind::Property => is_overriding(word),
        HeadKind::Signal => matches!(word, ModifierWord::Virtual),
        HeadKind::Construct | HeadKind::Creation | HeadKind::Another => false,
    }
}

/// The first word that a declaration of the kind does not take.
fn first_wrong(kind: HeadKind, words: &[Modifier]) -> Option<Modifier>
    ensures { result ≡ spec.first_wrong (head_in kind) words.now }
{
    match words {
        [] => None,
        [first, others @ ..] => {
            if is_access(first.word) || takes(kind, first.word) {
                first_wrong(kind, others)
            } else {
                Some(*first)
            }
        }
    }
}

fn rule_of_word(kind: HeadKind, word: ModifierWord) -> Rule
    ensures { result ≡ spec.rule_of_word (head_in kind) word }
{
    match kind {
        HeadKind::Construct if matches!(word, ModifierWord::Static) => Rule::U1,
        HeadKind::Creation if matches!(word, ModifierWord::Async) => Rule::U1,
        _ => Rule::S1,
    }
}

fn wrong_word(kind: HeadKind, word: Modifier) -> Flaw
    ensures { fault_of result ≡ LeftOut (spec.wrong_word (head_in kind) word) }
{
    Flaw::Earlier(rule_of_word(kind, word.word), word.span)
}

/// Takes a token of the sort, where one is next. It tells of what kind the declaration is, which then must take the words in front.
#[tactic(auto, unfolding(crate::specs::Heads::told))]
pub fn told<'t>(
    cursor: &mut Cursor<'t>,
    level: u32,
    kind: HeadKind,
    words: &[Modifier],
    sort: Sort,
) -> Result<Option<Token<'t>>, Stop>
    ensures token { Gives seen_option (told (head_in kind) words.now sort level (rest cursor.old)) result (rest cursor.new) }
    ensures kept { stop cursor.new ≡ stop cursor.old }
    ensures low { IfOk result (λ o. OnSome o (level < 201)) }
{
    if !is_next(cursor, sort) {
        return Ok(None);
    }
    if let Some(word) = first_wrong(kind, words) {
        return Err(Stop::Flawed(wrong_word(kind, word)));
    }
    Ok(Some(expect(cursor, sort, level)?))
}

/// Whether a token of the sort is a word that may stand in front of a declaration.
pub fn is_modifier(sort: Sort) -> bool
    ensures { result ≡ spec.is_modifier (plain_kind sort) }
{
    is_one_of(
        &[
            Sort::Public,
            Sort::Protected,
            Sort::Internal,
            Sort::Private,
            Sort::Static,
            Sort::Abstract,
            Sort::Virtual,
            Sort::Override,
            Sort::Async,
            Sort::Inline,
        ],
        sort,
    )
}

/// Whether the next token is a word that may stand in front of a declaration.
#[tactic(auto, using(crate::proofs::KindTests::modifier_by_sort))]
pub fn is_modifier_next(cursor: &Cursor<'_>) -> bool
    ensures { result ≡ next spec.is_modifier (rest cursor.now) }
{
    match cursor.sort() {
        Some(sort) => is_modifier(sort),
        None => false,
    }
}

fn is_access_word(sort: Sort) -> bool
    ensures { result ≡ spec.is_access_word (plain_kind sort) }
{
    is_one_of(
        &[Sort::Public, Sort::Protected, Sort::Internal, Sort::Private],
        sort,
    )
}

fn is_overriding_word(sort: Sort) -> bool
    ensures { result ≡ spec.is_overriding_word (plain_kind sort) }
{
    is_one_of(&[Sort::Abstract, Sort::Virtual, Sort::Override], sort)
}

fn is_field_word(sort: Sort) -> bool
    ensures { result ≡ spec.is_field_word (plain_kind sort) }
{
    is_one_of(
        &[
            Sort::Public,
            Sort::Protected,
            Sort::Internal,
            Sort::Private,
            Sort::Static,
        ],
        sort,
    )
}

fn sort_of_word(word: ModifierWord) -> Sort
    ensures { result ≡ spec.sort_of_word word }
{
    match word {
        ModifierWord::Public => Sort::Public,
        ModifierWord::Protected => Sort::Protected,
        ModifierWord::Internal => Sort::Internal,
        ModifierWord::Private => Sort::Private,
        ModifierWord::Static => Sort::Static,
        ModifierWord::Abstract => Sort::Abstract,
        ModifierWord::Virtual => Sort::Virtual,
        ModifierWord::Override => Sort::Override,
        ModifierWord::Async => Sort::Async,
        ModifierWord::Inline => Sort::Inline,
    }
}

fn has_sort(words: &[Modifier], sort: Sort) -> bool
    ensures { result ≡ spec.any_word (λ v. is (spec.sort_of_word v) sort) words.now }
{
    match words {
        [] => false,
        [first, others @ ..] => {
            same_sort(sort, sort_of_word(first.word)) || has_sort(others, sort)
        }
    }
}

fn has_access(words: &[Modifier]) -> bool
    ensures { result ≡ spec.any_word spec.is_access words.now }
{
    match words {
        [] => false,
        [first, others @ ..] => is_access(first.word) || has_access(others),
    }
}

fn has_overriding(words: &[Modifier]) -> bool
    ensures { result ≡ spec.any_word spec.is_overriding words.now }
{
    match words {
        [] => false,
        [first, others @ ..] => is_overriding(first.word) || has_overriding(others),
    }
}

fn is_async(word: ModifierWord) -> bool
    ensures { result ≡ spec.is_async_word word }
{
    matches!(word, ModifierWord::Async)
}

fn has_async(words: &[Modifier]) -> bool
    ensures { result ≡ spec.any_word spec.is_async_word words.now }
{
    match words {
        [] => false,
        [first, others @ ..] => is_async(first.word) || has_async(others),
    }
}

/// Where `async` stands among the words.
pub fn async_in(words: &[Modifier]) -> Option<Span>
    ensures { result ≡ spec.async_in words.now }
{
    match words {
        [] => None,
        [first, others @ ..] => {
            if is_async(first.word) {
                Some(first.span)
            } else {
                async_in(others)
            }
        }
    }
}

fn repeats(words: &[Modifier], sort: Sort) -> bool
    ensures { result ≡ spec.repeats words.now (plain_kind sort) }
{
    has_sort(words, sort) || (is_access_word(sort) && has_access(words))
}

fn sort_clashes(words: &[Modifier], sort: Sort) -> bool
    ensures { result ≡ spec.clashes words.now (plain_kind sort) }
{
    (same_sort(sort, Sort::Async) && has_overriding(words))
        || (is_overriding_word(sort) && has_async(words))
}

fn sort_may_follow(words: &[Modifier], sort: Sort) -> bool
    ensures { result ≡ spec.may_follow words.now (plain_kind sort) }
{
    is_modifier(sort) && !(repeats(words, sort) || sort_clashes(words, sort))
}

fn sort_may_follow_in_struct(words: &[Modifier], sort: Sort) -> bool
    ensures { result ≡ spec.may_follow_in_struct words.now (plain_kind sort) }
{
    is_field_word(sort) && !repeats(words, sort)
}

/// Whether the next token is a word that may follow these.
#[tactic(auto, using(crate::proofs::KindTests::follow_by_sort))]
pub fn may_follow(cursor: &Cursor<'_>, words: &[Modifier]) -> bool
    ensures { result ≡ next (spec.may_follow words.now) (rest cursor.now) }
{
    match cursor.sort() {
        Some(sort) => sort_may_follow(words, sort),
        None => false,
    }
}

/// The same in front of a struct's field.
#[tactic(auto, using(crate::proofs::KindTests::field_word_by_sort))]
pub fn may_follow_in_struct(cursor: &Cursor<'_>, words: &[Modifier]) -> bool
    ensures { result ≡ next (spec.may_follow_in_struct words.now) (rest cursor.now) }
{
    match cursor.sort() {
        Some(sort) => sort_may_follow_in_struct(words, sort),
        None => false,
    }
}

/// Whether the next token is a word that is left out together with one of these.
#[tactic(auto, using(crate::proofs::KindTests::clash_by_sort))]
pub fn clashes(cursor: &Cursor<'_>, words: &[Modifier]) -> bool
    ensures { result ≡ next (spec.clashes words.now) (rest cursor.now) }
{
    match cursor.sort() {
        Some(sort) => sort_clashes(words, sort),
        None => false,
    }
}

/// What is then wrong: `async`, which is the next token or one of these.
pub fn clash(words: &[Modifier]) -> Flaw
    ensures { fault_of result ≡ LeftOut (spec.clash words.now) }
{
    match async_in(words) {
        None => Flaw::LeftOut,
        Some(span) => Flaw::Earlier(Rule::U1, span),
    }
}
