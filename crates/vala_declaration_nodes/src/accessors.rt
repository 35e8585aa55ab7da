// The accessors of a property.

ghost use Rattle.std.specs.Prelude.{◌≡◌};
ghost use Rattle.vala_declaration_nodes.specs.Views.{ending_of};
ghost use Rattle.vala_file_grammar.specs.Trees as tree;
ghost use Rattle.vala_nodes.specs.Seen.{seen, seen_option};

use crate::fronts::modifier;
use crate::parameters::first_of_two;
use crate::parts::{Ending, unboxed};
use sqlite_items::Boxed;
use vala_lexer::Token;
use vala_nodes::names::join;
use vala_tree::{Accessor, Expr, Getter, Modifier, Setter, SetterWords};

fn as_modifier(word: Option<Token<'_>>) -> Option<Modifier>
    ensures { result ≡ tree.as_modifier (seen_option word.entry) }
{
    match word {
        None => None,
        Some(token) => Some(modifier(token)),
    }
}

/// `get` with the modifier and the `owned` in front of it.
pub fn getter(
    word: Option<Token<'_>>,
    owned: Option<Token<'_>>,
    token: Token<'_>,
    body: Ending,
) -> Accessor
    ensures { result ≡ tree.getter (seen_option word.entry) (seen_option owned.entry) (seen token.entry) (ending_of body) }
{
    let first = first_of_two(word, first_of_two(owned, token.span));
    let span = join(first, body.last);
    let getter = Getter {
        modifier: as_modifier(word),
        is_owned: owned.is_some(),
        word: token.span,
        body: unboxed(body.block),
    };
    Accessor::Get(getter, span)
}

/// `set`, `construct` or both, of which `token` is the first.
pub fn setter(
    word: Option<Token<'_>>,
    token: Token<'_>,
    words: SetterWords,
    body: Ending,
) -> Accessor
    ensures { result ≡ tree.setter (seen_option word.entry) (seen token.entry) words (ending_of body) }
{
    let span = join(first_of_two(word, token.span), body.last);
    let setter = Setter {
        modifier: as_modifier(word),
        words,
        body: unboxed(body.block),
    };
    Accessor::Set(setter, span)
}

pub fn default_value(token: Token<'_>, value: Boxed<Expr>, close: Token<'_>) -> Accessor
    ensures { result ≡ tree.default_value (seen token.entry) value (seen close.entry) }
{
    Accessor::Default(token.span, value.into_inner(), join(token.span, close.span))
}
