// What stands in front of a declaration, and the member with it.

ghost use Rattle.std.specs.Prelude.{◌≡◌, IfOk};
ghost use Rattle.vala_declaration_nodes.specs.Views.{declared_of};
ghost use Rattle.vala_file_grammar.specs.Trees as tree;
ghost use Rattle.vala_nodes.specs.Seen.{seen};

use crate::parts::Declared;
use sqlite_items::Items;
use std::alloc::{AllocError, Global};
use text_values::text_value;
use vala_lexer::{Token, TokenKind};
use vala_nodes::names::{identifier, join};
use vala_tree::{Attribute, AttributeArgument, Member, Modifier, ModifierWord, Text};
use vg_base::Span;

pub fn attribute_argument(
    alloc: Global,
    name: Token<'_>,
    text: Token<'_>,
) -> Result<AttributeArgument, AllocError>
    ensures { IfOk result (λ x. x ≡ tree.attribute_argument (seen name.entry) (seen text.entry)) }
{
    Ok(AttributeArgument {
        name: identifier(alloc, name)?,
        value: Text {
            bytes: text_value(alloc, text.text)?,
            span: text.span,
        },
    })
}

pub fn attribute(
    opening: Token<'_>,
    arguments: Items<AttributeArgument>,
    close: Token<'_>,
) -> Attribute
    ensures { result ≡ tree.attribute (seen opening.entry) arguments (seen close.entry) }
{
    Attribute {
        arguments,
        span: join(opening.span, close.span),
    }
}

fn modifier_word(kind: TokenKind) -> ModifierWord
    ensures { result ≡ tree.modifier_word kind }
{
    match kind {
        TokenKind::Public => ModifierWord::Public,
        TokenKind::Protected => ModifierWord::Protected,
        TokenKind::Internal => ModifierWord::Internal,
        TokenKind::Private => ModifierWord::Private,
        TokenKind::Static => ModifierWord::Static,
        TokenKind::Abstract => ModifierWord::Abstract,
        TokenKind::Virtual => ModifierWord::Virtual,
        TokenKind::Override => ModifierWord::Override,
        TokenKind::Async => ModifierWord::Async,
        _ => ModifierWord::Inline,
    }
}

pub fn modifier(token: Token<'_>) -> Modifier
    ensures { result ≡ tree.modifier (seen token.entry) }
{
    Modifier {
        word: modifier_word(token.kind),
        span: token.span,
    }
}

/// Where a declaration begins: at its first attribute, else at its first modifier, else at its first token.
fn beginning(attributes: &[Attribute], modifiers: &[Modifier], first: Span) -> Span
    ensures { result ≡ tree.beginning attributes.now modifiers.now first }
{
    match attributes {
        [attribute, ..] => attribute.span,
        [] => match modifiers {
            [modifier, ..] => modifier.span,
            [] => first,
        },
    }
}

/// A declaration with what stands in front of it.
pub fn member(
    attributes: Items<Attribute>,
    modifiers: Items<Modifier>,
    declared: Declared,
) -> Member
    ensures { result ≡ tree.member attributes modifiers (declared_of declared) }
{
    let begin = beginning(attributes.as_slice(), modifiers.as_slice(), declared.span);
    Member {
        attributes,
        modifiers,
        declaration: declared.declaration,
        span: join(begin, declared.span),
    }
}
