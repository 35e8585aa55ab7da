// The type that is written.

ghost use Rattle.std.specs.Prelude.{◌≡◌, slice_get};
ghost use Rattle.std.specs.Option.{option_copied};
ghost use Rattle.symbols.specs.Search as search;
ghost use Rattle.symbols.specs.Types as spec;

use crate::kinds::SymbolKind;
use crate::table::{Names, Symbol};
use sqlite_items::at;
use static_rules::{Refusal, Rule};
use vala_tree::{Element, Identifier, NameTree, Ownership, TypeShape, TypeTree};
use vala_types::{IntKind, Item, ItemShape, Shape, VType};
use vg_base::Span;

/// The types among the built-in names, by their rows.
const BUILT_IN_SHAPES: [Option<Shape>; 29] = [
    None,
    Some(Shape::Bool),
    Some(Shape::Text),
    Some(Shape::Int(IntKind::Int8)),
    Some(Shape::Int(IntKind::Char)),
    Some(Shape::Int(IntKind::Uint8)),
    Some(Shape::Int(IntKind::Uint8)),
    Some(Shape::Int(IntKind::Int16)),
    Some(Shape::Int(IntKind::Int16)),
    Some(Shape::Int(IntKind::Uint16)),
    Some(Shape::Int(IntKind::Uint16)),
    Some(Shape::Int(IntKind::Int32)),
    Some(Shape::Int(IntKind::Int32)),
    Some(Shape::Int(IntKind::Uint32)),
    Some(Shape::Int(IntKind::Uint32)),
    Some(Shape::Int(IntKind::Long)),
    Some(Shape::Int(IntKind::Long)),
    Some(Shape::Int(IntKind::Ulong)),
    Some(Shape::Int(IntKind::Ulong)),
    Some(Shape::Int(IntKind::Int64)),
    Some(Shape::Int(IntKind::Uint64)),
    None,
    Some(Shape::Class(22)),
    Some(Shape::ParamSpec),
    Some(Shape::Error(None)),
    Some(Shape::AsyncResult),
    Some(Shape::Delegate(26)),
    Some(Shape::Delegate(27)),
    Some(Shape::Class(28)),
];

fn refused(rule: Rule, span: Span) -> Refusal
    ensures { result ≡ spec.refused rule span }
{
    Refusal {
        rule,
        phase: 4,
        span,
    }
}

fn built_in_shape(row: u32) -> Option<Shape>
    ensures { result ≡ spec.built_in_shape row }
{
    match at(BUILT_IN_SHAPES.as_slice(), row as usize) {
        Some(found) => *found,
        None => None,
    }
}

impl Symbol {
    /// The type that it is, if it is one.
    fn shape(&self, number: u32) -> Option<Shape>
        ensures { result ≡ spec.shape_of number self.now }
    {
        match self.kind {
            SymbolKind::Class => Some(Shape::Class(number)),
            SymbolKind::Interface => Some(Shape::Interface(number)),
            SymbolKind::Struct => Some(Shape::Struct(number)),
            SymbolKind::Enum => Some(Shape::Enum(number)),
            SymbolKind::ErrorDomain => Some(Shape::Error(Some(number))),
            SymbolKind::Delegate => Some(Shape::Delegate(number)),
            SymbolKind::BuiltIn(row) => built_in_shape(row),
            _ => None,
        }
    }

    /// The scope that it opens or, where it opens none, the scope in which it stands.
    fn inner_scope(&self) -> u32
        ensures { result ≡ search.scope_of self.now }
    {
        match self.opened {
            Some(scope) => scope,
            None => self.scope,
        }
    }
}

fn is_value(shape: Shape) -> bool
    ensures { result ≡ spec.is_value shape }
{
    matches!(
        shape,
        Shape::Bool | Shape::Int(_) | Shape::Enum(_) | Shape::Struct(_)
    )
}

fn item_of(shape: Shape) -> Option<ItemShape>
    ensures { result ≡ spec.item_of shape }
{
    match shape {
        Shape::Bool => Some(ItemShape::Bool),
        Shape::Int(kind) => Some(ItemShape::Int(kind)),
        Shape::Text => Some(ItemShape::Text),
        Shape::Enum(number) => Some(ItemShape::Enum(number)),
        Shape::Struct(number) => Some(ItemShape::Struct(number)),
        Shape::Class(number) => Some(ItemShape::Class(number)),
        Shape::Interface(number) => Some(ItemShape::Interface(number)),
        Shape::Delegate(number) => Some(ItemShape::Delegate(number)),
        Shape::Error(domain) => Some(ItemShape::Error(domain)),
        _ => None,
    }
}

fn owns_as_written(ownership: Option<Ownership>) -> bool
    ensures { result ≡ spec.owns_as_written ownership }
{
    !matches!(ownership, Some(Ownership::Unowned | Ownership::Weak))
}

impl Names {
    /// A name in the scope that a declaration opens, for a place in another scope.
    fn member(&self, scope: u32, word: &Identifier, number: u32) -> Result<u32, Rule>
        ensures { result ≡ search.member_answer self.now scope word.now (slice_get self.now.symbols number) }
    {
        let Some(symbol) = self.symbols.get(number as usize) else {
            return Err(Rule::N1);
        };
        match self.first_in(symbol.inner_scope(), word.text.as_slice(), word.span.start) {
            Some(found) => self.usable(scope, found),
            None => Err(Rule::N1),
        }
    }

    /// The declaration that a name with dots names.
    #[tactic(auto, using(crate::proofs::TypeLemmas::next_word, crate::proofs::TypeLemmas::word_refused, crate::proofs::TypeLemmas::no_word))]
    fn named(&self, scope: u32, name: &NameTree) -> Result<u32, Refusal>
        ensures { result ≡ spec.name_told self.now scope name.now }
    {
        let Some((first, rest)) = name.words.as_slice().split_first() else {
            return Err(refused(Rule::N1, name.span));
        };
        let mut at = match self.find(scope, first.text.as_slice(), first.span) {
            Ok(found) => found,
            Err(refusal) => return Err(refusal),
        };
        for word in rest {
            match self.member(scope, word, at) {
                Ok(found) => at = found,
                Err(rule) => return Err(refused(rule, word.span)),
            }
        }
        Ok(at)
    }

    /// The type that a name with its mark is.
    fn element(&self, scope: u32, element: &Element) -> Result<Shape, Refusal>
        ensures { result ≡ spec.element_shape self.now scope element.now }
    {
        let number = match self.named(scope, &element.name) {
            Ok(number) => number,
            Err(refusal) => return Err(refusal),
        };
        let shape = match self.symbols.get(number as usize) {
            Some(symbol) => symbol.shape(number),
            None => None,
        };
        match shape {
            None => Err(refused(Rule::T4, element.name.span)),
            Some(shape) if element.is_nullable && is_value(shape) => {
                Err(refused(Rule::U1, element.span))
            }
            Some(shape) => Ok(shape),
        }
    }

    /// The type that is written in a scope: a name in it may be unknown (N1), ambiguous (N3), not to be used there (N4) or no
    /// type (T4), and values with `?` are left out (U1).
    pub fn type_of(&self, scope: u32, tree: &TypeTree) -> Result<VType, Refusal>
        ensures { result ≡ spec.type_of self.now scope tree.now }
    {
        let owned = owns_as_written(tree.ownership);
        match &tree.shape {
            TypeShape::Void => Ok(VType {
                shape: Shape::Void,
                owned,
                nullable: false,
            }),
            TypeShape::Single(element) => match self.element(scope, element) {
                Ok(shape) => Ok(VType {
                    shape,
                    owned,
                    nullable: element.is_nullable,
                }),
                Err(refusal) => Err(refusal),
            },
            TypeShape::Array(element, nullable) => match self.element(scope, element) {
                Ok(shape) => array_of(tree.span, element.is_nullable, owned, *nullable, shape),
                Err(refusal) => Err(refusal),
            },
        }
    }
}

/// An array of that shape, if there is one.
fn array_of(
    span: Span,
    is_item_nullable: bool,
    owned: bool,
    nullable: bool,
    shape: Shape,
) -> Result<VType, Refusal>
    ensures { result ≡ spec.if_item span is_item_nullable owned nullable (spec.item_of shape) }
{
    match item_of(shape) {
        None => Err(refused(Rule::U1, span)),
        Some(shape) => Ok(VType {
            shape: Shape::Array {
                of: Item {
                    shape,
                    nullable: is_item_nullable,
                },
            },
            owned,
            nullable,
        }),
    }
}
