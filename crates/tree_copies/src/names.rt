// Copies of names and types.

ghost use Rattle.std.specs.Prelude.{◌≡◌, IfOk};

use sqlite_items::Items;
use std::alloc::{AllocError, Global};
use vala_tree::{Element, Identifier, NameTree, TypeShape, TypeTree};

pub(crate) fn identifier(alloc: Global, word: &Identifier) -> Result<Identifier, AllocError>
    ensures { IfOk result (λ it. it ≡ word.now) }
{
    Ok(Identifier {
        text: Items::from_slice(alloc, word.text.as_slice())?,
        span: word.span,
    })
}

pub(crate) fn identifiers(
    alloc: Global,
    words: &[Identifier],
) -> Result<Items<Identifier>, AllocError>
    ensures { IfOk result (λ it. it ≡ words.now) }
{
    let mut copy = Items::new(alloc);
    for word in words {
        copy.push(identifier(alloc, word)?)?;
    }
    Ok(copy)
}

pub(crate) fn name(alloc: Global, name: &NameTree) -> Result<NameTree, AllocError>
    ensures { IfOk result (λ it. it ≡ name.now) }
{
    Ok(NameTree {
        words: identifiers(alloc, name.words.as_slice())?,
        span: name.span,
    })
}

pub(crate) fn names(alloc: Global, names: &[NameTree]) -> Result<Items<NameTree>, AllocError>
    ensures { IfOk result (λ it. it ≡ names.now) }
{
    let mut copy = Items::new(alloc);
    for each in names {
        copy.push(name(alloc, each)?)?;
    }
    Ok(copy)
}

pub(crate) fn element(alloc: Global, element: &Element) -> Result<Element, AllocError>
    ensures { IfOk result (λ it. it ≡ element.now) }
{
    Ok(Element {
        name: name(alloc, &element.name)?,
        is_nullable: element.is_nullable,
        span: element.span,
    })
}

fn shape(alloc: Global, shape: &TypeShape) -> Result<TypeShape, AllocError>
    ensures { IfOk result (λ it. it ≡ shape.now) }
{
    match shape {
        TypeShape::Void => Ok(TypeShape::Void),
        TypeShape::Single(single) => Ok(TypeShape::Single(element(alloc, single)?)),
        TypeShape::Array(of, is_nullable) => {
            Ok(TypeShape::Array(element(alloc, of)?, *is_nullable))
        }
    }
}

pub(crate) fn type_tree(alloc: Global, tree: &TypeTree) -> Result<TypeTree, AllocError>
    ensures { IfOk result (λ it. it ≡ tree.now) }
{
    Ok(TypeTree {
        ownership: tree.ownership,
        shape: shape(alloc, &tree.shape)?,
        span: tree.span,
    })
}

pub(crate) fn type_trees(alloc: Global, trees: &[TypeTree]) -> Result<Items<TypeTree>, AllocError>
    ensures { IfOk result (λ it. it ≡ trees.now) }
{
    let mut copy = Items::new(alloc);
    for tree in trees {
        copy.push(type_tree(alloc, tree)?)?;
    }
    Ok(copy)
}
