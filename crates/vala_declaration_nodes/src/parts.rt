// What is read on the way to a declaration. Blocks in it are boxed, so that it is small to hand on and to drop.

ghost use Rattle.std.specs.Prelude.{◌≡◌};
ghost use Rattle.vala_declaration_nodes.specs.Views.{declared_of};
ghost use Rattle.vala_file_grammar.specs.Trees as tree;

use sqlite_items::{Boxed, Items};
use vala_nodes::names::join;
use vala_tree::{Block, Declaration};
use vg_base::Span;

/// What stands in brackets or braces, and the place of the closing one.
#[derive(Drop)]
pub struct Closed<T> {
    pub list: Items<T>,
    pub close: Span,
}

/// A block or the `;` in its place, and where it ends.
#[derive(Drop)]
pub struct Ending {
    pub block: Option<Boxed<Block>>,
    pub last: Span,
}

/// A declaration without what stands in front of it, from its first token to its last.
#[derive(Drop)]
pub struct Declared {
    pub declaration: Declaration,
    pub span: Span,
}

/// A block that may be missing, for a place that holds it without a box.
pub fn unboxed(block: Option<Boxed<Block>>) -> Option<Block>
    ensures { result ≡ block }
{
    match block {
        None => None,
        Some(block) => Some(block.into_inner()),
    }
}

pub fn spanning(declaration: Declaration, first: Span, last: Span) -> Declared
    ensures { declared_of result ≡ tree.declared declaration first last }
{
    Declared {
        declaration,
        span: join(first, last),
    }
}
