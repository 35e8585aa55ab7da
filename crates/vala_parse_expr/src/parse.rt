// The parsers that other crates call: each over a lexer, from the level at which its part stands.

ghost use Rattle.std.specs.Prelude.{◌≡◌};
ghost use Rattle.vala_lexer.specs.Tokens.{left};
ghost use Rattle.vala_grammar.specs.Parts as part;
ghost use Rattle.vala_cursor.specs.Parsed.{Parsed};

use crate::reader::{read_block, read_init, read_whole};
use static_rules::Refusal;
use std::alloc::Global;
use vala_cursor::Cursor;
use vala_expressions::names;
use vala_lexer::Lexer;
use vala_tree::{Block, Expr, NameTree, TypeTree};
use vg_base::Fault;

/// No token stands at this level, nor at a higher one.
const TOO_HIGH: u32 = 201;

/// A name, as far as it goes, or the first fault, at which the lexer then stands.
pub fn parse_name(
    alloc: Global,
    lexer: &mut Lexer<'_>,
    level: u32,
) -> Result<NameTree, Fault<Refusal>>
    ensures { Parsed part.Name level (left lexer.old) result (left lexer.new) }
{
    let end = lexer.end();
    let mut cursor = Cursor::new(*lexer);
    let answer = names::name(alloc, &mut cursor, level);
    *lexer = cursor.lexer();
    match answer {
        Ok(tree) => Ok(tree),
        Err(stop) => Err(cursor.fault(stop, end)),
    }
}

/// A type, as far as it goes, or the first fault, at which the lexer then stands.
pub fn parse_type(
    alloc: Global,
    lexer: &mut Lexer<'_>,
    level: u32,
) -> Result<TypeTree, Fault<Refusal>>
    ensures { Parsed part.AnyType level (left lexer.old) result (left lexer.new) }
{
    let end = lexer.end();
    let mut cursor = Cursor::new(*lexer);
    let answer = names::any_type(alloc, &mut cursor, level);
    *lexer = cursor.lexer();
    match answer {
        Ok(tree) => Ok(tree),
        Err(stop) => Err(cursor.fault(stop, end)),
    }
}

/// An expression, as far as it goes, or the first fault, at which the lexer then stands.
pub fn parse_expr(alloc: Global, lexer: &mut Lexer<'_>, level: u32) -> Result<Expr, Fault<Refusal>>
    ensures { Parsed part.Whole level (left lexer.old) result (left lexer.new) }
{
    let end = lexer.end();
    let mut cursor = Cursor::new(*lexer);
    let answer = read_whole(alloc, &mut cursor, level.min(TOO_HIGH));
    *lexer = cursor.lexer();
    match answer {
        Ok(tree) => Ok(tree.into_inner()),
        Err(stop) => Err(cursor.fault(stop, end)),
    }
}

/// An initialiser, which is an expression or a list in braces, as far as it goes, or the first fault, at which the lexer then stands.
pub fn parse_init(alloc: Global, lexer: &mut Lexer<'_>, level: u32) -> Result<Expr, Fault<Refusal>>
    ensures { Parsed part.Init level (left lexer.old) result (left lexer.new) }
{
    let end = lexer.end();
    let mut cursor = Cursor::new(*lexer);
    let answer = read_init(alloc, &mut cursor, level.min(TOO_HIGH));
    *lexer = cursor.lexer();
    match answer {
        Ok(tree) => Ok(tree.into_inner()),
        Err(stop) => Err(cursor.fault(stop, end)),
    }
}

/// A block, as far as it goes, or the first fault, at which the lexer then stands.
pub fn parse_block(
    alloc: Global,
    lexer: &mut Lexer<'_>,
    level: u32,
) -> Result<Block, Fault<Refusal>>
    ensures { Parsed part.BlockOf level (left lexer.old) result (left lexer.new) }
{
    let end = lexer.end();
    let mut cursor = Cursor::new(*lexer);
    let answer = read_block(alloc, &mut cursor, level.min(TOO_HIGH));
    *lexer = cursor.lexer();
    match answer {
        Ok(tree) => Ok(tree.into_inner()),
        Err(stop) => Err(cursor.fault(stop, end)),
    }
}
