// The parser of what is asked for, which gives itself to the grammar.

ghost use Rattle.std.specs.Prelude.{◌≡◌, ◌<◌, ◌≤◌, List};
ghost use Rattle.predictive_grammar.specs.Steps.{Outcome};
ghost use Rattle.vala_lexer.specs.Tokens.{Lexeme};
ghost use Rattle.vala_grammar.specs.Label.{Label};
ghost use Rattle.vala_grammar.specs.Parts as part;
ghost use Rattle.vala_grammar.specs.Read.{vala_reader};
ghost use Rattle.vala_cursor.specs.Ahead.{rest, stop};
ghost use Rattle.vala_cursor.specs.Gets.{Gets};
ghost use Rattle.vala_expressions.specs.Asks.{AnswersArgument, AnswersBlock, AnswersChain, AnswersEnded, AnswersExpr, Told, depth, weight};

use crate::statements::Statements;
use sqlite_items::Boxed;
use std::alloc::Global;
use vala_cursor::{Cursor, Stop};
use vala_expressions::{Ask, Grammar, Reply};
use vala_grammar::{Chain, Ended};
use vala_tree::{Argument, Block, Expr};

fn expr(answer: Result<Boxed<Expr>, Stop>) -> Result<Reply, Stop>
    ensures { (o : Outcome Label Lexeme Expr) (new : List Lexeme) → Gets o answer new → AnswersExpr o result new }
{
    match answer {
        Ok(tree) => Ok(Reply::Expr(tree)),
        Err(stop) => Err(stop),
    }
}

fn chain(answer: Result<Chain, Stop>) -> Result<Reply, Stop>
    ensures { (o : Outcome Label Lexeme Chain) (new : List Lexeme) → Gets o answer new → AnswersChain o result new }
{
    match answer {
        Ok(tree) => Ok(Reply::Chain(tree)),
        Err(stop) => Err(stop),
    }
}

fn argument(answer: Result<Boxed<Argument>, Stop>) -> Result<Reply, Stop>
    ensures { (o : Outcome Label Lexeme Argument) (new : List Lexeme) → Gets o answer new → AnswersArgument o result new }
{
    match answer {
        Ok(tree) => Ok(Reply::Argument(tree)),
        Err(stop) => Err(stop),
    }
}

fn ended(answer: Result<Ended, Stop>) -> Result<Reply, Stop>
    ensures { (o : Outcome Label Lexeme Ended) (new : List Lexeme) → Gets o answer new → AnswersEnded o result new }
{
    match answer {
        Ok(tree) => Ok(Reply::Ended(tree)),
        Err(stop) => Err(stop),
    }
}

fn block(answer: Result<Boxed<Block>, Stop>) -> Result<Reply, Stop>
    ensures { (o : Outcome Label Lexeme Block) (new : List Lexeme) → Gets o answer new → AnswersBlock o result new }
{
    match answer {
        Ok(tree) => Ok(Reply::Block(tree)),
        Err(stop) => Err(stop),
    }
}

fn weight_of(ask: Ask, level: u32) -> u32
    requires low { level ≤ 201 }
    requires over { depth ask ≤ level }
    ensures { result ≡ weight (depth ask) level }
{
    match ask {
        Ask::Operand(depth, _) | Ask::CoalesceOperand(depth) => (level - depth) * 202 + level,
        _ => level * 202 + level,
    }
}

/// What is asked for, which stands at the level.
fn read(alloc: Global, cursor: &mut Cursor<'_>, level: u32, ask: Ask) -> Result<Reply, Stop>
    requires low { level ≤ 201 }
    requires over { depth ask ≤ level }
    ensures told { Told ask level (rest cursor.old) result (rest cursor.new) }
    ensures kept { stop cursor.new ≡ stop cursor.old }
{
    let code = Grammar {
        alloc,
        weight: weight_of(ask, level),
        deep: read,
    };
    match ask {
        Ask::Whole => expr(code.whole(cursor, level)),
        Ask::Test => expr(code.test(cursor, level)),
        Ask::YieldCall => expr(code.yield_call(cursor, level)),
        Ask::Prefix(signs) => chain(code.prefix(cursor, level, signs)),
        Ask::Operand(depth, tier) => chain(code.operand(cursor, level, depth, tier)),
        Ask::CoalesceOperand(depth) => chain(code.coalesce_operand(cursor, level, depth)),
        Ask::Arg => argument(code.arg(cursor, level)),
        Ask::AnyStmt => ended(Statements { code }.any_stmt(cursor, level)),
        Ask::Bare => ended(Statements { code }.bare(cursor, level)),
        Ask::Block => block(Statements { code }.block(cursor, level)),
    }
}

/// An expression.
pub fn read_whole(alloc: Global, cursor: &mut Cursor<'_>, level: u32) -> Result<Boxed<Expr>, Stop>
    requires low { level ≤ 201 }
    ensures tree { Gets (vala_reader part.Whole level (rest cursor.old)) result (rest cursor.new) }
    ensures kept { stop cursor.new ≡ stop cursor.old }
{
    let code = Grammar {
        alloc,
        weight: 0,
        deep: read,
    };
    code.whole(cursor, level)
}

/// An expression, or a list in braces.
pub fn read_init(alloc: Global, cursor: &mut Cursor<'_>, level: u32) -> Result<Boxed<Expr>, Stop>
    requires low { level ≤ 201 }
    ensures tree { Gets (vala_reader part.Init level (rest cursor.old)) result (rest cursor.new) }
    ensures kept { stop cursor.new ≡ stop cursor.old }
{
    let code = Grammar {
        alloc,
        weight: 0,
        deep: read,
    };
    code.init(cursor, level)
}

/// Statements in braces.
pub fn read_block(alloc: Global, cursor: &mut Cursor<'_>, level: u32) -> Result<Boxed<Block>, Stop>
    requires low { level ≤ 201 }
    ensures tree { Gets (vala_reader part.BlockOf level (rest cursor.old)) result (rest cursor.new) }
    ensures kept { stop cursor.new ≡ stop cursor.old }
{
    let code = Grammar {
        alloc,
        weight: 0,
        deep: read,
    };
    Statements { code }.block(cursor, level)
}
