// The parser of what is one level deeper, which gives itself to the grammar.

ghost use Rattle.std.specs.Prelude.{◌≡◌, ◌<◌, ◌≤◌, ◌+◌, false, true, IfOk, OnOk, Some};
ghost use Rattle.c_grammar.specs.Parts as part;
ghost use Rattle.c_parser.specs.Asks.{Told};
ghost use Rattle.c_cursor.specs.Gives.{reads, state};
ghost use Rattle.c_cursor.specs.Scopes.{names_of};
ghost use Rattle.c_cursor.specs.State.{bad};

use crate::asks::{Ask, Grammar, Reply};
use c_cursor::{NoMemory, Parser};
use c_tree::{Block, Expr};
use sqlite_items::Boxed;

// What is asked for.
fn read(parser: &mut Parser<'_>, level: u32, ask: Ask) -> Result<Reply, NoMemory>
    requires low { level < 65 }
    ensures told { Told ask level parser.old result parser.new }
    ensures names { OnOk result (names_of parser.new.names ≡ names_of parser.old.names) }
    ensures ends { parser.new.end ≡ parser.old.end }
    ensures stop { bad parser.new.cursor ≡ bad parser.old.cursor }
    ensures after { parser.new.is_stopped ≡ false → level < 65 }
{
    let grammar = Grammar {
        least: level + 1,
        deep: read,
    };
    match ask {
        Ask::Value(constant) => Ok(Reply::Expr(grammar.value(parser, level, constant)?)),
        Ask::Block => Ok(Reply::Block(grammar.block(parser, level)?)),
    }
}

/// `Value` of a static variable.
pub fn read_constant(parser: &mut Parser<'_>) -> Result<Boxed<Expr>, NoMemory>
    ensures tree { IfOk result (λ tree. reads (part.Value true) 0 parser.old ≡ Some (tree, state parser.new)) }
    ensures names { OnOk result (names_of parser.new.names ≡ names_of parser.old.names) }
    ensures ends { parser.new.end ≡ parser.old.end }
    ensures stop { bad parser.new.cursor ≡ bad parser.old.cursor }
{
    let grammar = Grammar {
        least: 1,
        deep: read,
    };
    grammar.value(parser, 0, true)
}

/// `BlockOf`: the body of a function.
pub fn read_body(parser: &mut Parser<'_>) -> Result<Block, NoMemory>
    ensures tree { IfOk result (λ tree. reads part.BlockOf 0 parser.old ≡ Some (tree, state parser.new)) }
    ensures names { OnOk result (names_of parser.new.names ≡ names_of parser.old.names) }
    ensures ends { parser.new.end ≡ parser.old.end }
    ensures stop { bad parser.new.cursor ≡ bad parser.old.cursor }
{
    let grammar = Grammar {
        least: 1,
        deep: read,
    };
    grammar.block(parser, 0)
}
