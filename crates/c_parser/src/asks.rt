// What is read one level deeper: it is asked for through a function value, so that each part is proved by itself.

ghost use Rattle.std.specs.Prelude.{◌≡◌, ◌<◌, ◌≤◌, ◌+◌, false, IfOk, OnOk, Some};
ghost use Rattle.c_grammar.specs.Parts as part;
ghost use Rattle.c_nodes.specs.Seen.{seen};
ghost use Rattle.c_parser.specs.Asks.{Nests};
ghost use Rattle.c_cursor.specs.Gives.{reads, state};
ghost use Rattle.c_parser.specs.Pieces as piece;
ghost use Rattle.c_cursor.specs.Scopes.{names_of};
ghost use Rattle.c_cursor.specs.State.{bad};

use c_cursor::{NoMemory, Parser, Set};
use c_lexer::Sign;
use c_nodes::code;
use c_tree::{Block, Expr};
use sqlite_items::{Boxed, Items};

/// A part.
#[derive(Clone, Copy)]
pub enum Ask {
    /// As a constant or not.
    Value(bool),
    Block,
}

/// Its tree.
#[derive(Drop)]
pub enum Reply {
    Expr(Boxed<Expr>),
    Block(Block),
}

/// The parsers of values and statements, by one for what is deeper.
#[derive(Clone, Copy)]
pub struct Grammar<F> {
    /// Only what stands at this level or deeper is asked for.
    pub least: u32,
    pub deep: F,
}

impl<F: Fn(&mut Parser<'_>, u32, Ask) -> Result<Reply, NoMemory>> Grammar<F> {
    /// `Value` inside the bracket that is open behind this level. A reader that has stopped makes it up.
    #[tactic(auto, using(crate::proofs::StoppedLaws::value_made_up))]
    pub fn deep_value(
        &self,
        parser: &mut Parser<'_>,
        level: u32,
        constant: bool,
    ) -> Result<Boxed<Expr>, NoMemory>
        requires nests { Nests self.now.least (F.pre self.now.deep) (F.post self.now.deep) }
        requires low { level ≤ 65 }
        requires within { self.now.least ≤ level + 1 }
        requires open { parser.old.is_stopped ≡ false → level + 1 < 65 }
        ensures tree { IfOk result (λ tree. reads (part.Value constant) (level + 1) parser.old ≡ Some (tree, state parser.new)) }
        ensures names { OnOk result (names_of parser.new.names ≡ names_of parser.old.names) }
        ensures ends { parser.new.end ≡ parser.old.end }
        ensures stop { bad parser.new.cursor ≡ bad parser.old.cursor }
    {
        if parser.is_stopped {
            return self.unnamed(parser, level + 1);
        }
        match (self.deep)(parser, level + 1, Ask::Value(constant))? {
            Reply::Expr(tree) => Ok(tree),
            _ => unreachable!(),
        }
    }

    /// `BlockOf` at this level. A reader that has stopped makes it up.
    #[tactic(auto, using(crate::proofs::StoppedLaws::block_made_up))]
    pub fn deep_block(&self, parser: &mut Parser<'_>, level: u32) -> Result<Block, NoMemory>
        requires nests { Nests self.now.least (F.pre self.now.deep) (F.post self.now.deep) }
        requires low { level ≤ 65 }
        requires within { self.now.least ≤ level }
        requires open { parser.old.is_stopped ≡ false → level < 65 }
        ensures tree { IfOk result (λ tree. reads part.BlockOf level parser.old ≡ Some (tree, state parser.new)) }
        ensures names { OnOk result (names_of parser.new.names ≡ names_of parser.old.names) }
        ensures ends { parser.new.end ≡ parser.old.end }
        ensures stop { bad parser.new.cursor ≡ bad parser.old.cursor }
        ensures after { OnOk result (parser.new.is_stopped ≡ false → level < 65) }
    {
        if parser.is_stopped {
            let opening = parser.expect(Set::Sign(Sign::OpenBrace), level + 1);
            let close = parser.expect(Set::Sign(Sign::CloseBrace), level);
            let (locals, body) = (Items::new(parser.alloc), Items::new(parser.alloc));
            return Ok(code::block(opening, locals, body, close));
        }
        match (self.deep)(parser, level, Ask::Block)? {
            Reply::Block(tree) => Ok(tree),
            _ => unreachable!(),
        }
    }
}
