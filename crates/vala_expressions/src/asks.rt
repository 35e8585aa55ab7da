// What is read one level deeper: it is asked for through a function value, so that each part is proved by itself.

ghost use Rattle.std.specs.Prelude.{◌≡◌, ◌<◌, ◌≤◌, ◌*◌};
ghost use Rattle.vala_grammar.specs.Parts as part;
ghost use Rattle.vala_cursor.specs.Ahead.{rest, stop};
ghost use Rattle.vala_expressions.specs.Asks.{Nests, Told, weight};
ghost use Rattle.vala_cursor.specs.Gets.{Gets};
ghost use Rattle.vala_grammar.specs.Read.{vala_reader};

use sqlite_items::Boxed;
use std::alloc::Global;
use vala_cursor::{Cursor, Stop};
use vala_grammar::{Chain, Ended, Signs, Tier};
use vala_tree::{Argument, Block, Expr};

/// A part. The number is how many levels it stands over the expression that it belongs to.
#[derive(Clone, Copy)]
pub enum Ask {
    Whole,
    Test,
    YieldCall,
    Prefix(Signs),
    Operand(u32, Tier),
    CoalesceOperand(u32),
    Arg,
    AnyStmt,
    Bare,
    Block,
}

/// Its tree.
#[derive(Drop)]
pub enum Reply {
    Expr(Boxed<Expr>),
    Chain(Chain),
    Argument(Boxed<Argument>),
    Ended(Ended),
    Block(Boxed<Block>),
}

#[derive(Clone, Copy)]
pub struct Grammar<F> {
    pub alloc: Global,
    /// Only parts that weigh more are asked for.
    pub weight: u32,
    pub deep: F,
}

impl<F: Fn(Global, &mut Cursor<'_>, u32, Ask) -> Result<Reply, Stop>> Grammar<F> {
    pub fn deep_whole(&self, cursor: &mut Cursor<'_>, level: u32) -> Result<Boxed<Expr>, Stop>
        requires nests { Nests self.now.weight (F.pre self.now.deep) (F.post self.now.deep) }
        requires low { level ≤ 201 }
        requires within { self.now.weight < weight 0 level }
        ensures tree { Gets (vala_reader part.Whole level (rest cursor.old)) result (rest cursor.new) }
        ensures kept { stop cursor.new ≡ stop cursor.old }
    {
        match (self.deep)(self.alloc, cursor, level, Ask::Whole)? {
            Reply::Expr(tree) => Ok(tree),
            _ => unreachable!(),
        }
    }

    pub fn deep_prefix(
        &self,
        cursor: &mut Cursor<'_>,
        level: u32,
        signs: Signs,
    ) -> Result<Chain, Stop>
        requires nests { Nests self.now.weight (F.pre self.now.deep) (F.post self.now.deep) }
        requires low { level ≤ 201 }
        requires within { self.now.weight < weight 0 level }
        ensures tree { Gets (vala_reader (part.Prefix signs) level (rest cursor.old)) result (rest cursor.new) }
        ensures kept { stop cursor.new ≡ stop cursor.old }
    {
        match (self.deep)(self.alloc, cursor, level, Ask::Prefix(signs))? {
            Reply::Chain(tree) => Ok(tree),
            _ => unreachable!(),
        }
    }

    pub fn deep_test(&self, cursor: &mut Cursor<'_>, level: u32) -> Result<Boxed<Expr>, Stop>
        requires nests { Nests self.now.weight (F.pre self.now.deep) (F.post self.now.deep) }
        requires low { level ≤ 201 }
        requires within { self.now.weight < weight 0 level }
        ensures tree { Gets (vala_reader part.Test level (rest cursor.old)) result (rest cursor.new) }
        ensures kept { stop cursor.new ≡ stop cursor.old }
    {
        match (self.deep)(self.alloc, cursor, level, Ask::Test)? {
            Reply::Expr(tree) => Ok(tree),
            _ => unreachable!(),
        }
    }

    pub fn deep_yield_call(&self, cursor: &mut Cursor<'_>, level: u32) -> Result<Boxed<Expr>, Stop>
        requires nests { Nests self.now.weight (F.pre self.now.deep) (F.post self.now.deep) }
        requires low { level ≤ 201 }
        requires within { self.now.weight < weight 0 level }
        ensures tree { Gets (vala_reader part.YieldCall level (rest cursor.old)) result (rest cursor.new) }
        ensures kept { stop cursor.new ≡ stop cursor.old }
    {
        match (self.deep)(self.alloc, cursor, level, Ask::YieldCall)? {
            Reply::Expr(tree) => Ok(tree),
            _ => unreachable!(),
        }
    }

    pub fn deep_arg(&self, cursor: &mut Cursor<'_>, level: u32) -> Result<Boxed<Argument>, Stop>
        requires nests { Nests self.now.weight (F.pre self.now.deep) (F.post self.now.deep) }
        requires low { level ≤ 201 }
        requires within { self.now.weight < weight 0 level }
        ensures tree { Gets (vala_reader part.Arg level (rest cursor.old)) result (rest cursor.new) }
        ensures kept { stop cursor.new ≡ stop cursor.old }
    {
        match (self.deep)(self.alloc, cursor, level, Ask::Arg)? {
            Reply::Argument(tree) => Ok(tree),
            _ => unreachable!(),
        }
    }

    pub fn deep_any_stmt(&self, cursor: &mut Cursor<'_>, level: u32) -> Result<Ended, Stop>
        requires nests { Nests self.now.weight (F.pre self.now.deep) (F.post self.now.deep) }
        requires low { level ≤ 201 }
        requires within { self.now.weight < weight 0 level }
        ensures tree { Gets (vala_reader part.AnyStmt level (rest cursor.old)) result (rest cursor.new) }
        ensures kept { stop cursor.new ≡ stop cursor.old }
    {
        match (self.deep)(self.alloc, cursor, level, Ask::AnyStmt)? {
            Reply::Ended(tree) => Ok(tree),
            _ => unreachable!(),
        }
    }

    pub fn deep_bare(&self, cursor: &mut Cursor<'_>, level: u32) -> Result<Ended, Stop>
        requires nests { Nests self.now.weight (F.pre self.now.deep) (F.post self.now.deep) }
        requires low { level ≤ 201 }
        requires within { self.now.weight < weight 0 level }
        ensures tree { Gets (vala_reader part.Bare level (rest cursor.old)) result (rest cursor.new) }
        ensures kept { stop cursor.new ≡ stop cursor.old }
    {
        match (self.deep)(self.alloc, cursor, level, Ask::Bare)? {
            Reply::Ended(tree) => Ok(tree),
            _ => unreachable!(),
        }
    }

    pub fn deep_block(&self, cursor: &mut Cursor<'_>, level: u32) -> Result<Boxed<Block>, Stop>
        requires nests { Nests self.now.weight (F.pre self.now.deep) (F.post self.now.deep) }
        requires low { level ≤ 201 }
        requires within { self.now.weight < weight 0 level }
        ensures tree { Gets (vala_reader part.BlockOf level (rest cursor.old)) result (rest cursor.new) }
        ensures kept { stop cursor.new ≡ stop cursor.old }
    {
        match (self.deep)(self.alloc, cursor, level, Ask::Block)? {
            Reply::Block(tree) => Ok(tree),
            _ => unreachable!(),
        }
    }
}
