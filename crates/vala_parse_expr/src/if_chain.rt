// `if` with as many `else if` behind it as there are: their arms go into a list, one after another.

ghost use Rattle.std.specs.Prelude.{◌≡◌, ◌<◌, ◌≤◌, IfOk};
ghost use Rattle.vala_grammar.specs.Parts as part;
ghost use Rattle.vala_grammar.specs.Read.{vala_reader};
ghost use Rattle.vala_grammar.specs.Trees as tree;
ghost use Rattle.vala_cursor.specs.Ahead.{rest, stop};
ghost use Rattle.vala_expressions.specs.Asks.{Nests, weight};
ghost use Rattle.vala_cursor.specs.Gets.{Gets};
ghost use Rattle.vala_parse_expr.specs.Statements.{in_front, head_of, behind_else};

use crate::statements::Statements;
use sqlite_items::{Boxed, Items};
use std::alloc::{AllocError, Global};
use vala_cursor::{Cursor, Stop};
use vala_expressions::{Ask, Reply};
use vala_grammar::{Branches, Ended, Sort};
use vala_nodes::statements::arm;
use vala_tree::{Arm, Expr};

/// What follows `if`: its condition and its body.
pub struct Head {
    pub test: Boxed<Expr>,
    pub yes: Ended,
}

impl Drop for Head {
    fn drop(self) {
        let Head { test, yes } = self;
        drop(test);
        drop(yes);
    }
}

impl Head {
    fn into_arm(self) -> Arm
        ensures { result ≡ tree.arm self.test self.yes }
    {
        let Head { test, yes } = self;
        arm(test, yes)
    }
}

/// What follows `else`.
#[derive(Drop)]
pub enum Behind {
    Chained(Head),
    Last(Ended),
}

/// Arms, the last of which is this one.
#[tactic(auto, unfolding(crate::specs::Statements::in_front))]
fn with_arm(arms: Items<Arm>, head: Head) -> Result<Branches, AllocError>
    ensures { IfOk result (λ b. b ≡ in_front arms (tree.one_arm head.test head.yes)) }
{
    let end = head.yes.statement.get().span();
    let mut arms = arms;
    arms.push(head.into_arm())?;
    Ok(Branches {
        arms,
        no: None,
        is_open: true,
        end,
    })
}

/// Arms, and a statement behind a last `else`.
#[tactic(auto, unfolding(crate::specs::Statements::in_front))]
fn with_else(arms: Items<Arm>, last: Ended) -> Branches
    ensures { result ≡ in_front arms (tree.last_branch last) }
{
    let end = last.statement.get().span();
    let is_open = last.is_open;
    Branches {
        arms,
        no: Some(last.into_statement()),
        is_open,
        end,
    }
}

impl<F: Fn(Global, &mut Cursor<'_>, u32, Ask) -> Result<Reply, Stop>> Statements<F> {
    /// The condition and the body behind `if`.
    #[tactic(auto, unfolding(crate::specs::Statements::head_of))]
    fn if_head(&self, cursor: &mut Cursor<'_>, level: u32) -> Result<Head, Stop>
        requires nests { Nests self.now.code.weight (F.pre self.now.code.deep) (F.post self.now.code.deep) }
        requires within { self.now.code.weight ≤ weight 0 level }
        requires low { level ≤ 201 }
        ensures tree { Gets (head_of level (rest cursor.old)) result (rest cursor.new) }
        ensures kept { stop cursor.new ≡ stop cursor.old }
    {
        let test = self.test_in(cursor, level)?;
        let yes = self.body(cursor, level)?;
        Ok(Head { test, yes })
    }

    #[tactic(auto, unfolding(crate::specs::Statements::behind_else))]
    fn behind_else(&self, cursor: &mut Cursor<'_>, level: u32) -> Result<Behind, Stop>
        requires nests { Nests self.now.code.weight (F.pre self.now.code.deep) (F.post self.now.code.deep) }
        requires within { self.now.code.weight ≤ weight 0 level }
        requires low { level < 201 }
        ensures tree { Gets (behind_else level (rest cursor.old)) result (rest cursor.new) }
        ensures kept { stop cursor.new ≡ stop cursor.old }
    {
        if cursor.is(Sort::If) {
            cursor.expect(Sort::If, level)?;
            return Ok(Behind::Chained(self.if_head(cursor, level)?));
        }
        Ok(Behind::Last(self.body(cursor, level)?))
    }

    /// What follows `if`.
    #[tactic(auto, using(crate::proofs::IfLaws::if_laws, crate::proofs::Progress::chain_moves))]
    pub fn if_more(&self, cursor: &mut Cursor<'_>, level: u32) -> Result<Branches, Stop>
        requires nests { Nests self.now.code.weight (F.pre self.now.code.deep) (F.post self.now.code.deep) }
        requires within { self.now.code.weight ≤ weight 0 level }
        requires low { level ≤ 201 }
        ensures tree { Gets (vala_reader part.IfMore level (rest cursor.old)) result (rest cursor.new) }
        ensures kept { stop cursor.new ≡ stop cursor.old }
    {
        let mut arms = Items::new(self.code.alloc);
        let mut head = self.if_head(cursor, level)?;
        'heads: while !head.yes.is_open && cursor.is(Sort::Else) {
            cursor.expect(Sort::Else, level)?;
            arms.push(head.into_arm())?;
            match self.behind_else(cursor, level)? {
                Behind::Chained(next) => head = next,
                Behind::Last(last) => return Ok(with_else(arms, last)),
            }
        }
        Ok(with_arm(arms, head)?)
    }
}
