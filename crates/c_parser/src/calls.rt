// Calls, and what is stored to a place.

ghost use Rattle.std.specs.Prelude.{◌≡◌, ◌<◌, ◌≤◌, ◌+◌, ◌&&◌, ◌||◌, [], false, true, suc, IfOk, IsSome, None, OnOk, Some};
ghost use Rattle.c_grammar.specs.Parts as part;
ghost use Rattle.c_nodes.specs.Roles.{role_of};
ghost use Rattle.c_nodes.specs.Seen.{seen};
ghost use Rattle.c_parser.specs.Asks.{Nests};
ghost use Rattle.c_cursor.specs.Gives.{reads, room, state};
ghost use Rattle.c_cursor.specs.Reading.{behind};
ghost use Rattle.c_cursor.specs.Scopes.{names_of};
ghost use Rattle.c_cursor.specs.State.{bad};
ghost use Rattle.c_parser.specs.Pieces as piece;
ghost use Rattle.c_parser.specs.Values as values;

use crate::asks::{Ask, Grammar, Reply};
use crate::prefixes::Step;
use crate::types::any_type;
use c_cursor::{NoMemory, Parser, Set};
use c_lexer::Sign;
use c_nodes::{Role, Token, code, operands};
use c_tree::{Call, Expr, Stmt};
use sqlite_items::{Boxed, Items};

/// Whether a function of the library takes a type first.
pub fn takes_type(role: Role) -> bool
    ensures { result ≡ values.takes_type (role_of role) }
{
    match role {
        Role::Row(takes_type) => takes_type,
        _ => false,
    }
}

impl<F: Fn(&mut Parser<'_>, u32, Ask) -> Result<Reply, NoMemory>> Grammar<F> {
    /// `Arguments`: the values between the brackets of a call.
    #[tactic(auto, using(crate::proofs::CallLaws::argument_laws))]
    fn arguments(&self, parser: &mut Parser<'_>, level: u32) -> Result<Items<Expr>, NoMemory>
        requires nests { Nests self.now.least (F.pre self.now.deep) (F.post self.now.deep) }
        requires low { level ≤ 65 }
        requires within { self.now.least ≤ level + 1 }
        requires open { parser.old.is_stopped ≡ false → level + 1 < 65 }
        ensures tree { IfOk result (λ xs. reads part.Arguments (level + 1) parser.old ≡ Some (xs, state parser.new)) }
        ensures names { OnOk result (names_of parser.new.names ≡ names_of parser.old.names) }
        ensures ends { parser.new.end ≡ parser.old.end }
        ensures stop { bad parser.new.cursor ≡ bad parser.old.cursor }
    {
        let mut arguments = Items::new(parser.alloc);
        if !parser.next_in(Set::Value(false)) {
            return Ok(arguments);
        }
        arguments.push(self.deep_value(parser, level, false)?.into_inner())?;
        self.more_arguments(parser, level, arguments)
    }

    /// `MoreArguments`: these values, and those behind them.
    #[tactic(auto, using(crate::proofs::CallLaws::argument_laws, crate::proofs::Progress::stays))]
    fn more_arguments(
        &self,
        parser: &mut Parser<'_>,
        level: u32,
        first: Items<Expr>,
    ) -> Result<Items<Expr>, NoMemory>
        requires nests { Nests self.now.least (F.pre self.now.deep) (F.post self.now.deep) }
        requires low { level ≤ 65 }
        requires within { self.now.least ≤ level + 1 }
        ensures tree { IfOk result (λ xs. behind first (reads part.MoreArguments (level + 1) parser.old) ≡ Some (xs, state parser.new)) }
        ensures names { OnOk result (names_of parser.new.names ≡ names_of parser.old.names) }
        ensures ends { parser.new.end ≡ parser.old.end }
        ensures stop { bad parser.new.cursor ≡ bad parser.old.cursor }
    {
        let mut arguments = first;
        'arguments: while parser.accept(Set::Sign(Sign::Comma), level + 1).is_some() {
            arguments.push(self.deep_value(parser, level, false)?.into_inner())?;
        }
        Ok(arguments)
    }

    /// What follows the callee of a call, whose result is stored to a place or not.
    #[tactic(auto, unfolding(crate::specs::Values::call_behind))]
    pub fn call_behind(
        &self,
        parser: &mut Parser<'_>,
        level: u32,
        place: Option<Boxed<Expr>>,
        callee: Boxed<Expr>,
    ) -> Result<Stmt, NoMemory>
        requires nests { Nests self.now.least (F.pre self.now.deep) (F.post self.now.deep) }
        requires low { level ≤ 65 }
        requires within { self.now.least ≤ level + 1 }
        ensures tree { IfOk result (λ tree. values.call_behind parser.old.end (names_of parser.old.names) place callee level (state parser.old) ≡ Some (tree, state parser.new)) }
        ensures names { OnOk result (names_of parser.new.names ≡ names_of parser.old.names) }
        ensures ends { parser.new.end ≡ parser.old.end }
        ensures stop { bad parser.new.cursor ≡ bad parser.old.cursor }
        ensures after { OnOk result (parser.new.is_stopped ≡ false → level < 65) }
    {
        parser.expect(Set::Sign(Sign::OpenParen), level + 1);
        let arguments = self.arguments(parser, level)?;
        let close = parser.expect(Set::Sign(Sign::CloseParen), level);
        parser.expect(Set::Sign(Sign::Semicolon), level);
        Ok(code::call_stmt(place, code::value_call(callee, arguments, close)))
    }

    /// The same behind the name of a function of the library, which takes a type first or not.
    #[tactic(auto, using(crate::proofs::CallLaws::row_law))]
    pub fn row_behind(
        &self,
        parser: &mut Parser<'_>,
        level: u32,
        place: Option<Boxed<Expr>>,
        row: Token<'_>,
        takes_type: bool,
    ) -> Result<Stmt, NoMemory>
        requires nests { Nests self.now.least (F.pre self.now.deep) (F.post self.now.deep) }
        requires low { level ≤ 65 }
        requires within { self.now.least ≤ level + 1 }
        ensures tree { IfOk result (λ s. piece.row_behind parser.old.end (names_of parser.old.names) place (seen row.entry) takes_type level (state parser.old) ≡ Some (s, state parser.new)) }
        ensures names { OnOk result (names_of parser.new.names ≡ names_of parser.old.names) }
        ensures ends { parser.new.end ≡ parser.old.end }
        ensures stop { bad parser.new.cursor ≡ bad parser.old.cursor }
        ensures after { OnOk result (parser.new.is_stopped ≡ false → level < 65) }
    {
        parser.expect(Set::Sign(Sign::OpenParen), level + 1);
        let call = self.row_inside(parser, level, row, takes_type)?;
        parser.expect(Set::Sign(Sign::Semicolon), level);
        Ok(code::call_stmt(place, call))
    }

    // What stands in its brackets, and `)`.
    fn row_inside(
        &self,
        parser: &mut Parser<'_>,
        level: u32,
        row: Token<'_>,
        takes_type: bool,
    ) -> Result<Call, NoMemory>
        requires nests { Nests self.now.least (F.pre self.now.deep) (F.post self.now.deep) }
        requires low { level ≤ 65 }
        requires within { self.now.least ≤ level + 1 }
        requires open { parser.old.is_stopped ≡ false → level + 1 < 65 }
        ensures tree { IfOk result (λ k. values.row_inside parser.old.end (names_of parser.old.names) (seen row.entry) takes_type level (state parser.old) ≡ Some (k, state parser.new)) }
        ensures names { OnOk result (names_of parser.new.names ≡ names_of parser.old.names) }
        ensures ends { parser.new.end ≡ parser.old.end }
        ensures stop { bad parser.new.cursor ≡ bad parser.old.cursor }
    {
        if takes_type {
            self.type_row_inside(parser, level, row)
        } else {
            self.plain_row_inside(parser, level, row)
        }
    }

    #[tactic(auto, unfolding(crate::specs::Values::row_inside))]
    fn plain_row_inside(
        &self,
        parser: &mut Parser<'_>,
        level: u32,
        row: Token<'_>,
    ) -> Result<Call, NoMemory>
        requires nests { Nests self.now.least (F.pre self.now.deep) (F.post self.now.deep) }
        requires low { level ≤ 65 }
        requires within { self.now.least ≤ level + 1 }
        requires open { parser.old.is_stopped ≡ false → level + 1 < 65 }
        ensures tree { IfOk result (λ k. values.row_inside parser.old.end (names_of parser.old.names) (seen row.entry) false level (state parser.old) ≡ Some (k, state parser.new)) }
        ensures names { OnOk result (names_of parser.new.names ≡ names_of parser.old.names) }
        ensures ends { parser.new.end ≡ parser.old.end }
        ensures stop { bad parser.new.cursor ≡ bad parser.old.cursor }
    {
        let arguments = self.arguments(parser, level)?;
        let close = parser.expect(Set::Sign(Sign::CloseParen), level);
        Ok(code::row_call(parser.alloc, row, None, arguments, close)?)
    }

    #[tactic(auto, using(crate::proofs::Thens::behind_start), unfolding(crate::specs::Values::row_inside))]
    fn type_row_inside(
        &self,
        parser: &mut Parser<'_>,
        level: u32,
        row: Token<'_>,
    ) -> Result<Call, NoMemory>
        requires nests { Nests self.now.least (F.pre self.now.deep) (F.post self.now.deep) }
        requires low { level ≤ 65 }
        requires within { self.now.least ≤ level + 1 }
        ensures tree { IfOk result (λ k. values.row_inside parser.old.end (names_of parser.old.names) (seen row.entry) true level (state parser.old) ≡ Some (k, state parser.new)) }
        ensures names { OnOk result (names_of parser.new.names ≡ names_of parser.old.names) }
        ensures ends { parser.new.end ≡ parser.old.end }
        ensures stop { bad parser.new.cursor ≡ bad parser.old.cursor }
    {
        let declared = any_type(parser, level + 1, true, true)?;
        let arguments = self.more_arguments(parser, level, Items::new(parser.alloc))?;
        let close = parser.expect(Set::Sign(Sign::CloseParen), level);
        Ok(code::row_call(parser.alloc, row, Some(declared), arguments, close)?)
    }

    /// `ValueStmt`: what follows this operand that a statement begins with.
    #[tactic(auto, using(crate::proofs::CallLaws::stmt_law))]
    pub fn value_stmt(
        &self,
        parser: &mut Parser<'_>,
        level: u32,
        operand: Boxed<Expr>,
    ) -> Result<Stmt, NoMemory>
        requires nests { Nests self.now.least (F.pre self.now.deep) (F.post self.now.deep) }
        requires low { level ≤ 65 }
        requires within { self.now.least ≤ level + 1 }
        ensures tree { IfOk result (λ s. reads (part.ValueStmt operand) level parser.old ≡ Some (s, state parser.new)) }
        ensures names { OnOk result (names_of parser.new.names ≡ names_of parser.old.names) }
        ensures ends { parser.new.end ≡ parser.old.end }
        ensures stop { bad parser.new.cursor ≡ bad parser.old.cursor }
        ensures after { OnOk result (parser.new.is_stopped ≡ false → level < 65) }
    {
        let value = self.suffixed(parser, level, false, operand)?;
        if operands::is_place(value.get()) {
            return self.stored_or_called(parser, level, value);
        }
        self.call_behind(parser, level, None, value)
    }

    // What follows a place that a statement begins with.
    #[tactic(auto, unfolding(crate::specs::Values::stored_of))]
    fn stored_or_called(
        &self,
        parser: &mut Parser<'_>,
        level: u32,
        value: Boxed<Expr>,
    ) -> Result<Stmt, NoMemory>
        requires nests { Nests self.now.least (F.pre self.now.deep) (F.post self.now.deep) }
        requires low { level ≤ 65 }
        requires within { self.now.least ≤ level + 1 }
        ensures tree { IfOk result (λ s. values.stored_of parser.old.end (names_of parser.old.names) value level (state parser.old) ≡ Some (s, state parser.new)) }
        ensures names { OnOk result (names_of parser.new.names ≡ names_of parser.old.names) }
        ensures ends { parser.new.end ≡ parser.old.end }
        ensures stop { bad parser.new.cursor ≡ bad parser.old.cursor }
        ensures after { OnOk result (parser.new.is_stopped ≡ false → level < 65) }
    {
        match parser.accept(Set::Sign(Sign::Assign), level) {
            Some(_) => self.assigned(parser, level, value),
            None => self.call_behind(parser, level, None, value),
        }
    }

    /// `Assigned`: what follows a place and `=`.
    #[tactic(auto, using(crate::proofs::CallLaws::assigned_law))]
    pub fn assigned(
        &self,
        parser: &mut Parser<'_>,
        level: u32,
        place: Boxed<Expr>,
    ) -> Result<Stmt, NoMemory>
        requires nests { Nests self.now.least (F.pre self.now.deep) (F.post self.now.deep) }
        requires low { level ≤ 65 }
        requires within { self.now.least ≤ level + 1 }
        ensures tree { IfOk result (λ s. reads (part.Assigned place) level parser.old ≡ Some (s, state parser.new)) }
        ensures names { OnOk result (names_of parser.new.names ≡ names_of parser.old.names) }
        ensures ends { parser.new.end ≡ parser.old.end }
        ensures stop { bad parser.new.cursor ≡ bad parser.old.cursor }
        ensures after { OnOk result (parser.new.is_stopped ≡ false → level < 65) }
    {
        if let Some(row) = parser.accept(Set::RowName, level) {
            let takes_type = takes_type(parser.role(row));
            return self.row_behind(parser, level, Some(place), row, takes_type);
        }
        let step = self.prefix_step(parser, level, false, false)?;
        self.assigned_step(parser, level, place, step)
    }

    // What follows the first operator or the first operand of what is stored.
    #[tactic(auto, unfolding(crate::specs::Values::assigned_step))]
    fn assigned_step(
        &self,
        parser: &mut Parser<'_>,
        level: u32,
        place: Boxed<Expr>,
        step: Step,
    ) -> Result<Stmt, NoMemory>
        requires nests { Nests self.now.least (F.pre self.now.deep) (F.post self.now.deep) }
        requires low { level ≤ 65 }
        requires within { self.now.least ≤ level + 1 }
        ensures tree { IfOk result (λ s. values.assigned_step parser.old.end (names_of parser.old.names) place step level (state parser.old) ≡ Some (s, state parser.new)) }
        ensures names { OnOk result (names_of parser.new.names ≡ names_of parser.old.names) }
        ensures ends { parser.new.end ≡ parser.old.end }
        ensures stop { bad parser.new.cursor ≡ bad parser.old.cursor }
        ensures after { OnOk result (parser.new.is_stopped ≡ false → level < 65) }
    {
        match step {
            Step::Operator(first) => {
                let value = self.prefixed_behind(parser, level, false, first)?;
                self.assigned_value(parser, level, place, value)
            }
            Step::Operand(value) => {
                if parser.next_in(Set::Sign(Sign::OpenParen)) {
                    return self.call_behind(parser, level, Some(place), value);
                }
                self.assigned_value(parser, level, place, value)
            }
        }
    }

    // What follows the first operand of a value that is stored.
    #[tactic(auto, unfolding(crate::specs::Values::assigned_value))]
    fn assigned_value(
        &self,
        parser: &mut Parser<'_>,
        level: u32,
        place: Boxed<Expr>,
        first: Boxed<Expr>,
    ) -> Result<Stmt, NoMemory>
        requires nests { Nests self.now.least (F.pre self.now.deep) (F.post self.now.deep) }
        requires low { level ≤ 65 }
        requires within { self.now.least ≤ level + 1 }
        ensures tree { IfOk result (λ s. values.assigned_value parser.old.end (names_of parser.old.names) place first level (state parser.old) ≡ Some (s, state parser.new)) }
        ensures names { OnOk result (names_of parser.new.names ≡ names_of parser.old.names) }
        ensures ends { parser.new.end ≡ parser.old.end }
        ensures stop { bad parser.new.cursor ≡ bad parser.old.cursor }
        ensures after { OnOk result (parser.new.is_stopped ≡ false → level < 65) }
    {
        let value = self.value_behind(parser, level, false, first)?;
        parser.expect(Set::Sign(Sign::Semicolon), level);
        Ok(Stmt::Assign(place.into_inner(), value.into_inner()))
    }
}
