// Statements.

ghost use Rattle.std.specs.Prelude.{◌≡◌, ◌<◌, ◌≤◌, ◌+◌, false, IfOk, OnOk, Some};
ghost use Rattle.c_lexer.specs.declared.token.Sign.TheVariants as sign;
ghost use Rattle.c_lexer.specs.declared.token.TokenKind.TheVariants as kind;
ghost use Rattle.c_tree.specs.Words.{Of};
ghost use Rattle.c_grammar.specs.Parts as part;
ghost use Rattle.c_grammar.specs.Trees as tree;
ghost use Rattle.c_nodes.specs.Seen.{seen};
ghost use Rattle.c_parser.specs.Asks.{Nests};
ghost use Rattle.c_nodes.specs.Roles.{role_of};
ghost use Rattle.c_cursor.specs.Gives.{reads, room, state};
ghost use Rattle.c_parser.specs.Pieces as piece;
ghost use Rattle.c_parser.specs.Statements.{star_behind};
ghost use Rattle.c_cursor.specs.Scopes.{names_of};
ghost use Rattle.c_cursor.specs.State.{bad};

use crate::asks::{Ask, Grammar, Reply};
use c_cursor::{NoMemory, Parser, Set, can_be_type};
use c_lexer::{Keyword, Sign};
use c_nodes::names::{at, name};
use c_nodes::operators::sign_prefix;
use c_nodes::{Role, Token, code, operands};
use c_tree::{Block, Case, Expr, PrefixOperator, SignedNumber, Stmt};
use sqlite_items::{Boxed, Items};

/// `SignedNumberOf`: a number, with `-` before it or not.
#[tactic(auto, using(crate::proofs::StatementLaws::signed_law))]
pub fn signed_number(parser: &mut Parser<'_>, level: u32) -> SignedNumber
    ensures tree { reads part.SignedNumberOf level parser.old ≡ Some (result, state parser.new) }
    ensures names { parser.new.names ≡ parser.old.names }
    ensures ends { parser.new.end ≡ parser.old.end }
    ensures stop { bad parser.new.cursor ≡ bad parser.old.cursor }
    ensures shorter { room (state parser.new) ≤ room (state parser.old) }
    ensures after { parser.new.is_stopped ≡ false → level < 65 }
{
    let is_negative = parser.accept(Set::Sign(Sign::Minus), level).is_some();
    code::signed(is_negative, parser.expect(Set::Number, level))
}

/// `GotoOf`: `goto L;`, by the name.
#[tactic(auto, using(crate::proofs::StatementLaws::goto_law))]
fn goto_of<'t>(parser: &mut Parser<'t>, level: u32) -> Token<'t>
    ensures tree { reads part.GotoOf level parser.old ≡ Some (seen result, state parser.new) }
    ensures bears { (seen result).bytes ≡ result.text.now }
    ensures names { parser.new.names ≡ parser.old.names }
    ensures ends { parser.new.end ≡ parser.old.end }
    ensures stop { bad parser.new.cursor ≡ bad parser.old.cursor }
    ensures shorter { room (state parser.new) ≤ room (state parser.old) }
    ensures after { parser.new.is_stopped ≡ false → level < 65 }
{
    parser.expect(Set::Word(Keyword::Goto), level);
    let label = parser.expect(Set::Name, level);
    parser.expect(Set::Sign(Sign::Semicolon), level);
    label
}

/// `Cases`: the cases of a `switch`, without its `default`.
#[tactic(auto, using(crate::proofs::StatementLaws::case_laws))]
fn cases(parser: &mut Parser<'_>, level: u32) -> Result<Items<Case>, NoMemory>
    ensures tree { IfOk result (λ cs. reads part.Cases level parser.old ≡ piece.with_cases cs (piece.default_of parser.new.end (names_of parser.new.names) level (state parser.new))) }
    ensures names { parser.new.names ≡ parser.old.names }
    ensures ends { parser.new.end ≡ parser.old.end }
    ensures stop { bad parser.new.cursor ≡ bad parser.old.cursor }
{
    let mut cases = Items::new(parser.alloc);
    'cases: while let Some(_) = parser.accept(Set::Word(Keyword::Case), level) {
        let number = signed_number(parser, level);
        parser.expect(Set::Sign(Sign::Colon), level);
        let label = goto_of(parser, level);
        cases.push(code::one_case(parser.alloc, number, label)?)?;
    }
    Ok(cases)
}

/// The `default` of a `switch`, by the name.
#[tactic(auto, unfolding(crate::specs::Pieces::default_of))]
fn default_of<'t>(parser: &mut Parser<'t>, level: u32) -> Token<'t>
    ensures tree { piece.default_of parser.old.end (names_of parser.old.names) level (state parser.old) ≡ Some (seen result, state parser.new) }
    ensures bears { (seen result).bytes ≡ result.text.now }
    ensures names { parser.new.names ≡ parser.old.names }
    ensures ends { parser.new.end ≡ parser.old.end }
    ensures stop { bad parser.new.cursor ≡ bad parser.old.cursor }
    ensures after { parser.new.is_stopped ≡ false → level < 65 }
{
    parser.expect(Set::Word(Keyword::Default), level);
    parser.expect(Set::Sign(Sign::Colon), level);
    goto_of(parser, level)
}

/// Whether a name of this role is a function of the library, and whether it takes a type first.
fn library_row(role: Role) -> Option<bool>
    ensures { result ≡ piece.takes_type (role_of role) }
{
    match role {
        Role::Row(takes_type) => Some(takes_type),
        _ => None,
    }
}

/// `*` before an operand.
fn star_prefix(star: Token<'_>) -> PrefixOperator
    requires { (seen star).terminal ≡ Of (kind.Sign sign.Star) }
    ensures same { result ≡ tree.sign_prefix (seen star.entry) }
    ensures place { piece.is_address result.prefix ≡ false }
{
    sign_prefix(star)
}

/// `:` and `;` behind the name of a label.
#[tactic(auto, unfolding(crate::specs::Pieces::label_behind))]
fn label_behind(parser: &mut Parser<'_>, level: u32, label: Token<'_>) -> Result<Stmt, NoMemory>
    ensures tree { IfOk result (λ s. piece.label_behind parser.old.end (names_of parser.old.names) (seen label.entry) level (state parser.old) ≡ Some (s, state parser.new)) }
    ensures names { OnOk result (names_of parser.new.names ≡ names_of parser.old.names) }
    ensures ends { parser.new.end ≡ parser.old.end }
    ensures stop { bad parser.new.cursor ≡ bad parser.old.cursor }
    ensures after { OnOk result (parser.new.is_stopped ≡ false → level < 65) }
{
    parser.expect(Set::Sign(Sign::Colon), level);
    parser.expect(Set::Sign(Sign::Semicolon), level);
    Ok(Stmt::Label(name(parser.alloc, label)?))
}

impl<F: Fn(&mut Parser<'_>, u32, Ask) -> Result<Reply, NoMemory>> Grammar<F> {
    /// `Statement`
    #[tactic(auto, using(crate::proofs::StatementLaws::statement_law))]
    pub fn statement(&self, parser: &mut Parser<'_>, level: u32) -> Result<Stmt, NoMemory>
        requires nests { Nests self.now.least (F.pre self.now.deep) (F.post self.now.deep) }
        requires low { level ≤ 65 }
        requires within { self.now.least ≤ level }
        requires open { parser.old.is_stopped ≡ false → level < 65 }
        ensures tree { IfOk result (λ s. reads part.Statement level parser.old ≡ Some (s, state parser.new)) }
        ensures names { OnOk result (names_of parser.new.names ≡ names_of parser.old.names) }
        ensures ends { parser.new.end ≡ parser.old.end }
        ensures stop { bad parser.new.cursor ≡ bad parser.old.cursor }
        ensures after { OnOk result (parser.new.is_stopped ≡ false → level < 65) }
    {
        match parser.accept(Set::Name, level) {
            Some(token) => self.named_stmt(parser, level, token),
            None => self.plain_stmt(parser, level),
        }
    }

    /// `NamedStmt`: what follows this name that a statement begins with.
    #[tactic(auto, using(crate::proofs::StatementLaws::named_law), unfolding(crate::specs::Pieces::named))]
    pub fn named_stmt<'t>(
        &self,
        parser: &mut Parser<'t>,
        level: u32,
        token: Token<'t>,
    ) -> Result<Stmt, NoMemory>
        requires nests { Nests self.now.least (F.pre self.now.deep) (F.post self.now.deep) }
        requires low { level ≤ 65 }
        requires within { self.now.least ≤ level }
        requires bears { (seen token).bytes ≡ token.text.now }
        ensures tree { IfOk result (λ s. reads (part.NamedStmt (seen token.entry)) level parser.old ≡ Some (s, state parser.new)) }
        ensures names { OnOk result (names_of parser.new.names ≡ names_of parser.old.names) }
        ensures ends { parser.new.end ≡ parser.old.end }
        ensures stop { bad parser.new.cursor ≡ bad parser.old.cursor }
        ensures after { OnOk result (parser.new.is_stopped ≡ false → level < 65) }
    {
        let role = parser.role(token);
        if can_be_type(false, role) || parser.next_in(Set::Sign(Sign::Colon)) {
            return label_behind(parser, level, token);
        }
        if let Some(takes_type) = library_row(role) {
            return self.row_behind(parser, level, None, token, takes_type);
        }
        let operand = operands::name_value(parser.alloc, role, token)?;
        self.value_stmt(parser, level, operand)
    }

    /// `PlainStmt`: a statement that begins with no name.
    #[tactic(auto, using(crate::proofs::StatementLaws::plain_law))]
    pub fn plain_stmt(&self, parser: &mut Parser<'_>, level: u32) -> Result<Stmt, NoMemory>
        requires nests { Nests self.now.least (F.pre self.now.deep) (F.post self.now.deep) }
        requires low { level ≤ 65 }
        requires within { self.now.least ≤ level }
        requires open { parser.old.is_stopped ≡ false → level < 65 }
        ensures tree { IfOk result (λ s. reads part.PlainStmt level parser.old ≡ Some (s, state parser.new)) }
        ensures names { OnOk result (names_of parser.new.names ≡ names_of parser.old.names) }
        ensures ends { parser.new.end ≡ parser.old.end }
        ensures stop { bad parser.new.cursor ≡ bad parser.old.cursor }
        ensures after { OnOk result (parser.new.is_stopped ≡ false → level < 65) }
    {
        if let Some(star) = parser.accept(Set::Sign(Sign::Star), level) {
            return self.star_behind(parser, level, star);
        }
        if let Some(opening) = parser.accept(Set::Sign(Sign::OpenParen), level + 1) {
            let operand = self.bracketed(parser, level, false, opening)?;
            return self.value_stmt(parser, level, operand);
        }
        if parser.next_in(Set::Unnamed) {
            let operand = self.unnamed(parser, level)?;
            return self.value_stmt(parser, level, operand);
        }
        if parser.next_in(Set::Sign(Sign::OpenBrace)) {
            return Ok(Stmt::Block(self.deep_block(parser, level)?));
        }
        self.word_stmt(parser, level)
    }

    // What follows `*`: the rest of a place, and what is stored to it.
    #[tactic(auto, using(crate::proofs::StatementLaws::star_law), unfolding(crate::specs::Statements::star_behind))]
    fn star_behind(
        &self,
        parser: &mut Parser<'_>,
        level: u32,
        star: Token<'_>,
    ) -> Result<Stmt, NoMemory>
        requires nests { Nests self.now.least (F.pre self.now.deep) (F.post self.now.deep) }
        requires low { level ≤ 65 }
        requires within { self.now.least ≤ level }
        requires star { (seen star).terminal ≡ Of (kind.Sign sign.Star) }
        ensures tree { IfOk result (λ s. star_behind parser.old.end (names_of parser.old.names) (seen star.entry) level (state parser.old) ≡ Some (s, state parser.new)) }
        ensures names { OnOk result (names_of parser.new.names ≡ names_of parser.old.names) }
        ensures ends { parser.new.end ≡ parser.old.end }
        ensures stop { bad parser.new.cursor ≡ bad parser.old.cursor }
        ensures after { OnOk result (parser.new.is_stopped ≡ false → level < 65) }
    {
        let place = self.prefixed_behind(parser, level, false, star_prefix(star))?;
        parser.expect(Set::Sign(Sign::Assign), level);
        self.assigned(parser, level, place)
    }

    // A statement that begins with a keyword.
    #[tactic(auto, unfolding(crate::specs::Pieces::word_stmt))]
    fn word_stmt(&self, parser: &mut Parser<'_>, level: u32) -> Result<Stmt, NoMemory>
        requires nests { Nests self.now.least (F.pre self.now.deep) (F.post self.now.deep) }
        requires low { level ≤ 65 }
        requires within { self.now.least ≤ level }
        ensures tree { IfOk result (λ s. piece.word_stmt parser.old.end (names_of parser.old.names) level (state parser.old) ≡ Some (s, state parser.new)) }
        ensures names { OnOk result (names_of parser.new.names ≡ names_of parser.old.names) }
        ensures ends { parser.new.end ≡ parser.old.end }
        ensures stop { bad parser.new.cursor ≡ bad parser.old.cursor }
        ensures after { OnOk result (parser.new.is_stopped ≡ false → level < 65) }
    {
        if let Some(_) = parser.accept(Set::Word(Keyword::If), level) {
            let value = self.value_inside(parser, level)?;
            return self.if_behind(parser, level, value);
        }
        if parser.next_in(Set::Word(Keyword::Goto)) {
            let label = goto_of(parser, level);
            return Ok(Stmt::Goto(name(parser.alloc, label)?));
        }
        if let Some(_) = parser.accept(Set::Word(Keyword::Switch), level) {
            let value = self.value_inside(parser, level)?;
            return self.switch_behind(parser, level, value);
        }
        let word = parser.expect(Set::Word(Keyword::Return), level);
        self.return_behind(parser, level, word)
    }

    // A value in brackets.
    #[tactic(auto, unfolding(crate::specs::Pieces::value_inside))]
    fn value_inside(&self, parser: &mut Parser<'_>, level: u32) -> Result<Boxed<Expr>, NoMemory>
        requires nests { Nests self.now.least (F.pre self.now.deep) (F.post self.now.deep) }
        requires low { level ≤ 65 }
        requires within { self.now.least ≤ level }
        ensures tree { IfOk result (λ tree. piece.value_inside parser.old.end (names_of parser.old.names) level (state parser.old) ≡ Some (tree, state parser.new)) }
        ensures names { OnOk result (names_of parser.new.names ≡ names_of parser.old.names) }
        ensures ends { parser.new.end ≡ parser.old.end }
        ensures stop { bad parser.new.cursor ≡ bad parser.old.cursor }
        ensures after { OnOk result (parser.new.is_stopped ≡ false → level < 65) }
    {
        parser.expect(Set::Sign(Sign::OpenParen), level + 1);
        let value = self.deep_value(parser, level, false)?;
        parser.expect(Set::Sign(Sign::CloseParen), level);
        Ok(value)
    }

    // What follows `if` and this value.
    #[tactic(auto, unfolding(crate::specs::Pieces::if_behind))]
    fn if_behind(
        &self,
        parser: &mut Parser<'_>,
        level: u32,
        value: Boxed<Expr>,
    ) -> Result<Stmt, NoMemory>
        requires nests { Nests self.now.least (F.pre self.now.deep) (F.post self.now.deep) }
        requires low { level ≤ 65 }
        requires within { self.now.least ≤ level }
        requires open { parser.old.is_stopped ≡ false → level < 65 }
        ensures tree { IfOk result (λ s. piece.if_behind parser.old.end (names_of parser.old.names) value level (state parser.old) ≡ Some (s, state parser.new)) }
        ensures names { OnOk result (names_of parser.new.names ≡ names_of parser.old.names) }
        ensures ends { parser.new.end ≡ parser.old.end }
        ensures stop { bad parser.new.cursor ≡ bad parser.old.cursor }
        ensures after { OnOk result (parser.new.is_stopped ≡ false → level < 65) }
    {
        if parser.next_in(Set::Word(Keyword::Goto)) {
            let label = goto_of(parser, level);
            return Ok(Stmt::IfGoto(value.into_inner(), name(parser.alloc, label)?));
        }
        let yes = self.deep_block(parser, level)?;
        self.else_behind(parser, level, value, yes)
    }

    // What follows `if`, this value and this block.
    #[tactic(auto, unfolding(crate::specs::Pieces::else_of))]
    fn else_behind(
        &self,
        parser: &mut Parser<'_>,
        level: u32,
        value: Boxed<Expr>,
        yes: Block,
    ) -> Result<Stmt, NoMemory>
        requires nests { Nests self.now.least (F.pre self.now.deep) (F.post self.now.deep) }
        requires low { level ≤ 65 }
        requires within { self.now.least ≤ level }
        requires open { parser.old.is_stopped ≡ false → level < 65 }
        ensures tree { IfOk result (λ s. piece.else_of parser.old.end (names_of parser.old.names) value yes level (state parser.old) ≡ Some (s, state parser.new)) }
        ensures names { OnOk result (names_of parser.new.names ≡ names_of parser.old.names) }
        ensures ends { parser.new.end ≡ parser.old.end }
        ensures stop { bad parser.new.cursor ≡ bad parser.old.cursor }
        ensures after { OnOk result (parser.new.is_stopped ≡ false → level < 65) }
    {
        match parser.accept(Set::Word(Keyword::Else), level) {
            Some(_) => {
                let no = self.deep_block(parser, level)?;
                Ok(Stmt::If(value.into_inner(), yes, Some(no)))
            }
            None => Ok(Stmt::If(value.into_inner(), yes, None)),
        }
    }

    // What follows `switch` and this value.
    #[tactic(auto, unfolding(crate::specs::Pieces::switch_behind), using(crate::proofs::StatementLaws::with_some))]
    fn switch_behind(
        &self,
        parser: &mut Parser<'_>,
        level: u32,
        value: Boxed<Expr>,
    ) -> Result<Stmt, NoMemory>
        requires low { level ≤ 65 }
        ensures tree { IfOk result (λ s. piece.switch_behind parser.old.end (names_of parser.old.names) value level (state parser.old) ≡ Some (s, state parser.new)) }
        ensures names { OnOk result (names_of parser.new.names ≡ names_of parser.old.names) }
        ensures ends { parser.new.end ≡ parser.old.end }
        ensures stop { bad parser.new.cursor ≡ bad parser.old.cursor }
        ensures after { OnOk result (parser.new.is_stopped ≡ false → level < 65) }
    {
        parser.expect(Set::Sign(Sign::OpenBrace), level + 1);
        let cases = cases(parser, level + 1)?;
        let last = default_of(parser, level + 1);
        parser.expect(Set::Sign(Sign::CloseBrace), level);
        Ok(Stmt::Switch(value.into_inner(), cases, name(parser.alloc, last)?))
    }

    // What follows `return`.
    #[tactic(auto, unfolding(crate::specs::Pieces::return_behind))]
    fn return_behind(
        &self,
        parser: &mut Parser<'_>,
        level: u32,
        word: Token<'_>,
    ) -> Result<Stmt, NoMemory>
        requires nests { Nests self.now.least (F.pre self.now.deep) (F.post self.now.deep) }
        requires low { level ≤ 65 }
        requires within { self.now.least ≤ level }
        ensures tree { IfOk result (λ s. piece.return_behind parser.old.end (names_of parser.old.names) (seen word.entry) level (state parser.old) ≡ Some (s, state parser.new)) }
        ensures names { OnOk result (names_of parser.new.names ≡ names_of parser.old.names) }
        ensures ends { parser.new.end ≡ parser.old.end }
        ensures stop { bad parser.new.cursor ≡ bad parser.old.cursor }
        ensures after { OnOk result (parser.new.is_stopped ≡ false → level < 65) }
    {
        if let Some(_) = parser.accept(Set::Sign(Sign::Semicolon), level) {
            return Ok(Stmt::Return(at(word), None));
        }
        let value = self.value(parser, level, false)?;
        parser.expect(Set::Sign(Sign::Semicolon), level);
        Ok(Stmt::Return(at(word), Some(value.into_inner())))
    }
}
