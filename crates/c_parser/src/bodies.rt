// Blocks: declarations, and then statements in their scope.

ghost use Rattle.std.specs.Prelude.{◌≡◌, ◌-◌, length, drop, None, ◌<◌, ◌≤◌, ◌+◌, false, IfOk, OnOk, Some};
ghost use Rattle.c_grammar.specs.Parts as part;
ghost use Rattle.c_nodes.specs.Seen.{seen};
ghost use Rattle.c_parser.specs.Asks.{Nests};
ghost use Rattle.c_cursor.specs.Gives.{reads, state};
ghost use Rattle.c_parser.specs.Pieces as piece;
ghost use Rattle.c_cursor.specs.Scopes.{names_of};
ghost use Rattle.c_cursor.specs.State.{bad};
ghost use Rattle.c_parser.specs.Bodies.{Begins, Grown, Shrinks};
ghost use Rattle.c_cursor.specs.Gives.{room};
ghost use Rattle.c_cursor.specs.Reading.{first_then};

use crate::asks::{Ask, Grammar, Reply};
use crate::types::{any_type, base_alone, key_type, type_more};
use c_cursor::{NoMemory, Parser, Set, can_be_type};
use c_lexer::Sign;
use c_nodes::{Role, Token, code};
use c_tree::{Block, CType, Local, Stmt};
use sqlite_items::Items;

/// A declaration, and its name.
#[derive(Drop)]
struct NamedLocal<'t> {
    local: Local,
    name: Token<'t>,
}

/// The first part of what is left of a body.
#[derive(Drop)]
enum Begun<'t> {
    Local(NamedLocal<'t>),
    Statement(Stmt),
    Nothing,
}

/// Declarations, and the statements behind them.
#[derive(Drop)]
struct Body {
    locals: Items<Local>,
    statements: Items<Stmt>,
}

// The name of a declaration and `;`, behind its type.
#[tactic(auto, unfolding(crate::specs::Pieces::local_end))]
fn local_end<'t>(
    parser: &mut Parser<'t>,
    level: u32,
    declared: CType,
) -> Result<NamedLocal<'t>, NoMemory>
    ensures tree { IfOk result (λ n. piece.local_end parser.old.end (names_of parser.old.names) declared level (state parser.old) ≡ Some (n.local, state parser.new)) }
    ensures same { IfOk result (λ n. n.local.name.text ≡ n.name.text.now) }
    ensures names { OnOk result (parser.new.names ≡ parser.old.names) }
    ensures ends { parser.new.end ≡ parser.old.end }
    ensures stop { bad parser.new.cursor ≡ bad parser.old.cursor }
    ensures shorter { room (state parser.new) ≤ room (state parser.old) }
    ensures after { parser.new.is_stopped ≡ false → level < 65 }
{
    let name = parser.expect(Set::Name, level);
    parser.expect(Set::Sign(Sign::Semicolon), level);
    Ok(NamedLocal {
        local: code::local(parser.alloc, declared, name)?,
        name,
    })
}

/// `Fields`: the fields of a struct.
#[tactic(auto, using(crate::proofs::BodyLaws::fields_law, crate::proofs::Thens::list_laws, crate::proofs::Progress::any_type_moves))]
pub fn fields(parser: &mut Parser<'_>, level: u32) -> Result<Items<Local>, NoMemory>
    ensures tree { IfOk result (λ ls. reads part.Fields level parser.old ≡ Some (ls, state parser.new)) }
    ensures names { OnOk result (parser.new.names ≡ parser.old.names) }
    ensures ends { parser.new.end ≡ parser.old.end }
    ensures stop { bad parser.new.cursor ≡ bad parser.old.cursor }
{
    let mut fields = Items::new(parser.alloc);
    'fields: while parser.next_in(Set::Type(true)) {
        let declared = any_type(parser, level, true, true)?;
        fields.push(local_end(parser, level, declared)?.local)?;
    }
    Ok(fields)
}

/// `LocalRest`: what follows this name as the base of the type of a declaration.
#[tactic(auto, using(crate::proofs::BodyLaws::local_rest_law))]
fn local_rest<'t>(
    parser: &mut Parser<'t>,
    level: u32,
    base: Token<'t>,
) -> Result<NamedLocal<'t>, NoMemory>
    ensures tree { IfOk result (λ n. reads (part.LocalRest (seen base.entry)) level parser.old ≡ Some (n.local, state parser.new)) }
    ensures same { IfOk result (λ n. n.local.name.text ≡ n.name.text.now) }
    ensures names { OnOk result (parser.new.names ≡ parser.old.names) }
    ensures ends { parser.new.end ≡ parser.old.end }
    ensures stop { bad parser.new.cursor ≡ bad parser.old.cursor }
    ensures after { OnOk result (parser.new.is_stopped ≡ false → level < 65) }
{
    let declared = if parser.next_in(Set::TypeMore) {
        type_more(parser, level, None, base)?
    } else {
        base_alone(parser, None, base)?
    };
    local_end(parser, level, declared)
}

impl<F: Fn(&mut Parser<'_>, u32, Ask) -> Result<Reply, NoMemory>> Grammar<F> {
    /// `BlockOf`: a block.
    #[tactic(auto, using(crate::proofs::BodyLaws::block_law))]
    pub fn block(&self, parser: &mut Parser<'_>, level: u32) -> Result<Block, NoMemory>
        requires nests { Nests self.now.least (F.pre self.now.deep) (F.post self.now.deep) }
        requires low { level ≤ 64 }
        requires within { self.now.least ≤ level + 1 }
        ensures tree { IfOk result (λ tree. reads part.BlockOf level parser.old ≡ Some (tree, state parser.new)) }
        ensures names { OnOk result (names_of parser.new.names ≡ names_of parser.old.names) }
        ensures ends { parser.new.end ≡ parser.old.end }
        ensures stop { bad parser.new.cursor ≡ bad parser.old.cursor }
        ensures after { OnOk result (parser.new.is_stopped ≡ false → level < 65) }
    {
        let opening = parser.expect(Set::Sign(Sign::OpenBrace), level + 1);
        let scope = parser.names.len();
        let body = self.body(parser, level + 1)?;
        parser.names.truncate(scope);
        let close = parser.expect(Set::Sign(Sign::CloseBrace), level);
        Ok(code::block(opening, body.locals, body.statements, close))
    }

    /// `Body`: declarations, and then statements.
    #[tactic(auto, using(crate::proofs::BodyLaws::locals_laws, crate::proofs::BodyLaws::scope_laws))]
    fn body(&self, parser: &mut Parser<'_>, level: u32) -> Result<Body, NoMemory>
        requires nests { Nests self.now.least (F.pre self.now.deep) (F.post self.now.deep) }
        requires low { level ≤ 65 }
        requires within { self.now.least ≤ level }
        requires open { parser.old.is_stopped ≡ false → level < 65 }
        ensures tree { IfOk result (λ b. reads part.Body level parser.old ≡ Some ((b.locals, b.statements), state parser.new)) }
        ensures scope { OnOk result (Grown (names_of parser.old.names) (names_of parser.new.names)) }
        ensures ends { parser.new.end ≡ parser.old.end }
        ensures stop { bad parser.new.cursor ≡ bad parser.old.cursor }
    {
        let mut locals = Items::new(parser.alloc);
        'locals: loop {
            match self.begun(parser, level)? {
                Begun::Local(next) => {
                    parser.names.declare(next.name.text, Role::Variable)?;
                    locals.push(next.local)?;
                }
                Begun::Statement(first) => {
                    let statements = self.statements(parser, level, first)?;
                    return Ok(Body { locals, statements });
                }
                Begun::Nothing => {
                    let statements = Items::new(parser.alloc);
                    return Ok(Body { locals, statements });
                }
            }
        }
    }

    // The next declaration, or the first statement.
    #[tactic(auto, using(crate::proofs::BodyLaws::body_law, crate::proofs::Progress::key_type_moves, crate::proofs::Progress::stays))]
    fn begun<'t>(&self, parser: &mut Parser<'t>, level: u32) -> Result<Begun<'t>, NoMemory>
        requires nests { Nests self.now.least (F.pre self.now.deep) (F.post self.now.deep) }
        requires low { level ≤ 65 }
        requires within { self.now.least ≤ level }
        requires open { parser.old.is_stopped ≡ false → level < 65 }
        ensures tree { IfOk result (λ b. Begins (reads part.Body level parser.old) level b parser.new) }
        ensures names { OnOk result (names_of parser.new.names ≡ names_of parser.old.names) }
        ensures ends { parser.new.end ≡ parser.old.end }
        ensures stop { bad parser.new.cursor ≡ bad parser.old.cursor }
        ensures after { OnOk result (parser.new.is_stopped ≡ false → level < 65) }
        ensures shorter { IfOk result (λ b. Shrinks b (room (state parser.old)) (room (state parser.new))) }
    {
        if parser.next_in(Set::KeyType) {
            let declared = key_type(parser, level)?;
            return Ok(Begun::Local(local_end(parser, level, declared)?));
        }
        if let Some(token) = parser.accept(Set::Name, level) {
            return self.begun_by_name(parser, level, token);
        }
        if parser.next_in(Set::Plain) {
            return Ok(Begun::Statement(self.plain_stmt(parser, level)?));
        }
        Ok(Begun::Nothing)
    }

    #[tactic(auto, using(crate::proofs::Progress::stays), unfolding(crate::specs::Pieces::body_named))]
    fn begun_by_name<'t>(
        &self,
        parser: &mut Parser<'t>,
        level: u32,
        token: Token<'t>,
    ) -> Result<Begun<'t>, NoMemory>
        requires nests { Nests self.now.least (F.pre self.now.deep) (F.post self.now.deep) }
        requires low { level ≤ 65 }
        requires within { self.now.least ≤ level }
        requires bears { (seen token).bytes ≡ token.text.now }
        ensures tree { IfOk result (λ b. Begins (piece.body_named parser.old.end (names_of parser.old.names) (seen token.entry) level (state parser.old)) level b parser.new) }
        ensures names { OnOk result (names_of parser.new.names ≡ names_of parser.old.names) }
        ensures ends { parser.new.end ≡ parser.old.end }
        ensures stop { bad parser.new.cursor ≡ bad parser.old.cursor }
        ensures after { OnOk result (parser.new.is_stopped ≡ false → level < 65) }
        ensures shorter { OnOk result (room (state parser.new) ≤ room (state parser.old)) }
    {
        if can_be_type(true, parser.role(token)) && parser.next_in(Set::LocalMore) {
            return Ok(Begun::Local(local_rest(parser, level, token)?));
        }
        Ok(Begun::Statement(self.named_stmt(parser, level, token)?))
    }

    /// `Statements`, behind this one.
    #[tactic(auto, using(crate::proofs::BodyLaws::statements_law, crate::proofs::BodyLaws::first_is, crate::proofs::Thens::list_laws, crate::proofs::Progress::statement_moves))]
    fn statements(
        &self,
        parser: &mut Parser<'_>,
        level: u32,
        first: Stmt,
    ) -> Result<Items<Stmt>, NoMemory>
        requires nests { Nests self.now.least (F.pre self.now.deep) (F.post self.now.deep) }
        requires low { level ≤ 65 }
        requires within { self.now.least ≤ level }
        requires open { parser.old.is_stopped ≡ false → level < 65 }
        ensures tree { IfOk result (λ xs. first_then first (reads part.Statements level parser.old) ≡ Some (xs, state parser.new)) }
        ensures names { OnOk result (names_of parser.new.names ≡ names_of parser.old.names) }
        ensures ends { parser.new.end ≡ parser.old.end }
        ensures stop { bad parser.new.cursor ≡ bad parser.old.cursor }
    {
        let mut statements = Items::new(parser.alloc);
        statements.push(first)?;
        'statements: while parser.next_in(Set::Statement) {
            statements.push(self.statement(parser, level)?)?;
        }
        Ok(statements)
    }
}
