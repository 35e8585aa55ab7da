// Items that begin with `static`: variables, tables and functions.

ghost use Rattle.std.specs.Prelude.{◌≡◌, ◌<◌, ◌≤◌, ◌+◌, false, IfOk, OnOk, Some};
ghost use Rattle.c_grammar.specs.Parts as part;
ghost use Rattle.c_nodes.specs.Seen.{seen};
ghost use Rattle.c_tree.specs.Names.{with_item};
ghost use Rattle.c_tree.specs.Types as types;
ghost use Rattle.c_cursor.specs.Gives.{reads, state};
ghost use Rattle.c_parser.specs.Pieces as piece;
ghost use Rattle.c_parser.specs.Statics as statics;
ghost use Rattle.c_cursor.specs.Scopes.{names_of};
ghost use Rattle.c_cursor.specs.State.{bad};

use crate::declarations::{Head, declared_of};
use crate::reader::read_constant;
use crate::types::{base_alone, consts, type_more, type_rest};
use c_cursor::{NoMemory, Parser, Set, can_be_type, is_info, is_main};
use c_lexer::{Keyword, Sign};
use c_nodes::names::{at, name as name_of};
use c_nodes::{Role, Token};
use c_tree::{Base, CType, InterfaceTable, Item, Span, StaticVariable};

// A type that something can have: any but `void` itself.
fn is_object(declared: &CType) -> bool
    ensures { result ≡ types.is_object declared.now }
{
    !matches!(declared.base, Base::Void) || declared.stars != 0
}

// The value of a static variable.
#[tactic(auto, unfolding(crate::specs::Pieces::variable_behind))]
fn variable_behind<'t>(
    parser: &mut Parser<'t>,
    level: u32,
    declared: CType,
    token: Token<'t>,
) -> Result<Item, NoMemory>
    requires top { level ≡ 0 }
    requires bears { (seen token).bytes ≡ token.text.now }
    ensures tree { IfOk result (λ i. piece.variable_behind parser.old.end (names_of parser.old.names) declared (seen token.entry) level (state parser.old) ≡ Some (i, state parser.new)) }
    ensures names { IfOk result (λ i. names_of parser.new.names ≡ with_item (names_of parser.old.names) i) }
    ensures ends { parser.new.end ≡ parser.old.end }
    ensures stop { bad parser.new.cursor ≡ bad parser.old.cursor }
{
    let value = read_constant(parser)?;
    parser.expect(Set::Sign(Sign::Semicolon), level);
    parser.names.declare(token.text, Role::Variable)?;
    Ok(Item::Variable(StaticVariable {
        declared,
        name: name_of(parser.alloc, token)?,
        value: value.into_inner(),
    }))
}

// `(GInterfaceInitFunc)`.
#[tactic(auto, unfolding(crate::specs::Statics::init_word))]
fn init_word<'t>(parser: &mut Parser<'t>, level: u32) -> Token<'t>
    requires low { level ≤ 65 }
    ensures tree { statics.init_word parser.old.end (names_of parser.old.names) level (state parser.old) ≡ Some (seen result, state parser.new) }
    ensures names { parser.new.names ≡ parser.old.names }
    ensures ends { parser.new.end ≡ parser.old.end }
    ensures stop { bad parser.new.cursor ≡ bad parser.old.cursor }
{
    parser.expect(Set::Sign(Sign::OpenParen), level + 1);
    parser.expect(Set::InitFunc, level + 1);
    parser.expect(Set::Sign(Sign::CloseParen), level)
}

// `, NULL`.
#[tactic(auto, unfolding(crate::specs::Statics::comma_null))]
fn comma_null<'t>(parser: &mut Parser<'t>, level: u32) -> Token<'t>
    ensures tree { statics.comma_null parser.old.end (names_of parser.old.names) level (state parser.old) ≡ Some (seen result, state parser.new) }
    ensures names { parser.new.names ≡ parser.old.names }
    ensures ends { parser.new.end ≡ parser.old.end }
    ensures stop { bad parser.new.cursor ≡ bad parser.old.cursor }
{
    parser.expect(Set::Sign(Sign::Comma), level);
    parser.expect(Set::Null, level)
}

/// `TableInside`: what stands in the braces of a table, by the name of the function.
#[tactic(auto, using(crate::proofs::StaticLaws::table_steps))]
fn table_inside<'t>(parser: &mut Parser<'t>, level: u32) -> Token<'t>
    requires low { level ≤ 65 }
    ensures tree { reads part.TableInside level parser.old ≡ Some (seen result, state parser.new) }
    ensures names { parser.new.names ≡ parser.old.names }
    ensures ends { parser.new.end ≡ parser.old.end }
    ensures stop { bad parser.new.cursor ≡ bad parser.old.cursor }
{
    init_word(parser, level);
    let function = parser.expect(Set::Name, level);
    comma_null(parser, level);
    comma_null(parser, level);
    function
}

// The braces of a table.
#[tactic(auto, unfolding(crate::specs::Pieces::table_behind))]
fn table_behind<'t>(parser: &mut Parser<'t>, level: u32, token: Token<'t>) -> Result<Item, NoMemory>
    requires top { level ≡ 0 }
    requires bears { (seen token).bytes ≡ token.text.now }
    ensures tree { IfOk result (λ i. piece.table_behind parser.old.end (names_of parser.old.names) (seen token.entry) level (state parser.old) ≡ Some (i, state parser.new)) }
    ensures names { IfOk result (λ i. names_of parser.new.names ≡ with_item (names_of parser.old.names) i) }
    ensures ends { parser.new.end ≡ parser.old.end }
    ensures stop { bad parser.new.cursor ≡ bad parser.old.cursor }
{
    parser.expect(Set::Sign(Sign::OpenBrace), level + 1);
    let function = table_inside(parser, level + 1);
    parser.expect(Set::Sign(Sign::CloseBrace), level);
    parser.expect(Set::Sign(Sign::Semicolon), level);
    parser.names.declare(token.text, Role::Variable)?;
    Ok(Item::InterfaceTable(InterfaceTable {
        name: name_of(parser.alloc, token)?,
        init: name_of(parser.alloc, function)?,
    }))
}

// Whether `=` follows the name of a static item. What is named `main` and is no function has a value.
#[tactic(auto, unfolding(crate::specs::Statics::assigned))]
fn is_assigned<'t>(parser: &mut Parser<'t>, level: u32, object: bool, token: Token<'t>) -> bool
    requires bears { (seen token).bytes ≡ token.text.now }
    ensures tree { statics.assigned parser.old.end (names_of parser.old.names) object (seen token.entry) level (state parser.old) ≡ Some (result, state parser.new) }
    ensures names { parser.new.names ≡ parser.old.names }
    ensures ends { parser.new.end ≡ parser.old.end }
    ensures stop { bad parser.new.cursor ≡ bad parser.old.cursor }
{
    if !object {
        return false;
    }
    if is_main(token.text) {
        parser.expect(Set::Sign(Sign::Assign), level);
        return true;
    }
    parser.accept(Set::Sign(Sign::Assign), level).is_some()
}

// What stands behind `=`: a table where that may be, or a value.
fn value_behind<'t>(
    parser: &mut Parser<'t>,
    level: u32,
    declared: CType,
    token: Token<'t>,
    may_be_table: bool,
) -> Result<Item, NoMemory>
    requires top { level ≡ 0 }
    requires bears { (seen token).bytes ≡ token.text.now }
    ensures tree { IfOk result (λ i. piece.value_behind parser.old.end (names_of parser.old.names) may_be_table declared (seen token.entry) level (state parser.old) ≡ Some (i, state parser.new)) }
    ensures names { IfOk result (λ i. names_of parser.new.names ≡ with_item (names_of parser.old.names) i) }
    ensures ends { parser.new.end ≡ parser.old.end }
    ensures stop { bad parser.new.cursor ≡ bad parser.old.cursor }
{
    if may_be_table && parser.next_in(Set::Sign(Sign::OpenBrace)) {
        return table_behind(parser, level, token);
    }
    variable_behind(parser, level, declared, token)
}

/// `StaticEnd`: what follows the type of a static item, which may be a table or not.
#[tactic(auto, using(crate::proofs::StaticLaws::static_steps))]
fn static_end<'t>(
    parser: &mut Parser<'t>,
    level: u32,
    word: Token<'t>,
    declared: CType,
    may_be_table: bool,
) -> Result<Item, NoMemory>
    requires top { level ≡ 0 }
    ensures tree { IfOk result (λ i. piece.static_end parser.old.end (names_of parser.old.names) (seen word.entry) declared may_be_table level (state parser.old) ≡ Some (i, state parser.new)) }
    ensures names { IfOk result (λ i. names_of parser.new.names ≡ with_item (names_of parser.old.names) i) }
    ensures ends { parser.new.end ≡ parser.old.end }
    ensures stop { bad parser.new.cursor ≡ bad parser.old.cursor }
{
    let object = is_object(&declared);
    let name = parser.expect(Set::FreeName(object), level);
    if is_assigned(parser, level, object, name) {
        return value_behind(parser, level, declared, name, may_be_table);
    }
    let head = Head {
        is_static: true,
        declared,
        name,
        start: word.start,
    };
    declared_of(parser, level, head)
}

/// `InfoEnd`: what follows `static const GInterfaceInfo`.
#[tactic(auto, unfolding(crate::specs::Pieces::info_end), using(crate::proofs::StaticLaws::static_end_law))]
fn info_end<'t>(
    parser: &mut Parser<'t>,
    level: u32,
    word: Token<'t>,
    before: Option<Span>,
    info: Token<'t>,
) -> Result<Item, NoMemory>
    requires top { level ≡ 0 }
    requires bears { (seen info).bytes ≡ info.text.now }
    ensures tree { IfOk result (λ i. piece.info_end parser.old.end (names_of parser.old.names) (seen word.entry) before (seen info.entry) level (state parser.old) ≡ Some (i, state parser.new)) }
    ensures names { IfOk result (λ i. names_of parser.new.names ≡ with_item (names_of parser.old.names) i) }
    ensures ends { parser.new.end ≡ parser.old.end }
    ensures stop { bad parser.new.cursor ≡ bad parser.old.cursor }
{
    if !can_be_type(true, parser.role(info)) {
        let token = parser.expect(Set::Name, level);
        parser.expect(Set::Sign(Sign::Assign), level);
        return table_behind(parser, level, token);
    }
    if parser.next_in(Set::TypeMore) {
        let declared = type_more(parser, level, before, info)?;
        return static_end(parser, level, word, declared, false);
    }
    let declared = base_alone(parser, before, info)?;
    static_end(parser, level, word, declared, true)
}

/// `StaticRest`: what follows `static`.
#[tactic(auto, unfolding(crate::specs::Pieces::static_named), using(crate::proofs::StaticLaws::static_law))]
pub fn static_rest<'t>(
    parser: &mut Parser<'t>,
    level: u32,
    word: Token<'t>,
) -> Result<Item, NoMemory>
    requires top { level ≡ 0 }
    ensures tree { IfOk result (λ i. reads (part.StaticRest (seen word.entry)) level parser.old ≡ Some (i, state parser.new)) }
    ensures names { IfOk result (λ i. names_of parser.new.names ≡ with_item (names_of parser.old.names) i) }
    ensures ends { parser.new.end ≡ parser.old.end }
    ensures stop { bad parser.new.cursor ≡ bad parser.old.cursor }
{
    let Some(first) = parser.accept(Set::Word(Keyword::Const), level) else {
        let base = parser.expect(Set::Base(true), level);
        return static_type(parser, level, word, None, base);
    };
    let before = Some(at(first));
    if let Some(name) = parser.accept(Set::InfoOrType, level) {
        if is_info(name.text) {
            return info_end(parser, level, word, before, name);
        }
        return static_type(parser, level, word, before, name);
    }
    match consts(parser, level) {
        Some(others) => {
            let base = parser.expect(Set::Base(true), level);
            let before = Some(Span {
                start: first.start,
                end: others.end,
            });
            static_type(parser, level, word, before, base)
        }
        None => {
            let base = parser.expect(Set::KeyBase, level);
            static_type(parser, level, word, before, base)
        }
    }
}

// The type of a static item, from its base on.
#[tactic(auto, unfolding(crate::specs::Pieces::static_type), using(crate::proofs::StaticLaws::static_end_law))]
fn static_type<'t>(
    parser: &mut Parser<'t>,
    level: u32,
    word: Token<'t>,
    before: Option<Span>,
    base: Token<'t>,
) -> Result<Item, NoMemory>
    requires top { level ≡ 0 }
    ensures tree { IfOk result (λ i. piece.static_type parser.old.end (names_of parser.old.names) (seen word.entry) before (seen base.entry) level (state parser.old) ≡ Some (i, state parser.new)) }
    ensures names { IfOk result (λ i. names_of parser.new.names ≡ with_item (names_of parser.old.names) i) }
    ensures ends { parser.new.end ≡ parser.old.end }
    ensures stop { bad parser.new.cursor ≡ bad parser.old.cursor }
{
    let declared = type_rest(parser, level, before, base, false)?;
    static_end(parser, level, word, declared, false)
}
