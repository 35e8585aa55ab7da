// Items that begin with `typedef` or `struct`: types.

ghost use Rattle.std.specs.Prelude.{◌≡◌, ◌<◌, ◌≤◌, ◌+◌, false, IfOk, OnOk, Some};
ghost use Rattle.c_grammar.specs.Parts as part;
ghost use Rattle.c_nodes.specs.Seen.{seen};
ghost use Rattle.c_tree.specs.Make.{name_at};
ghost use Rattle.c_tree.specs.Names.{MemberName, declared, with_item, with_members};
ghost use Rattle.c_grammar.specs.Trees as tree;
ghost use Rattle.std.specs.Prelude.{◌∷◌};
ghost use Rattle.c_cursor.specs.Gives.{reads, state};
ghost use Rattle.c_parser.specs.Pieces as piece;
ghost use Rattle.c_parser.specs.Statics as statics;
ghost use Rattle.c_cursor.specs.Scopes.{names_of};
ghost use Rattle.c_cursor.specs.State.{bad};

use crate::bodies::fields;
use crate::parameters::{Parameters, read_parameters};
use crate::statements::signed_number;
use crate::types::any_type;
use c_cursor::{NoMemory, Parser, Set};
use c_lexer::{Keyword, Sign};
use c_nodes::items::{signature, struct_name};
use c_nodes::names::name;
use c_nodes::{Meaning, Role, Token};
use c_tree::{CType, Enumeration, Item, Member, Signature, StructDefinition};
use sqlite_items::Items;

// The letters of a tag behind the first.
fn behind_first(tag: &[u8]) -> &[u8]
    ensures { result.now ≡ tree.behind_first tag.now }
{
    match tag {
        [] => b"",
        [_, letters @ ..] => letters,
    }
}

// The name of a struct, by its tag.
fn named_by<'t>(parser: &mut Parser<'t>, level: u32, tag: Token<'t>) -> Token<'t>
    requires bears { (seen tag).bytes ≡ tag.text.now }
    ensures tree { piece.tag_named parser.old.end (seen tag.entry) level (state parser.old) ≡ Some (seen result, state parser.new) }
    ensures bears { (seen result).bytes ≡ result.text.now }
    ensures names { parser.new.names ≡ parser.old.names }
    ensures ends { parser.new.end ≡ parser.old.end }
    ensures stop { bad parser.new.cursor ≡ bad parser.old.cursor }
{
    parser.expect(Set::NameOf(behind_first(tag.text)), level)
}

// `_X X;` behind `typedef struct`.
#[tactic(auto, unfolding(crate::specs::Pieces::struct_type))]
fn struct_type(parser: &mut Parser<'_>, level: u32) -> Result<Item, NoMemory>
    ensures tree { IfOk result (λ i. piece.struct_type parser.old.end (names_of parser.old.names) level (state parser.old) ≡ Some (i, state parser.new)) }
    ensures names { IfOk result (λ i. names_of parser.new.names ≡ with_item (names_of parser.old.names) i) }
    ensures ends { parser.new.end ≡ parser.old.end }
    ensures stop { bad parser.new.cursor ≡ bad parser.old.cursor }
{
    let tag = parser.expect(Set::Tag, level);
    let token = named_by(parser, level, tag);
    parser.expect(Set::Sign(Sign::Semicolon), level);
    parser
        .names
        .declare(token.text, Role::Type(Meaning::Another))?;
    Ok(Item::StructType(name(parser.alloc, token)?))
}

/// `MemberOf`: `A = n`
#[tactic(auto, using(crate::proofs::ItemLaws::member_law))]
fn member(parser: &mut Parser<'_>, level: u32) -> Result<Member, NoMemory>
    ensures tree { IfOk result (λ m. reads part.MemberOf level parser.old ≡ Some (m, state parser.new)) }
    ensures names { IfOk result (λ m. names_of parser.new.names ≡ declared m.name MemberName ∷ names_of parser.old.names) }
    ensures ends { parser.new.end ≡ parser.old.end }
    ensures stop { bad parser.new.cursor ≡ bad parser.old.cursor }
{
    let token = parser.expect(Set::Name, level);
    parser.expect(Set::Sign(Sign::Assign), level);
    let number = signed_number(parser, level);
    parser.names.declare(token.text, Role::Member)?;
    Ok(Member {
        name: name(parser.alloc, token)?,
        number,
    })
}

/// `Members`: members with commas between.
#[tactic(auto, using(crate::proofs::MemberLaws::members_start, crate::proofs::MemberLaws::members_step, crate::proofs::MemberLaws::members_stop, crate::proofs::ItemLaws::with_members_more, crate::proofs::Progress::stays))]
fn members(parser: &mut Parser<'_>, level: u32) -> Result<Items<Member>, NoMemory>
    ensures tree { IfOk result (λ ms. reads part.Members level parser.old ≡ Some (ms, state parser.new)) }
    ensures names { IfOk result (λ ms. names_of parser.new.names ≡ with_members (names_of parser.old.names) ms) }
    ensures ends { parser.new.end ≡ parser.old.end }
    ensures stop { bad parser.new.cursor ≡ bad parser.old.cursor }
{
    let mut members = Items::new(parser.alloc);
    members.push(member(parser, level)?)?;
    'members: while let Some(_) = parser.accept(Set::Sign(Sign::Comma), level) {
        members.push(member(parser, level)?)?;
    }
    Ok(members)
}

// `{ members } X;` behind `typedef enum`.
#[tactic(auto, using(crate::proofs::MemberLaws::enumeration_end))]
fn enumeration(parser: &mut Parser<'_>, level: u32) -> Result<Item, NoMemory>
    requires low { level ≤ 65 }
    ensures tree { IfOk result (λ i. piece.enumeration parser.old.end (names_of parser.old.names) level (state parser.old) ≡ Some (i, state parser.new)) }
    ensures names { IfOk result (λ i. names_of parser.new.names ≡ with_item (names_of parser.old.names) i) }
    ensures ends { parser.new.end ≡ parser.old.end }
    ensures stop { bad parser.new.cursor ≡ bad parser.old.cursor }
{
    parser.expect(Set::Sign(Sign::OpenBrace), level + 1);
    let members = members(parser, level + 1)?;
    parser.expect(Set::Sign(Sign::CloseBrace), level);
    let token = parser.expect(Set::Name, level);
    parser.expect(Set::Sign(Sign::Semicolon), level);
    parser.names.declare(token.text, Role::Type(Meaning::Int))?;
    Ok(Item::Enumeration(Enumeration {
        members,
        name: name(parser.alloc, token)?,
    }))
}

// `(*F)`, by the name.
#[tactic(auto, unfolding(crate::specs::Statics::pointed_name))]
fn pointed_name<'t>(parser: &mut Parser<'t>, level: u32) -> Token<'t>
    requires low { level ≤ 65 }
    ensures tree { statics.pointed_name parser.old.end (names_of parser.old.names) level (state parser.old) ≡ Some (seen result, state parser.new) }
    ensures bears { (seen result).bytes ≡ result.text.now }
    ensures names { parser.new.names ≡ parser.old.names }
    ensures ends { parser.new.end ≡ parser.old.end }
    ensures stop { bad parser.new.cursor ≡ bad parser.old.cursor }
{
    parser.expect(Set::Sign(Sign::OpenParen), level + 1);
    parser.expect(Set::Sign(Sign::Star), level + 1);
    let name = parser.expect(Set::Name, level + 1);
    parser.expect(Set::Sign(Sign::CloseParen), level);
    name
}

// `(parameters)` behind the name of the type of a function that gives this type.
#[tactic(auto, unfolding(crate::specs::Statics::type_signature))]
fn type_signature<'t>(
    parser: &mut Parser<'t>,
    level: u32,
    declared: CType,
    name: Token<'t>,
    start: u32,
) -> Result<Signature, NoMemory>
    requires low { level ≤ 65 }
    ensures tree { IfOk result (λ x. statics.type_signature parser.old.end (names_of parser.old.names) declared (seen name.entry) start level (state parser.old) ≡ Some (x, state parser.new)) }
    ensures name { IfOk result (λ x. x.name ≡ name_at (seen name.entry)) }
    ensures names { OnOk result (parser.new.names ≡ parser.old.names) }
    ensures ends { parser.new.end ≡ parser.old.end }
    ensures stop { bad parser.new.cursor ≡ bad parser.old.cursor }
{
    parser.expect(Set::Sign(Sign::OpenParen), level + 1);
    let Parameters { list, names: _ } = read_parameters(parser, level + 1, false)?;
    let close = parser.expect(Set::Sign(Sign::CloseParen), level);
    let alloc = parser.alloc;
    Ok(signature(alloc, false, declared, name, list, start, close)?)
}

// `R (*F) (parameters);` behind `typedef`.
#[tactic(auto, using(crate::proofs::MemberLaws::function_type_steps))]
fn function_type<'t>(parser: &mut Parser<'t>, level: u32, word: Token<'t>) -> Result<Item, NoMemory>
    requires low { level ≤ 65 }
    ensures tree { IfOk result (λ i. piece.function_type parser.old.end (names_of parser.old.names) (seen word.entry) level (state parser.old) ≡ Some (i, state parser.new)) }
    ensures names { IfOk result (λ i. names_of parser.new.names ≡ with_item (names_of parser.old.names) i) }
    ensures ends { parser.new.end ≡ parser.old.end }
    ensures stop { bad parser.new.cursor ≡ bad parser.old.cursor }
{
    let declared = any_type(parser, level, true, false)?;
    let token = pointed_name(parser, level);
    let signature = type_signature(parser, level, declared, token, word.start)?;
    parser.expect(Set::Sign(Sign::Semicolon), level);
    parser
        .names
        .declare(token.text, Role::Type(Meaning::Another))?;
    Ok(Item::FunctionType(signature))
}

/// `TypedefRest`: what follows `typedef`.
#[tactic(auto, using(crate::proofs::ItemLaws::typedef_law))]
pub fn typedef_rest<'t>(
    parser: &mut Parser<'t>,
    level: u32,
    word: Token<'t>,
) -> Result<Item, NoMemory>
    requires low { level ≤ 65 }
    ensures tree { IfOk result (λ i. reads (part.TypedefRest (seen word.entry)) level parser.old ≡ Some (i, state parser.new)) }
    ensures names { IfOk result (λ i. names_of parser.new.names ≡ with_item (names_of parser.old.names) i) }
    ensures ends { parser.new.end ≡ parser.old.end }
    ensures stop { bad parser.new.cursor ≡ bad parser.old.cursor }
{
    if let Some(_) = parser.accept(Set::Word(Keyword::Struct), level) {
        return struct_type(parser, level);
    }
    if let Some(_) = parser.accept(Set::Word(Keyword::Enum), level) {
        return enumeration(parser, level);
    }
    function_type(parser, level, word)
}

/// What follows `struct`.
#[tactic(auto, unfolding(crate::specs::Pieces::struct_rest))]
pub fn struct_rest(parser: &mut Parser<'_>, level: u32) -> Result<Item, NoMemory>
    requires low { level ≤ 65 }
    ensures tree { IfOk result (λ i. piece.struct_rest parser.old.end (names_of parser.old.names) level (state parser.old) ≡ Some (i, state parser.new)) }
    ensures names { IfOk result (λ i. names_of parser.new.names ≡ with_item (names_of parser.old.names) i) }
    ensures ends { parser.new.end ≡ parser.old.end }
    ensures stop { bad parser.new.cursor ≡ bad parser.old.cursor }
{
    let tag = parser.expect(Set::Tag, level);
    parser.expect(Set::Sign(Sign::OpenBrace), level + 1);
    let fields = fields(parser, level + 1)?;
    parser.expect(Set::Sign(Sign::CloseBrace), level);
    parser.expect(Set::Sign(Sign::Semicolon), level);
    Ok(Item::Struct(StructDefinition {
        name: struct_name(parser.alloc, tag)?,
        fields,
    }))
}
