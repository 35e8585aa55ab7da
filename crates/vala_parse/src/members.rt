// Declarations with what stands in front of them, and those that have others in them. What stands in braces is asked for through a function value, so
// that each part is proved by itself.

ghost use Rattle.std.specs.Prelude.{◌≡◌, ◌≤◌, ◌<◌, [], length, IsOk};
ghost use Rattle.vala_cursor.specs.Ahead.{rest, stop};
ghost use Rattle.vala_cursor.specs.Gets.{Gets, Gives, seen};
ghost use Rattle.vala_declaration_nodes.specs.Views.{closed_of, declared_of};
ghost use Rattle.vala_file_grammar.specs.Grammar.{class_of};
ghost use Rattle.vala_file_grammar.specs.Parts as part;
ghost use Rattle.vala_file_grammar.specs.Read.{file_reader};
ghost use Rattle.vala_parse.specs.Nests.{Nests};
ghost use Rattle.vala_parse.specs.Views.{place_in};

use crate::attributes::attribute;
use crate::classes::last_word;
use crate::code;
use crate::heads::{clash, clashes, may_follow};
use crate::lists::bases;
use crate::next::{expect, is_next};
use crate::places::{Place, is_left_out};
use sqlite_items::Items;
use std::alloc::Global;
use vala_cursor::{Cursor, Flaw, Stop};
use vala_declaration_nodes as nodes;
use vala_declaration_nodes::{Closed, Declared, member, modifier};
use vala_grammar::Sort;
use vala_lexer::Token;
use vala_tree::{Attribute, Member, NameTree, TypeTree};

fn class_of(
    is_interface: bool,
    token: Token<'_>,
    name: NameTree,
    bases: Items<TypeTree>,
    members: Closed<Member>,
) -> Declared
    ensures { declared_of result ≡ class_of is_interface (seen token.entry) name bases (closed_of members) }
{
    if is_interface {
        nodes::interface(token, name, bases, members)
    } else {
        nodes::class(token, name, bases, members)
    }
}

/// An attribute of a list, which has a token.
#[tactic(auto, using(crate::proofs::Progress::attribute_moves))]
fn listed_attribute(alloc: Global, cursor: &mut Cursor<'_>, level: u32) -> Result<Attribute, Stop>
    ensures tree { Gets (file_reader part.AttributeOf level (rest cursor.old)) result (rest cursor.new) }
    ensures kept { stop cursor.new ≡ stop cursor.old }
    ensures shorter { IsOk result → length (rest cursor.new) < length (rest cursor.old) }
{
    let attribute = attribute(alloc, cursor, level)?;
    Ok(attribute)
}

#[derive(Clone, Copy)]
pub struct Declarations<F> {
    pub alloc: Global,
    /// Only what stands at a higher level is asked for.
    pub level: u32,
    pub deep: F,
}

impl<F: Fn(Global, &mut Cursor<'_>, u32, Place<'_>) -> Result<Closed<Member>, Stop>> Declarations<
    F,
> {
    /// What follows `{`, up to `}`.
    #[tactic(auto, using(crate::proofs::MemberLaws::members_law, vala_cursor::proofs::Steps::just))]
    pub fn members(
        &self,
        cursor: &mut Cursor<'_>,
        level: u32,
        place: Place<'_>,
    ) -> Result<Closed<Member>, Stop>
        requires nests { Nests self.now.level (F.pre self.now.deep) (F.post self.now.deep) }
        requires within { self.now.level ≤ level }
        requires low { level ≤ 201 }
        ensures tree { Gives closed_of (file_reader (part.Members (place_in place.entry) []) level (rest cursor.old)) result (rest cursor.new) }
        ensures kept { stop cursor.new ≡ stop cursor.old }
    {
        let mut list = Items::new(self.alloc);
        'members: while !is_left_out(cursor, place) {
            if is_next(cursor, Sort::CloseBrace) {
                let close = expect(cursor, Sort::CloseBrace, level)?.span;
                return Ok(Closed { list, close });
            }
            list.push(self.listed_member(cursor, level, place)?)?;
        }
        Err(Stop::Flawed(Flaw::LeftOut))
    }

    /// A declaration of a list, which has a token.
    #[tactic(auto, using(crate::proofs::Progress::member_moves))]
    pub fn listed_member(
        &self,
        cursor: &mut Cursor<'_>,
        level: u32,
        place: Place<'_>,
    ) -> Result<Member, Stop>
        requires nests { Nests self.now.level (F.pre self.now.deep) (F.post self.now.deep) }
        requires within { self.now.level ≤ level }
        requires low { level ≤ 201 }
        ensures tree { Gets (file_reader (part.MemberOf (place_in place.entry)) level (rest cursor.old)) result (rest cursor.new) }
        ensures kept { stop cursor.new ≡ stop cursor.old }
        ensures shorter { IsOk result → length (rest cursor.new) < length (rest cursor.old) }
    {
        let member = self.member(cursor, level, place)?;
        Ok(member)
    }

    /// A declaration.
    #[tactic(auto, using(crate::proofs::MemberLaws::member_law, vala_cursor::proofs::Steps::just))]
    pub fn member(
        &self,
        cursor: &mut Cursor<'_>,
        level: u32,
        place: Place<'_>,
    ) -> Result<Member, Stop>
        requires nests { Nests self.now.level (F.pre self.now.deep) (F.post self.now.deep) }
        requires within { self.now.level ≤ level }
        requires low { level ≤ 201 }
        ensures tree { Gets (file_reader (part.MemberOf (place_in place.entry)) level (rest cursor.old)) result (rest cursor.new) }
        ensures kept { stop cursor.new ≡ stop cursor.old }
    {
        let mut attributes = Items::new(self.alloc);
        if is_next(cursor, Sort::OpenBracket) {
            attributes.push(attribute(self.alloc, cursor, level)?)?;
            return self.attributed(cursor, level, place, attributes);
        }
        self.modified(cursor, level, place, attributes)
    }

    #[tactic(auto, using(crate::proofs::MemberLaws::attributes_law, vala_cursor::proofs::Steps::just))]
    fn attributed(
        &self,
        cursor: &mut Cursor<'_>,
        level: u32,
        place: Place<'_>,
        first: Items<Attribute>,
    ) -> Result<Member, Stop>
        requires nests { Nests self.now.level (F.pre self.now.deep) (F.post self.now.deep) }
        requires within { self.now.level ≤ level }
        requires low { level ≤ 201 }
        ensures tree { Gets (file_reader (part.Attributes (place_in place.entry) first) level (rest cursor.old)) result (rest cursor.new) }
        ensures kept { stop cursor.new ≡ stop cursor.old }
    {
        let mut attributes = first;
        'attributes: while !is_left_out(cursor, place) {
            if !is_next(cursor, Sort::OpenBracket) {
                return self.modified(cursor, level, place, attributes);
            }
            attributes.push(listed_attribute(self.alloc, cursor, level)?)?;
        }
        Err(Stop::Flawed(Flaw::LeftOut))
    }

    #[tactic(auto, using(crate::proofs::MemberLaws::modifiers_law, crate::proofs::MemberLaws::more_modifiers_law, crate::proofs::Progress::shift_moves, vala_cursor::proofs::Steps::just), unfolding(crate::specs::Steps::got))]
    fn modified(
        &self,
        cursor: &mut Cursor<'_>,
        level: u32,
        place: Place<'_>,
        attributes: Items<Attribute>,
    ) -> Result<Member, Stop>
        requires nests { Nests self.now.level (F.pre self.now.deep) (F.post self.now.deep) }
        requires within { self.now.level ≤ level }
        requires low { level ≤ 201 }
        ensures tree { Gets (file_reader (part.Modifiers (place_in place.entry) attributes []) level (rest cursor.old)) result (rest cursor.new) }
        ensures kept { stop cursor.new ≡ stop cursor.old }
    {
        let mut words = Items::new(self.alloc);
        'words: while may_follow(cursor, words.as_slice()) {
            let token = cursor.shift(0, level)?;
            words.push(modifier(token))?;
            if is_left_out(cursor, place) {
                return Err(Stop::Flawed(Flaw::LeftOut));
            }
        }
        if clashes(cursor, words.as_slice()) {
            return Err(Stop::Flawed(clash(words.as_slice())));
        }
        let declared = self.declaration(cursor, level, place, words.as_slice())?;
        Ok(member(attributes, words, declared))
    }

    /// What follows `namespace`.
    #[tactic(auto, using(crate::proofs::MemberLaws::namespace_law))]
    pub fn namespace(
        &self,
        cursor: &mut Cursor<'_>,
        level: u32,
        token: Token<'_>,
    ) -> Result<Declared, Stop>
        requires nests { Nests self.now.level (F.pre self.now.deep) (F.post self.now.deep) }
        requires within { self.now.level ≤ level }
        ensures tree { Gives declared_of (file_reader (part.NamespaceOf (seen token.entry)) level (rest cursor.old)) result (rest cursor.new) }
        ensures kept { stop cursor.new ≡ stop cursor.old }
    {
        let name = code::name(self.alloc, cursor, level)?;
        expect(cursor, Sort::OpenBrace, level)?;
        let members = (self.deep)(self.alloc, cursor, level + 1, Place::Outside)?;
        Ok(nodes::namespace(token, name, members))
    }

    /// What follows `class` or `interface`.
    #[tactic(auto, using(crate::proofs::MemberLaws::class_law))]
    pub fn class(
        &self,
        cursor: &mut Cursor<'_>,
        level: u32,
        is_interface: bool,
        token: Token<'_>,
    ) -> Result<Declared, Stop>
        requires nests { Nests self.now.level (F.pre self.now.deep) (F.post self.now.deep) }
        requires within { self.now.level ≤ level }
        ensures tree { Gives declared_of (file_reader (part.ClassOf is_interface (seen token.entry)) level (rest cursor.old)) result (rest cursor.new) }
        ensures kept { stop cursor.new ≡ stop cursor.old }
    {
        let name = code::name(self.alloc, cursor, level)?;
        let bases = bases(self.alloc, cursor, level)?;
        expect(cursor, Sort::OpenBrace, level)?;
        let place = Place::Inside(is_interface, last_word(&name));
        let members = (self.deep)(self.alloc, cursor, level + 1, place)?;
        Ok(class_of(is_interface, token, name, bases, members))
    }
}
