// Declarations behind the words in front of them.

ghost use Rattle.std.specs.Prelude.{◌≡◌, ◌≤◌, ◌<◌};
ghost use Rattle.vala_cursor.specs.Ahead.{rest, stop};
ghost use Rattle.vala_cursor.specs.Gets.{Gets, Gives};
ghost use Rattle.vala_declaration_nodes.specs.Views.{declared_of};
ghost use Rattle.vala_grammar.specs.declared.parts.TypeName.TheVariants as type_name;
ghost use Rattle.vala_file_grammar.specs.Grammar.{begins_name, of_type, of_type_name};
ghost use Rattle.vala_file_grammar.specs.Parts as part;
ghost use Rattle.vala_file_grammar.specs.Read.{file_reader};
ghost use Rattle.vala_parse.specs.Declarations.{last_inside, last_outside, types_outside, void_or_name};
ghost use Rattle.vala_parse.specs.Nests.{Nests};
ghost use Rattle.vala_parse.specs.Steps.{reads};
ghost use Rattle.vala_parse.specs.Views.{creates, place_in};

use crate::classes::names_creation;
use crate::code;
use crate::enums::{enumeration, error_domain};
use crate::fields::structure;
use crate::heads::{HeadKind, told};
use crate::members::Declarations;
use crate::next::{expect, expect_among, is_next, is_next_among};
use crate::places::Place;
use crate::signals::{constant, construction, delegate, destructor, signal};
use crate::typed::{creation, named_by};
use std::alloc::Global;
use vala_cursor::{Cursor, Flaw, Stop};
use vala_declaration_nodes::{Closed, Declared};
use vala_grammar::{Sort, TypeName};
use vala_nodes::names as nodes;
use vala_tree::{Member, Modifier, NameTree, TypeTree};
use vg_base::Span;

impl<F: Fn(Global, &mut Cursor<'_>, u32, Place<'_>) -> Result<Closed<Member>, Stop>> Declarations<
    F,
> {
    /// What follows the words.
    pub fn declaration(
        &self,
        cursor: &mut Cursor<'_>,
        level: u32,
        place: Place<'_>,
        words: &[Modifier],
    ) -> Result<Declared, Stop>
        requires nests { Nests self.now.level (F.pre self.now.deep) (F.post self.now.deep) }
        requires within { self.now.level ≤ level }
        requires low { level ≤ 201 }
        ensures tree { Gives declared_of (file_reader (part.DeclarationOf (place_in place.entry) words.now) level (rest cursor.old)) result (rest cursor.new) }
        ensures kept { stop cursor.new ≡ stop cursor.old }
    {
        match place {
            Place::Outside => self.outside(cursor, level, words),
            Place::Inside(is_interface, class) => {
                inside(self.alloc, cursor, level, is_interface, class, words)
            }
        }
    }

    #[tactic(auto, using(crate::proofs::DeclarationLaws::outside_law, vala_cursor::proofs::Steps::just))]
    fn outside(
        &self,
        cursor: &mut Cursor<'_>,
        level: u32,
        words: &[Modifier],
    ) -> Result<Declared, Stop>
        requires nests { Nests self.now.level (F.pre self.now.deep) (F.post self.now.deep) }
        requires within { self.now.level ≤ level }
        requires low { level ≤ 201 }
        ensures tree { Gives declared_of (file_reader (part.DeclarationOf part.Outside words.now) level (rest cursor.old)) result (rest cursor.new) }
        ensures kept { stop cursor.new ≡ stop cursor.old }
    {
        if let Some(token) = told(cursor, level, HeadKind::Another, words, Sort::Namespace)? {
            return self.namespace(cursor, level, token);
        }
        if let Some(token) = told(cursor, level, HeadKind::Class, words, Sort::Class)? {
            return self.class(cursor, level, false, token);
        }
        if let Some(token) = told(cursor, level, HeadKind::Another, words, Sort::Interface)? {
            return self.class(cursor, level, true, token);
        }
        types_outside(self.alloc, cursor, level, words)
    }
}

/// Types that have no declarations in them, and what is no type.
#[tactic(auto, using(crate::proofs::DeclarationLaws::types_outside_law, vala_cursor::proofs::Steps::just))]
fn types_outside(
    alloc: Global,
    cursor: &mut Cursor<'_>,
    level: u32,
    words: &[Modifier],
) -> Result<Declared, Stop>
    requires low { level ≤ 201 }
    ensures tree { Gives declared_of (reads (types_outside words.now) level (rest cursor.old)) result (rest cursor.new) }
    ensures kept { stop cursor.new ≡ stop cursor.old }
{
    if let Some(token) = told(cursor, level, HeadKind::Another, words, Sort::Struct)? {
        return structure(alloc, cursor, level, token);
    }
    if let Some(token) = told(cursor, level, HeadKind::Another, words, Sort::Enum)? {
        return enumeration(alloc, cursor, level, token);
    }
    if let Some(token) = told(cursor, level, HeadKind::Another, words, Sort::Errordomain)? {
        return error_domain(alloc, cursor, level, token);
    }
    last_outside(alloc, cursor, level, words)
}

#[tactic(auto, using(crate::proofs::DeclarationLaws::last_outside_law, vala_cursor::proofs::Steps::just))]
fn last_outside(
    alloc: Global,
    cursor: &mut Cursor<'_>,
    level: u32,
    words: &[Modifier],
) -> Result<Declared, Stop>
    requires low { level ≤ 201 }
    ensures tree { Gives declared_of (reads (last_outside words.now) level (rest cursor.old)) result (rest cursor.new) }
    ensures kept { stop cursor.new ≡ stop cursor.old }
{
    if let Some(token) = told(cursor, level, HeadKind::Another, words, Sort::Delegate)? {
        return delegate(alloc, cursor, level, token);
    }
    if let Some(token) = told(cursor, level, HeadKind::Another, words, Sort::Const)? {
        return constant(alloc, cursor, level, token);
    }
    of_type(alloc, cursor, level, Place::Outside, words)
}

/// In a class, or an interface, whose name ends with the word.
#[tactic(auto, using(crate::proofs::DeclarationLaws::inside_law, vala_cursor::proofs::Steps::just))]
fn inside(
    alloc: Global,
    cursor: &mut Cursor<'_>,
    level: u32,
    is_interface: bool,
    class: &[u8],
    words: &[Modifier],
) -> Result<Declared, Stop>
    requires low { level ≤ 201 }
    ensures tree { Gives declared_of (file_reader (part.DeclarationOf (part.Inside is_interface class.now) words.now) level (rest cursor.old)) result (rest cursor.new) }
    ensures kept { stop cursor.new ≡ stop cursor.old }
{
    if let Some(token) = told(cursor, level, HeadKind::Another, words, Sort::Const)? {
        return constant(alloc, cursor, level, token);
    }
    if let Some(token) = told(cursor, level, HeadKind::Another, words, Sort::Tilde)? {
        return destructor(alloc, cursor, level, class, token);
    }
    last_inside(alloc, cursor, level, is_interface, class, words)
}

#[tactic(auto, using(crate::proofs::DeclarationLaws::last_inside_law, vala_cursor::proofs::Steps::just))]
fn last_inside(
    alloc: Global,
    cursor: &mut Cursor<'_>,
    level: u32,
    is_interface: bool,
    class: &[u8],
    words: &[Modifier],
) -> Result<Declared, Stop>
    requires low { level ≤ 201 }
    ensures tree { Gives declared_of (reads (last_inside is_interface class.now words.now) level (rest cursor.old)) result (rest cursor.new) }
    ensures kept { stop cursor.new ≡ stop cursor.old }
{
    if let Some(token) = told(cursor, level, HeadKind::Signal, words, Sort::Signal)? {
        return signal(alloc, cursor, level, token);
    }
    if let Some(token) = told(cursor, level, HeadKind::Construct, words, Sort::Construct)? {
        return construction(alloc, cursor, level, token);
    }
    of_type(
        alloc,
        cursor,
        level,
        Place::Inside(is_interface, class),
        words,
    )
}

/// What begins with a type.
#[tactic(auto, using(crate::proofs::DeclarationLaws::of_type_law, vala_cursor::proofs::Steps::just))]
fn of_type(
    alloc: Global,
    cursor: &mut Cursor<'_>,
    level: u32,
    place: Place<'_>,
    words: &[Modifier],
) -> Result<Declared, Stop>
    requires low { level ≤ 201 }
    ensures tree { Gives declared_of (reads (of_type (place_in place.entry) words.now) level (rest cursor.old)) result (rest cursor.new) }
    ensures kept { stop cursor.new ≡ stop cursor.old }
{
    if is_next_among(cursor, &[Sort::Owned, Sort::Unowned]) {
        let word = expect_among(cursor, &[Sort::Owned, Sort::Unowned], level)?;
        let declared = code::type_body(alloc, cursor, level, Some(word))?;
        return named_by(alloc, cursor, level, place, words, declared);
    }
    void_or_name(alloc, cursor, level, place, words)
}

#[tactic(auto, using(crate::proofs::DeclarationLaws::void_or_name_law, vala_cursor::proofs::Steps::just))]
fn void_or_name(
    alloc: Global,
    cursor: &mut Cursor<'_>,
    level: u32,
    place: Place<'_>,
    words: &[Modifier],
) -> Result<Declared, Stop>
    requires low { level ≤ 201 }
    ensures tree { Gives declared_of (reads (void_or_name (place_in place.entry) words.now) level (rest cursor.old)) result (rest cursor.new) }
    ensures kept { stop cursor.new ≡ stop cursor.old }
{
    if is_next(cursor, Sort::Void) {
        let token = expect(cursor, Sort::Void, level)?;
        return named_by(
            alloc,
            cursor,
            level,
            place,
            words,
            nodes::void_type(None, token),
        );
    }
    let token = expect(cursor, Sort::Identifier, level)?;
    let first = nodes::one_word(alloc, token)?;
    match code::name_in_type_more(alloc, cursor, level, first)? {
        TypeName::Single(name) => begins_single(alloc, cursor, level, place, words, name),
        TypeName::Array(name, close) => {
            begins_array(alloc, cursor, level, place, words, name, close)
        }
    }
}

fn is_creation(place: Place<'_>, name: &NameTree) -> bool
    ensures { result ≡ creates (place_in place.entry) name.now }
{
    match place {
        Place::Outside => false,
        Place::Inside(_, class) => names_creation(class, name),
    }
}

/// A creation method, or what begins with a type of this name.
#[tactic(auto, using(crate::proofs::DeclarationLaws::begins_single_law, vala_cursor::proofs::Steps::just))]
fn begins_single(
    alloc: Global,
    cursor: &mut Cursor<'_>,
    level: u32,
    place: Place<'_>,
    words: &[Modifier],
    name: NameTree,
) -> Result<Declared, Stop>
    requires low { level ≤ 201 }
    ensures tree { Gives declared_of (reads (begins_name (place_in place.entry) words.now (type_name.Single name)) level (rest cursor.old)) result (rest cursor.new) }
    ensures kept { stop cursor.new ≡ stop cursor.old }
{
    if !is_creation(place, &name) {
        return of_single(alloc, cursor, level, place, words, name);
    }
    match told(cursor, level, HeadKind::Creation, words, Sort::OpenParen)? {
        Some(_) => creation(alloc, cursor, level, name),
        None => of_single(alloc, cursor, level, place, words, name),
    }
}

/// What begins with a type of this name.
#[tactic(auto, using(crate::proofs::DeclarationLaws::of_single_law, vala_cursor::proofs::Steps::just))]
fn of_single(
    alloc: Global,
    cursor: &mut Cursor<'_>,
    level: u32,
    place: Place<'_>,
    words: &[Modifier],
    name: NameTree,
) -> Result<Declared, Stop>
    requires low { level ≤ 201 }
    ensures tree { Gives declared_of (reads (of_type_name (place_in place.entry) words.now (type_name.Single name)) level (rest cursor.old)) result (rest cursor.new) }
    ensures kept { stop cursor.new ≡ stop cursor.old }
{
    let declared = single_end(cursor, level, name)?;
    named_by(alloc, cursor, level, place, words, declared)
}

/// The type of this name, with the marks and brackets behind it.
#[tactic(auto, using(crate::proofs::DeclarationLaws::single_end_law))]
fn single_end(cursor: &mut Cursor<'_>, level: u32, name: NameTree) -> Result<TypeTree, Stop>
    ensures tree { Gets (file_reader (part.TypeEnd (type_name.Single name)) level (rest cursor.old)) result (rest cursor.new) }
    ensures kept { stop cursor.new ≡ stop cursor.old }
{
    if !is_next(cursor, Sort::Question) {
        return Ok(nodes::single_type(None, name, None));
    }
    let mark = expect(cursor, Sort::Question, level)?.span;
    if !is_next(cursor, Sort::OpenBracket) {
        return Ok(nodes::single_type(None, name, Some(mark)));
    }
    expect(cursor, Sort::OpenBracket, level)?;
    if is_next(cursor, Sort::Comma) {
        return Err(Stop::Flawed(Flaw::LeftOut));
    }
    let close = expect(cursor, Sort::CloseBracket, level + 1)?.span;
    if !is_next(cursor, Sort::Question) {
        return Ok(nodes::array_type(None, name, Some(mark), close, None));
    }
    let behind = expect(cursor, Sort::Question, level)?.span;
    Ok(nodes::array_type(None, name, Some(mark), close, Some(behind)))
}

#[tactic(auto, using(crate::proofs::DeclarationLaws::array_end_law))]
fn array_end(
    cursor: &mut Cursor<'_>,
    level: u32,
    name: NameTree,
    close: Span,
) -> Result<TypeTree, Stop>
    ensures tree { Gets (file_reader (part.TypeEnd (type_name.Array name close)) level (rest cursor.old)) result (rest cursor.new) }
    ensures kept { stop cursor.new ≡ stop cursor.old }
{
    if !is_next(cursor, Sort::Question) {
        return Ok(nodes::array_type(None, name, None, close, None));
    }
    let behind = expect(cursor, Sort::Question, level)?.span;
    Ok(nodes::array_type(None, name, None, close, Some(behind)))
}

/// What begins with an array of this name.
#[tactic(auto, using(crate::proofs::DeclarationLaws::begins_array_law, vala_cursor::proofs::Steps::just))]
fn begins_array(
    alloc: Global,
    cursor: &mut Cursor<'_>,
    level: u32,
    place: Place<'_>,
    words: &[Modifier],
    name: NameTree,
    close: Span,
) -> Result<Declared, Stop>
    requires low { level ≤ 201 }
    ensures tree { Gives declared_of (reads (begins_name (place_in place.entry) words.now (type_name.Array name close)) level (rest cursor.old)) result (rest cursor.new) }
    ensures kept { stop cursor.new ≡ stop cursor.old }
{
    let declared = array_end(cursor, level, name, close)?;
    named_by(alloc, cursor, level, place, words, declared)
}
