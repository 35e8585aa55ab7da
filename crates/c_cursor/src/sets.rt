// The sets of tokens by which parts decide.

ghost use Rattle.std.specs.Prelude.{◌≡◌, ◌&&◌, ◌||◌, [], not, true};
ghost use Rattle.c_lexer.specs.declared.token.Keyword.TheVariants as keyword;
ghost use Rattle.c_lexer.specs.declared.token.Sign.TheVariants as sign;
ghost use Rattle.c_tree.specs.Names as names;
ghost use Rattle.c_tree.specs.Types as types;
ghost use Rattle.c_grammar.specs.Sorts.{Class, Name, Null, Number, File, kind, on};
ghost use Rattle.c_grammar.specs.Tests as tests;
ghost use Rattle.c_nodes.specs.Roles.{role_of};
ghost use Rattle.c_nodes.specs.Seen.{seen};
ghost use Rattle.c_cursor.specs.Scopes.{names_of};
ghost use Rattle.c_cursor.specs.Sets as spec;

use crate::names::Names;
use c_lexer::{Constant, Keyword, Sign, TokenKind};
use c_nodes::operators::{binary_of, level_of, prefix_of};
use c_nodes::{Meaning, Role, Terminal, Token};
use c_tree::Level;

#[derive(Clone, Copy)]
pub enum Set<'t> {
    Sign(Sign),
    Word(Keyword),
    /// A keyword, at the beginning of a line where it must stand there.
    WordOnLine(bool, Keyword),
    Name,
    Number,
    Null,
    /// A number, a character, a text or a capital name.
    Literal,
    /// The name of an included file.
    File,
    /// The `#` that begins a line.
    Hash,
    /// The word `include` on the line of its `#`.
    IncludeWord,
    /// The tag of a struct.
    Tag,
    /// A name with these letters.
    NameOf(&'t [u8]),
    /// The word `GInterfaceInitFunc`.
    InitFunc,
    /// A name that is `main` only where that may be.
    FreeName(bool),
    /// The name of a type, or `GInterfaceInfo`.
    InfoOrType,
    /// The name of a value, as a constant or not.
    ValueName(bool),
    /// The name of a function of the library.
    RowName,
    /// The base of a type, where a name that nothing declares is one or not.
    Base(bool),
    /// The same, at the beginning of a line where it must stand there.
    BaseOnLine(bool),
    /// A base that is a word of its own.
    KeyBase,
    /// A base that is not `void`.
    OtherBase,
    /// A base that means `int`.
    IntBase,
    /// A base that means `char`.
    CharBase,
    /// What a type begins with.
    Type(bool),
    /// What a type begins with that begins with a word of its own.
    KeyType,
    /// What goes on with the base of a type.
    TypeMore,
    /// What goes on with a name that is the base of the type of a declaration.
    LocalMore,
    /// A sign before an operand, as a constant or not.
    Prefix(bool),
    /// A sign between operands of a level.
    Link(Level),
    /// A sign between operands of a level or a tighter one.
    LinkUpTo(Level),
    /// `->`, and `.` where it may stand.
    Field(bool),
    /// What a value begins with that has no operator and no bracket in front and is no name.
    Unnamed,
    /// What a value begins with.
    Value(bool),
    /// What a statement begins with that begins with no name.
    Plain,
    Statement,
    /// What an item begins with, at the beginning of a line where it must stand there.
    Item(bool),
}

#[tactic(auto, using(crate::proofs::SignLaws::signs_equal))]
#[inline(always)]
fn is_sign(token: &Token<'_>, sign: Sign) -> bool
    ensures { result ≡ on [] (tests.sign_is sign) (kind (seen token.now)) }
{
    match token.terminal {
        Terminal::Of(TokenKind::Sign(found)) => sign as u8 == found as u8,
        _ => false,
    }
}

#[inline(always)]
fn is_word(token: &Token<'_>, word: Keyword) -> bool
    ensures { result ≡ on [] (tests.word_is word) (kind (seen token.now)) }
{
    match token.terminal {
        Terminal::Of(TokenKind::Keyword(found)) => found as u8 == word as u8,
        _ => false,
    }
}

#[inline(always)]
fn is_name(token: &Token<'_>) -> bool
    ensures { result ≡ on [] (tests.is Name) (kind (seen token.now)) }
{
    matches!(token.terminal, Terminal::Of(TokenKind::Identifier))
}

#[inline(always)]
fn is_number(token: &Token<'_>) -> bool
    ensures { result ≡ on [] (tests.is Number) (kind (seen token.now)) }
{
    matches!(token.terminal, Terminal::Of(TokenKind::Number(..)))
}

fn is_null(token: &Token<'_>) -> bool
    ensures { result ≡ on [] (tests.is Null) (kind (seen token.now)) }
{
    matches!(
        token.terminal,
        Terminal::Of(TokenKind::Constant(Constant::Null))
    )
}

#[inline(always)]
fn is_literal(token: &Token<'_>) -> bool
    ensures { result ≡ on [] (tests.is_literal) (kind (seen token.now)) }
{
    matches!(
        token.terminal,
        Terminal::Of(
            TokenKind::Number(..)
                | TokenKind::Character(_)
                | TokenKind::Text
                | TokenKind::Constant(_)
        )
    )
}

fn is_file(token: &Token<'_>) -> bool
    ensures { result ≡ on [] (tests.is File) (kind (seen token.now)) }
{
    matches!(token.terminal, Terminal::File(_))
}

#[tactic(auto, using(crate::proofs::SetLaws::set_laws))]
fn is_hash(token: &Token<'_>) -> bool
    ensures { result ≡ on [] tests.begins_include (kind (seen token.now)) }
{
    is_sign(token, Sign::Hash) && token.begins_line
}

fn is_name_of(token: &Token<'_>, letters: &[u8]) -> bool
    ensures { result ≡ tests.is_name_of letters.now (kind (seen token.now)) }
{
    match token.terminal {
        Terminal::Of(TokenKind::Identifier) => token.text == letters,
        _ => false,
    }
}

#[tactic(auto, using(crate::proofs::SetLaws::set_laws))]
fn is_include_word(token: &Token<'_>) -> bool
    ensures { result ≡ tests.is_include_word (kind (seen token.now)) }
{
    is_name_of(token, b"include") && !token.begins_line
}

fn begins_low(letters: &[u8]) -> bool
    ensures { result ≡ tests.begins_low letters.now }
{
    match letters {
        [first, ..] => *first == b'_',
        [] => false,
    }
}

fn is_tag(token: &Token<'_>) -> bool
    ensures { result ≡ tests.is_tag (kind (seen token.now)) }
{
    match token.terminal {
        Terminal::Of(TokenKind::Identifier) => begins_low(token.text),
        _ => false,
    }
}

/// Whether these letters are `main`.
pub fn is_main(letters: &[u8]) -> bool
    ensures { result ≡ tests.is_main letters.now }
{
    letters == b"main".as_slice()
}

/// Whether these letters are `GInterfaceInfo`.
pub fn is_info(letters: &[u8]) -> bool
    ensures { result ≡ spec.is_info letters.now }
{
    letters == b"GInterfaceInfo".as_slice()
}

#[tactic(auto, using(crate::proofs::SetLaws::set_laws))]
#[inline(always)]
fn is_free_name(token: &Token<'_>, may_be_main: bool) -> bool
    ensures { result ≡ tests.is_free_name may_be_main (kind (seen token.now)) }
{
    match token.terminal {
        Terminal::Of(TokenKind::Identifier) => !is_main(token.text) || may_be_main,
        _ => false,
    }
}

/// Whether a name may be a type. Where nothing but a type can stand, a name that nothing declares is one.
pub fn can_be_type(anyhow: bool, role: Role) -> bool
    ensures { result ≡ types.can_be_type anyhow (role_of role) }
{
    match role {
        Role::Type(_) => true,
        Role::Unknown => anyhow,
        _ => false,
    }
}

// Whether a name may be a value. A constant names no variable.
fn is_value_role(constant: bool, role: Role) -> bool
    ensures { result ≡ tests.is_value_role constant (role_of role) }
{
    match role {
        Role::Function | Role::Member | Role::Unknown => true,
        Role::Variable => !constant,
        _ => false,
    }
}

fn is_row(role: Role) -> bool
    ensures { result ≡ spec.is_row (role_of role) }
{
    matches!(role, Role::Row(_))
}

fn means_int(role: Role) -> bool
    ensures { result ≡ names.is_an_int (names.meaning_of_role (role_of role)) }
{
    matches!(role, Role::Type(Meaning::Int))
}

fn means_char(role: Role) -> bool
    ensures { result ≡ names.is_a_char (names.meaning_of_role (role_of role)) }
{
    matches!(role, Role::Type(Meaning::Char))
}

#[inline(always)]
fn is_key_base(token: &Token<'_>) -> bool
    ensures { result ≡ on [] tests.is_key_base (kind (seen token.now)) }
{
    matches!(
        token.terminal,
        Terminal::Of(TokenKind::Keyword(Keyword::Void | Keyword::Int | Keyword::Char))
    )
}

#[tactic(auto, using(crate::proofs::SetLaws::set_laws))]
#[inline(always)]
fn begins_key_type(token: &Token<'_>) -> bool
    ensures { result ≡ on [] tests.begins_key_type (kind (seen token.now)) }
{
    is_word(token, Keyword::Const) || is_key_base(token)
}

#[tactic(auto, using(crate::proofs::SetLaws::set_laws))]
#[inline(always)]
fn goes_on_type(token: &Token<'_>) -> bool
    ensures { result ≡ on [] tests.goes_on_type (kind (seen token.now)) }
{
    is_sign(token, Sign::Star) || is_word(token, Keyword::Const)
}

#[tactic(auto, using(crate::proofs::SetLaws::set_laws))]
#[inline(always)]
fn goes_on_local(token: &Token<'_>) -> bool
    ensures { result ≡ on [] tests.goes_on_local (kind (seen token.now)) }
{
    goes_on_type(token) || is_name(token)
}

#[inline(always)]
fn begins_unnamed(token: &Token<'_>) -> bool
    ensures { result ≡ on [] tests.begins_unnamed (kind (seen token.now)) }
{
    matches!(
        token.terminal,
        Terminal::Of(
            TokenKind::Number(..)
                | TokenKind::Character(_)
                | TokenKind::Text
                | TokenKind::Constant(_)
                | TokenKind::Keyword(Keyword::Sizeof | Keyword::StructOffset)
        )
    )
}

#[inline(always)]
fn begins_by_word(token: &Token<'_>) -> bool
    ensures { result ≡ on [] spec.begins_by_word (kind (seen token.now)) }
{
    matches!(
        token.terminal,
        Terminal::Of(TokenKind::Keyword(
            Keyword::If | Keyword::Goto | Keyword::Switch | Keyword::Return
        ))
    )
}

#[tactic(auto, using(crate::proofs::SetLaws::set_laws))]
#[inline(always)]
fn begins_plain(token: &Token<'_>) -> bool
    ensures { result ≡ on [] tests.begins_plain (kind (seen token.now)) }
{
    is_sign(token, Sign::Star)
        || (is_sign(token, Sign::OpenParen)
            || (is_sign(token, Sign::OpenBrace)
                || (begins_unnamed(token) || begins_by_word(token))))
}

#[tactic(auto, using(crate::proofs::SetLaws::set_laws))]
#[inline(always)]
fn begins_statement(token: &Token<'_>) -> bool
    ensures { result ≡ on [] tests.begins_statement (kind (seen token.now)) }
{
    is_name(token) || begins_plain(token)
}

#[inline(always)]
fn is_prefix(token: &Token<'_>, constant: bool) -> bool
    ensures { result ≡ on [] (spec.is_any_prefix constant) (kind (seen token.now)) }
{
    match token.terminal {
        Terminal::Of(TokenKind::Sign(sign)) => prefix_of(constant, sign).is_some(),
        _ => false,
    }
}

#[inline(always)]
fn links(token: &Token<'_>, level: Level) -> bool
    ensures { result ≡ on [] (tests.links level) (kind (seen token.now)) }
{
    match token.terminal {
        Terminal::Of(TokenKind::Sign(sign)) => match binary_of(sign) {
            Some(operator) => level_of(operator) as u8 == level as u8,
            None => false,
        },
        _ => false,
    }
}

// The levels stand in order, the loosest first.
#[inline(always)]
fn links_up_to(token: &Token<'_>, level: Level) -> bool
    ensures { result ≡ on [] (tests.links_up_to level) (kind (seen token.now)) }
{
    match token.terminal {
        Terminal::Of(TokenKind::Sign(sign)) => match binary_of(sign) {
            Some(operator) => level_of(operator) as u8 >= level as u8,
            None => false,
        },
        _ => false,
    }
}

#[tactic(auto, using(crate::proofs::SetLaws::set_laws))]
#[inline(always)]
fn is_dot(token: &Token<'_>, may_be: bool) -> bool
    ensures { result ≡ (may_be && on [] (tests.sign_is sign.Dot) (kind (seen token.now))) }
{
    may_be && is_sign(token, Sign::Dot)
}

#[tactic(auto, using(crate::proofs::SetLaws::set_laws))]
#[inline(always)]
fn is_field(token: &Token<'_>, dot: bool) -> bool
    ensures { result ≡ on [] (tests.is_field dot) (kind (seen token.now)) }
{
    is_sign(token, Sign::Arrow) || is_dot(token, dot)
}

// Whether a token stands where it may: at the beginning of a line where it must.
#[tactic(auto, using(crate::proofs::SetLaws::set_laws))]
fn stands_on_line(token: &Token<'_>, line: bool) -> bool
    ensures { result ≡ (not line || token.now.begins_line) }
{
    !line || token.begins_line
}

#[tactic(auto, using(crate::proofs::SetLaws::set_laws))]
fn is_word_on_line(token: &Token<'_>, line: bool, word: Keyword) -> bool
    ensures { result ≡ on [] (tests.on_line line (tests.word_is word)) (kind (seen token.now)) }
{
    is_word(token, word) && stands_on_line(token, line)
}

impl<'t> Names<'t> {
    fn is_base(&self, token: &Token<'t>, anyhow: bool) -> bool
        ensures { result ≡ on (names_of self.now) (tests.is_base anyhow) (kind (seen token.now)) }
    {
        match token.terminal {
            Terminal::Of(TokenKind::Keyword(Keyword::Void | Keyword::Int | Keyword::Char)) => true,
            Terminal::Of(TokenKind::Identifier) => can_be_type(anyhow, self.role(token.text)),
            _ => false,
        }
    }

    fn is_other_base(&self, token: &Token<'t>) -> bool
        ensures { result ≡ on (names_of self.now) tests.is_other_base (kind (seen token.now)) }
    {
        match token.terminal {
            Terminal::Of(TokenKind::Keyword(Keyword::Int | Keyword::Char)) => true,
            Terminal::Of(TokenKind::Identifier) => can_be_type(true, self.role(token.text)),
            _ => false,
        }
    }

    #[tactic(auto, using(crate::proofs::SetLaws::set_laws))]
    fn is_base_on_line(&self, token: &Token<'t>, line: bool) -> bool
        ensures { result ≡ on (names_of self.now) (tests.on_line line (tests.is_base true)) (kind (seen token.now)) }
    {
        self.is_base(token, true) && stands_on_line(token, line)
    }

    #[tactic(auto, using(crate::proofs::SetLaws::set_laws))]
    fn is_info_or_type(&self, token: &Token<'t>) -> bool
        ensures { result ≡ tests.is_info_or_type (names_of self.now) (kind (seen token.now)) }
    {
        match token.terminal {
            Terminal::Of(TokenKind::Identifier) => {
                is_info(token.text) || can_be_type(true, self.role(token.text))
            }
            _ => false,
        }
    }

    fn is_value_name(&self, token: &Token<'t>, constant: bool) -> bool
        ensures { result ≡ on (names_of self.now) (tests.name_with (tests.is_value_role constant)) (kind (seen token.now)) }
    {
        match token.terminal {
            Terminal::Of(TokenKind::Identifier) => is_value_role(constant, self.role(token.text)),
            _ => false,
        }
    }

    fn is_row_name(&self, token: &Token<'t>) -> bool
        ensures { result ≡ on (names_of self.now) (tests.name_with spec.is_row) (kind (seen token.now)) }
    {
        match token.terminal {
            Terminal::Of(TokenKind::Identifier) => is_row(self.role(token.text)),
            _ => false,
        }
    }

    fn is_int_base(&self, token: &Token<'t>) -> bool
        ensures { result ≡ on (names_of self.now) tests.is_int_base (kind (seen token.now)) }
    {
        match token.terminal {
            Terminal::Of(TokenKind::Keyword(Keyword::Int)) => true,
            Terminal::Of(TokenKind::Identifier) => means_int(self.role(token.text)),
            _ => false,
        }
    }

    fn is_char_base(&self, token: &Token<'t>) -> bool
        ensures { result ≡ on (names_of self.now) tests.is_char_base (kind (seen token.now)) }
    {
        match token.terminal {
            Terminal::Of(TokenKind::Keyword(Keyword::Char)) => true,
            Terminal::Of(TokenKind::Identifier) => means_char(self.role(token.text)),
            _ => false,
        }
    }

    #[tactic(auto, using(crate::proofs::SetLaws::set_laws))]
    fn begins_type(&self, token: &Token<'t>, anyhow: bool) -> bool
        ensures { result ≡ on (names_of self.now) (tests.begins_type anyhow) (kind (seen token.now)) }
    {
        is_word(token, Keyword::Const) || self.is_base(token, anyhow)
    }

    #[tactic(auto, using(crate::proofs::SetLaws::set_laws))]
    fn begins_primary(&self, token: &Token<'t>, constant: bool) -> bool
        ensures { result ≡ on (names_of self.now) (tests.begins_primary constant) (kind (seen token.now)) }
    {
        self.is_value_name(token, constant) || begins_unnamed(token)
    }

    #[tactic(auto, using(crate::proofs::SetLaws::set_laws))]
    fn begins_suffixed(&self, token: &Token<'t>, constant: bool) -> bool
        ensures { result ≡ on (names_of self.now) (spec.begins_suffixed constant) (kind (seen token.now)) }
    {
        is_sign(token, Sign::OpenParen) || self.begins_primary(token, constant)
    }

    #[tactic(auto, using(crate::proofs::SetLaws::value_laws))]
    fn begins_value(&self, token: &Token<'t>, constant: bool) -> bool
        ensures { result ≡ on (names_of self.now) (tests.begins_prefixed constant) (kind (seen token.now)) }
    {
        is_prefix(token, constant) || self.begins_suffixed(token, constant)
    }

    #[tactic(auto, using(crate::proofs::SetLaws::set_laws))]
    fn begins_typed(&self, token: &Token<'t>) -> bool
        ensures { result ≡ on (names_of self.now) spec.begins_typed (kind (seen token.now)) }
    {
        is_word(token, Keyword::Static) || self.begins_type(token, true)
    }

    #[tactic(auto, using(crate::proofs::SetLaws::set_laws))]
    fn begins_declared(&self, token: &Token<'t>) -> bool
        ensures { result ≡ on (names_of self.now) spec.begins_declared (kind (seen token.now)) }
    {
        is_word(token, Keyword::Typedef)
            || (is_word(token, Keyword::Struct) || self.begins_typed(token))
    }

    #[tactic(auto, using(crate::proofs::SetLaws::set_laws))]
    fn begins_declared_on_line(&self, token: &Token<'t>, line: bool) -> bool
        ensures { result ≡ on (names_of self.now) (tests.on_line line spec.begins_declared) (kind (seen token.now)) }
    {
        self.begins_declared(token) && stands_on_line(token, line)
    }

    #[tactic(auto, using(crate::proofs::SetLaws::item_laws))]
    fn begins_item(&self, token: &Token<'t>, line: bool) -> bool
        ensures { result ≡ on (names_of self.now) (tests.begins_item line) (kind (seen token.now)) }
    {
        is_hash(token) || self.begins_declared_on_line(token, line)
    }

    /// Whether a token is in a set, among these names.
    #[inline(always)]
    pub fn contain(&self, set: Set<'t>, token: Token<'t>) -> bool
        ensures { result ≡ spec.is_in set.entry (names_of self.now) (kind (seen token.entry)) }
    {
        self.have(set, &token)
    }

    /// The same of a token that stays where it is.
    #[inline(always)]
    pub fn have(&self, set: Set<'t>, token: &Token<'t>) -> bool
        ensures { result ≡ spec.is_in set.entry (names_of self.now) (kind (seen token.now)) }
    {
        match set {
            Set::Sign(sign) => is_sign(token, sign),
            Set::Word(word) => is_word(token, word),
            Set::WordOnLine(line, word) => is_word_on_line(token, line, word),
            Set::Name => is_name(token),
            Set::Number => is_number(token),
            Set::Null => is_null(token),
            Set::Literal => is_literal(token),
            Set::File => is_file(token),
            Set::Hash => is_hash(token),
            Set::IncludeWord => is_include_word(token),
            Set::Tag => is_tag(token),
            Set::NameOf(letters) => is_name_of(token, letters),
            Set::InitFunc => is_name_of(token, b"GInterfaceInitFunc"),
            Set::FreeName(main) => is_free_name(token, main),
            Set::InfoOrType => self.is_info_or_type(token),
            Set::ValueName(constant) => self.is_value_name(token, constant),
            Set::RowName => self.is_row_name(token),
            Set::Base(anyhow) => self.is_base(token, anyhow),
            Set::BaseOnLine(line) => self.is_base_on_line(token, line),
            Set::KeyBase => is_key_base(token),
            Set::OtherBase => self.is_other_base(token),
            Set::IntBase => self.is_int_base(token),
            Set::CharBase => self.is_char_base(token),
            Set::Type(anyhow) => self.begins_type(token, anyhow),
            Set::KeyType => begins_key_type(token),
            Set::TypeMore => goes_on_type(token),
            Set::LocalMore => goes_on_local(token),
            Set::Prefix(constant) => is_prefix(token, constant),
            Set::Link(level) => links(token, level),
            Set::LinkUpTo(level) => links_up_to(token, level),
            Set::Field(dot) => is_field(token, dot),
            Set::Unnamed => begins_unnamed(token),
            Set::Value(constant) => self.begins_value(token, constant),
            Set::Plain => begins_plain(token),
            Set::Statement => begins_statement(token),
            Set::Item(line) => self.begins_item(token, line),
        }
    }
}
