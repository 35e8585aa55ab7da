// What a token is to the grammar.

ghost use Rattle.std.specs.Prelude.{◌≡◌};
ghost use Rattle.vala_grammar.specs.Sorts.{sort};

use vala_lexer::TokenKind;

/// One variant for all tokens that stand in the same places.
#[derive(Clone, Copy, PartialEq, Eq)]
pub enum Sort {
    Identifier,
    /// A number, a character, `true`, `false` or `null`.
    Literal,
    Text,
    This,
    Base,
    New,
    Yield,
    Owned,
    /// `unowned` and `weak`
    Unowned,
    Void,
    Var,
    If,
    Else,
    While,
    Do,
    For,
    Foreach,
    In,
    Switch,
    Case,
    Default,
    Break,
    Continue,
    Return,
    Throw,
    Try,
    Catch,
    Finally,
    Out,
    Ref,
    Using,
    Namespace,
    Class,
    Interface,
    Struct,
    Enum,
    Errordomain,
    Delegate,
    Const,
    Construct,
    Signal,
    Throws,
    Public,
    Protected,
    Internal,
    Private,
    Static,
    Abstract,
    Virtual,
    Override,
    Async,
    Inline,
    OpenBrace,
    CloseBrace,
    OpenParen,
    CloseParen,
    OpenBracket,
    CloseBracket,
    Comma,
    Semicolon,
    Colon,
    Dot,
    Question,
    Coalesce,
    /// `=`
    Assign,
    /// The other assignment operators.
    Update,
    Arrow,
    OrOr,
    AndAnd,
    Bar,
    Caret,
    Ampersand,
    /// `==` and `!=`
    Equality,
    Less,
    /// `>`, `<=` and `>=`
    Relation,
    /// `is` and `as`
    TypeTest,
    /// `<<` and `>>`
    Shift,
    Plus,
    Minus,
    Star,
    Slash,
    Percent,
    Not,
    Tilde,
    /// `++` and `--`
    Step,
    /// A word or sign of the language that no text of the profile has.
    LeftOut,
}

/// The sort of the tokens of a class.
pub fn sort_of(kind: TokenKind) -> Sort
    ensures { result ≡ sort kind }
{
    match kind {
        TokenKind::Identifier => Sort::Identifier,
        TokenKind::Text => Sort::Text,
        TokenKind::Abstract => Sort::Abstract,
        TokenKind::As | TokenKind::Is => Sort::TypeTest,
        TokenKind::Async => Sort::Async,
        TokenKind::Base => Sort::Base,
        TokenKind::Break => Sort::Break,
        TokenKind::Case => Sort::Case,
        TokenKind::Catch => Sort::Catch,
        TokenKind::Class => Sort::Class,
        TokenKind::Const => Sort::Const,
        TokenKind::Construct => Sort::Construct,
        TokenKind::Continue => Sort::Continue,
        TokenKind::Default => Sort::Default,
        TokenKind::Delegate => Sort::Delegate,
        TokenKind::Delete
        | TokenKind::Extern
        | TokenKind::Lock
        | TokenKind::Params
        | TokenKind::Sealed
        | TokenKind::Sizeof
        | TokenKind::Typeof
        | TokenKind::With
        | TokenKind::Ellipsis => Sort::LeftOut,
        TokenKind::Do => Sort::Do,
        TokenKind::Else => Sort::Else,
        TokenKind::Enum => Sort::Enum,
        TokenKind::Errordomain => Sort::Errordomain,
        TokenKind::Integer(..)
        | TokenKind::Character(_)
        | TokenKind::False
        | TokenKind::Null
        | TokenKind::True => Sort::Literal,
        TokenKind::Finally => Sort::Finally,
        TokenKind::For => Sort::For,
        TokenKind::Foreach => Sort::Foreach,
        TokenKind::If => Sort::If,
        TokenKind::In => Sort::In,
        TokenKind::Inline => Sort::Inline,
        TokenKind::Interface => Sort::Interface,
        TokenKind::Internal => Sort::Internal,
        TokenKind::Namespace => Sort::Namespace,
        TokenKind::New => Sort::New,
        TokenKind::Out => Sort::Out,
        TokenKind::Override => Sort::Override,
        TokenKind::Owned => Sort::Owned,
        TokenKind::Private => Sort::Private,
        TokenKind::Protected => Sort::Protected,
        TokenKind::Public => Sort::Public,
        TokenKind::Ref => Sort::Ref,
        TokenKind::Return => Sort::Return,
        TokenKind::Signal => Sort::Signal,
        TokenKind::Static => Sort::Static,
        TokenKind::Struct => Sort::Struct,
        TokenKind::Switch => Sort::Switch,
        TokenKind::This => Sort::This,
        TokenKind::Throw => Sort::Throw,
        TokenKind::Throws => Sort::Throws,
        TokenKind::Try => Sort::Try,
        TokenKind::Unowned | TokenKind::Weak => Sort::Unowned,
        TokenKind::Using => Sort::Using,
        TokenKind::Var => Sort::Var,
        TokenKind::Virtual => Sort::Virtual,
        TokenKind::Void => Sort::Void,
        TokenKind::While => Sort::While,
        TokenKind::Yield => Sort::Yield,
        TokenKind::OpenBrace => Sort::OpenBrace,
        TokenKind::CloseBrace => Sort::CloseBrace,
        TokenKind::OpenParen => Sort::OpenParen,
        TokenKind::CloseParen => Sort::CloseParen,
        TokenKind::OpenBracket => Sort::OpenBracket,
        TokenKind::CloseBracket => Sort::CloseBracket,
        TokenKind::Comma => Sort::Comma,
        TokenKind::Semicolon => Sort::Semicolon,
        TokenKind::Colon => Sort::Colon,
        TokenKind::Dot => Sort::Dot,
        TokenKind::Question => Sort::Question,
        TokenKind::Coalesce => Sort::Coalesce,
        TokenKind::Assign => Sort::Assign,
        TokenKind::Equal | TokenKind::NotEqual => Sort::Equality,
        TokenKind::Less => Sort::Less,
        TokenKind::Greater | TokenKind::LessEqual | TokenKind::GreaterEqual => Sort::Relation,
        TokenKind::Plus => Sort::Plus,
        TokenKind::Minus => Sort::Minus,
        TokenKind::Star => Sort::Star,
        TokenKind::Slash => Sort::Slash,
        TokenKind::Percent => Sort::Percent,
        TokenKind::Ampersand => Sort::Ampersand,
        TokenKind::Bar => Sort::Bar,
        TokenKind::Caret => Sort::Caret,
        TokenKind::Not => Sort::Not,
        TokenKind::Tilde => Sort::Tilde,
        TokenKind::AndAnd => Sort::AndAnd,
        TokenKind::OrOr => Sort::OrOr,
        TokenKind::ShiftLeft | TokenKind::ShiftRight => Sort::Shift,
        TokenKind::Increment | TokenKind::Decrement => Sort::Step,
        TokenKind::PlusAssign
        | TokenKind::MinusAssign
        | TokenKind::StarAssign
        | TokenKind::SlashAssign
        | TokenKind::PercentAssign
        | TokenKind::AndAssign
        | TokenKind::OrAssign
        | TokenKind::XorAssign
        | TokenKind::ShiftLeftAssign
        | TokenKind::ShiftRightAssign => Sort::Update,
        TokenKind::Arrow => Sort::Arrow,
    }
}
