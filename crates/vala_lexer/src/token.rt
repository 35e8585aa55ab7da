// What a token is.

use vg_base::Span;

/// The type of an integer literal.
#[derive(Clone, Copy)]
pub enum IntegerType {
    Int,
    Uint,
    Long,
    Ulong,
    Int64,
    Uint64,
}

/// The class of a token: one variant per keyword and per sign, and the literals with what they denote.
#[derive(Clone, Copy)]
pub enum TokenKind {
    /// A letter or `_`, then letters, digits and `_`; or `@` in front of a keyword.
    Identifier,
    /// A number, by its value and its type.
    Integer(u64, IntegerType),
    /// A text, written with its quotes.
    Text,
    /// A character, by its code.
    Character(u8),
    Abstract,
    As,
    Async,
    Base,
    Break,
    Case,
    Catch,
    Class,
    Const,
    Construct,
    Continue,
    Default,
    Delegate,
    Delete,
    Do,
    Else,
    Enum,
    Errordomain,
    Extern,
    False,
    Finally,
    For,
    Foreach,
    If,
    In,
    Inline,
    Interface,
    Internal,
    Is,
    Lock,
    Namespace,
    New,
    Null,
    Out,
    Override,
    Owned,
    Params,
    Private,
    Protected,
    Public,
    Ref,
    Return,
    Sealed,
    Signal,
    Sizeof,
    Static,
    Struct,
    Switch,
    This,
    Throw,
    Throws,
    True,
    Try,
    Typeof,
    Unowned,
    Using,
    Var,
    Virtual,
    Void,
    Weak,
    While,
    With,
    Yield,
    /// `{`
    OpenBrace,
    /// `}`
    CloseBrace,
    /// `(`
    OpenParen,
    /// `)`
    CloseParen,
    /// `[`
    OpenBracket,
    /// `]`
    CloseBracket,
    /// `,`
    Comma,
    /// `;`
    Semicolon,
    /// `:`
    Colon,
    /// `.`
    Dot,
    /// `?`
    Question,
    /// `??`
    Coalesce,
    /// `=`
    Assign,
    /// `==`
    Equal,
    /// `!=`
    NotEqual,
    /// `<`
    Less,
    /// `>`
    Greater,
    /// `<=`
    LessEqual,
    /// `>=`
    GreaterEqual,
    /// `+`
    Plus,
    /// `-`
    Minus,
    /// `*`
    Star,
    /// `/`
    Slash,
    /// `%`
    Percent,
    /// `&`
    Ampersand,
    /// `|`
    Bar,
    /// `^`
    Caret,
    /// `!`
    Not,
    /// `~`
    Tilde,
    /// `&&`
    AndAnd,
    /// `||`
    OrOr,
    /// `<<`
    ShiftLeft,
    /// `>>`
    ShiftRight,
    /// `++`
    Increment,
    /// `--`
    Decrement,
    /// `+=`
    PlusAssign,
    /// `-=`
    MinusAssign,
    /// `*=`
    StarAssign,
    /// `/=`
    SlashAssign,
    /// `%=`
    PercentAssign,
    /// `&=`
    AndAssign,
    /// `|=`
    OrAssign,
    /// `^=`
    XorAssign,
    /// `<<=`
    ShiftLeftAssign,
    /// `>>=`
    ShiftRightAssign,
    /// `=>`
    Arrow,
    /// `...`
    Ellipsis,
}

/// A token: its class, the bytes that it is written by, and where they stand.
#[derive(Clone, Copy)]
pub struct Token<'t> {
    pub kind: TokenKind,
    pub text: &'t [u8],
    pub span: Span,
}
