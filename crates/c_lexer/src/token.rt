// What a token is.

/// The type of a number.
#[derive(Clone, Copy)]
pub enum NumberType {
    /// 32 bits and a sign.
    Gint,
    /// 32 bits and no sign.
    Guint,
    /// 64 bits and a sign.
    Glong,
    /// 64 bits and no sign.
    Gulong,
}

/// The words with a meaning of their own: keywords of C that the dialect uses, and `G_STRUCT_OFFSET`.
#[derive(Clone, Copy)]
pub enum Keyword {
    /// `case`
    Case,
    /// `char`
    Char,
    /// `const`
    Const,
    /// `default`
    Default,
    /// `else`
    Else,
    /// `enum`
    Enum,
    /// `goto`
    Goto,
    /// `if`
    If,
    /// `int`
    Int,
    /// `return`
    Return,
    /// `sizeof`
    Sizeof,
    /// `static`
    Static,
    /// `struct`
    Struct,
    /// `switch`
    Switch,
    /// `typedef`
    Typedef,
    /// `void`
    Void,
    /// `G_STRUCT_OFFSET`
    StructOffset,
}

/// The capital names that are literals.
#[derive(Clone, Copy)]
pub enum Constant {
    /// `NULL`
    Null,
    /// `TRUE`
    True,
    /// `FALSE`
    False,
    /// `G_TYPE_NONE`
    TypeNone,
    /// `G_TYPE_INTERFACE`
    TypeInterface,
    /// `G_TYPE_OBJECT`
    TypeObject,
    /// `G_TYPE_BOOLEAN`
    TypeBoolean,
    /// `G_TYPE_CHAR`
    TypeChar,
    /// `G_TYPE_UCHAR`
    TypeUchar,
    /// `G_TYPE_INT`
    TypeInt,
    /// `G_TYPE_UINT`
    TypeUint,
    /// `G_TYPE_LONG`
    TypeLong,
    /// `G_TYPE_ULONG`
    TypeUlong,
    /// `G_TYPE_INT64`
    TypeInt64,
    /// `G_TYPE_UINT64`
    TypeUint64,
    /// `G_TYPE_STRING`
    TypeString,
    /// `G_SIGNAL_RUN_LAST`
    SignalRunLast,
    /// `G_SIGNAL_MATCH_ID`
    SignalMatchId,
    /// `G_SIGNAL_MATCH_FUNC`
    SignalMatchFunc,
    /// `G_SIGNAL_MATCH_DATA`
    SignalMatchData,
    /// `G_CONNECT_AFTER`
    ConnectAfter,
    /// `G_PARAM_READWRITE`
    ParamReadwrite,
    /// `G_PARAM_CONSTRUCT`
    ParamConstruct,
}

/// The signs of C.
#[derive(Clone, Copy)]
pub enum Sign {
    /// `{`
    OpenBrace,
    /// `}`
    CloseBrace,
    /// `(`
    OpenParen,
    /// `)`
    CloseParen,
    /// `[`
    OpenBracket,
    /// `]`
    CloseBracket,
    /// `,`
    Comma,
    /// `;`
    Semicolon,
    /// `:`
    Colon,
    /// `.`
    Dot,
    /// `?`
    Question,
    /// `=`
    Assign,
    /// `<`
    Less,
    /// `>`
    Greater,
    /// `+`
    Plus,
    /// `-`
    Minus,
    /// `*`
    Star,
    /// `/`
    Slash,
    /// `%`
    Percent,
    /// `&`
    Ampersand,
    /// `|`
    Bar,
    /// `^`
    Caret,
    /// `!`
    Not,
    /// `~`
    Tilde,
    /// `#`
    Hash,
    /// `==`
    Equal,
    /// `!=`
    NotEqual,
    /// `<=`
    LessEqual,
    /// `>=`
    GreaterEqual,
    /// `+=`
    PlusAssign,
    /// `-=`
    MinusAssign,
    /// `*=`
    StarAssign,
    /// `/=`
    SlashAssign,
    /// `%=`
    PercentAssign,
    /// `&=`
    AndAssign,
    /// `|=`
    OrAssign,
    /// `^=`
    XorAssign,
    /// `&&`
    AndAnd,
    /// `||`
    OrOr,
    /// `<<`
    ShiftLeft,
    /// `>>`
    ShiftRight,
    /// `++`
    Increment,
    /// `--`
    Decrement,
    /// `##`
    Paste,
    /// `->`
    Arrow,
    /// `<<=`
    ShiftLeftAssign,
    /// `>>=`
    ShiftRightAssign,
    /// `...`
    Ellipsis,
}

/// The class of a token.
#[derive(Clone, Copy)]
pub enum TokenKind {
    /// A letter or `_`, then letters, digits and `_`, and none of the words below.
    Identifier,
    /// A word that the dialect uses.
    Keyword(Keyword),
    /// A keyword of C11 that the dialect does not use.
    UnusedKeyword,
    /// A capital name that is a literal.
    Constant(Constant),
    /// A number, by its value and its type.
    Number(u64, NumberType),
    /// A text, written with its quotes.
    Text,
    /// A character, by its byte.
    Character(u8),
    Sign(Sign),
}

/// A token: its class, the bytes that it is written by, where they stand, and whether no other token stands before it on its line.
#[derive(Clone, Copy)]
pub struct Token<'t> {
    pub kind: TokenKind,
    pub text: &'t [u8],
    pub start: u32,
    pub end: u32,
    pub begins_line: bool,
}

/// Bytes that are no token, by the first of them.
#[derive(Clone, Copy)]
pub struct BadToken {
    pub at: u32,
}
