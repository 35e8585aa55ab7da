// How keywords, literals and signs are written.

ghost use Rattle.std.specs.Prelude.{◌≡◌};
ghost use Rattle.c_lexer.specs.Spelling.{keyword_spelling, constant_spelling, sign_spelling};

use c_lexer::{Constant, Keyword, Sign};

/// How a keyword is written.
pub fn keyword_text(word: Keyword) -> &'static [u8]
    ensures { result.now ≡ keyword_spelling word }
{
    match word {
        Keyword::Case => b"case".as_slice(),
        Keyword::Char => b"char".as_slice(),
        Keyword::Const => b"const".as_slice(),
        Keyword::Default => b"default".as_slice(),
        Keyword::Else => b"else".as_slice(),
        Keyword::Enum => b"enum".as_slice(),
        Keyword::Goto => b"goto".as_slice(),
        Keyword::If => b"if".as_slice(),
        Keyword::Int => b"int".as_slice(),
        Keyword::Return => b"return".as_slice(),
        Keyword::Sizeof => b"sizeof".as_slice(),
        Keyword::Static => b"static".as_slice(),
        Keyword::Struct => b"struct".as_slice(),
        Keyword::Switch => b"switch".as_slice(),
        Keyword::Typedef => b"typedef".as_slice(),
        Keyword::Void => b"void".as_slice(),
        Keyword::StructOffset => b"G_STRUCT_OFFSET".as_slice(),
    }
}

/// How a capital name is written.
pub fn constant_text(name: Constant) -> &'static [u8]
    ensures { result.now ≡ constant_spelling name }
{
    match name {
        Constant::Null => b"NULL".as_slice(),
        Constant::True => b"TRUE".as_slice(),
        Constant::False => b"FALSE".as_slice(),
        Constant::TypeNone => b"G_TYPE_NONE".as_slice(),
        Constant::TypeInterface => b"G_TYPE_INTERFACE".as_slice(),
        Constant::TypeObject => b"G_TYPE_OBJECT".as_slice(),
        Constant::TypeBoolean => b"G_TYPE_BOOLEAN".as_slice(),
        Constant::TypeChar => b"G_TYPE_CHAR".as_slice(),
        Constant::TypeUchar => b"G_TYPE_UCHAR".as_slice(),
        Constant::TypeInt => b"G_TYPE_INT".as_slice(),
        Constant::TypeUint => b"G_TYPE_UINT".as_slice(),
        Constant::TypeLong => b"G_TYPE_LONG".as_slice(),
        Constant::TypeUlong => b"G_TYPE_ULONG".as_slice(),
        Constant::TypeInt64 => b"G_TYPE_INT64".as_slice(),
        Constant::TypeUint64 => b"G_TYPE_UINT64".as_slice(),
        Constant::TypeString => b"G_TYPE_STRING".as_slice(),
        Constant::SignalRunLast => b"G_SIGNAL_RUN_LAST".as_slice(),
        Constant::SignalMatchId => b"G_SIGNAL_MATCH_ID".as_slice(),
        Constant::SignalMatchFunc => b"G_SIGNAL_MATCH_FUNC".as_slice(),
        Constant::SignalMatchData => b"G_SIGNAL_MATCH_DATA".as_slice(),
        Constant::ConnectAfter => b"G_CONNECT_AFTER".as_slice(),
        Constant::ParamReadwrite => b"G_PARAM_READWRITE".as_slice(),
        Constant::ParamConstruct => b"G_PARAM_CONSTRUCT".as_slice(),
    }
}

/// How a sign is written.
pub fn sign_text(sign: Sign) -> &'static [u8]
    ensures { result.now ≡ sign_spelling sign }
{
    match sign {
        Sign::OpenBrace => b"{".as_slice(),
        Sign::CloseBrace => b"}".as_slice(),
        Sign::OpenParen => b"(".as_slice(),
        Sign::CloseParen => b")".as_slice(),
        Sign::OpenBracket => b"[".as_slice(),
        Sign::CloseBracket => b"]".as_slice(),
        Sign::Comma => b",".as_slice(),
        Sign::Semicolon => b";".as_slice(),
        Sign::Colon => b":".as_slice(),
        Sign::Dot => b".".as_slice(),
        Sign::Question => b"?".as_slice(),
        Sign::Assign => b"=".as_slice(),
        Sign::Less => b"<".as_slice(),
        Sign::Greater => b">".as_slice(),
        Sign::Plus => b"+".as_slice(),
        Sign::Minus => b"-".as_slice(),
        Sign::Star => b"*".as_slice(),
        Sign::Slash => b"/".as_slice(),
        Sign::Percent => b"%".as_slice(),
        Sign::Ampersand => b"&".as_slice(),
        Sign::Bar => b"|".as_slice(),
        Sign::Caret => b"^".as_slice(),
        Sign::Not => b"!".as_slice(),
        Sign::Tilde => b"~".as_slice(),
        Sign::Hash => b"#".as_slice(),
        Sign::Equal => b"==".as_slice(),
        Sign::NotEqual => b"!=".as_slice(),
        Sign::LessEqual => b"<=".as_slice(),
        Sign::GreaterEqual => b">=".as_slice(),
        Sign::PlusAssign => b"+=".as_slice(),
        Sign::MinusAssign => b"-=".as_slice(),
        Sign::StarAssign => b"*=".as_slice(),
        Sign::SlashAssign => b"/=".as_slice(),
        Sign::PercentAssign => b"%=".as_slice(),
        Sign::AndAssign => b"&=".as_slice(),
        Sign::OrAssign => b"|=".as_slice(),
        Sign::XorAssign => b"^=".as_slice(),
        Sign::AndAnd => b"&&".as_slice(),
        Sign::OrOr => b"||".as_slice(),
        Sign::ShiftLeft => b"<<".as_slice(),
        Sign::ShiftRight => b">>".as_slice(),
        Sign::Increment => b"++".as_slice(),
        Sign::Decrement => b"--".as_slice(),
        Sign::Paste => b"##".as_slice(),
        Sign::Arrow => b"->".as_slice(),
        Sign::ShiftLeftAssign => b"<<=".as_slice(),
        Sign::ShiftRightAssign => b">>=".as_slice(),
        Sign::Ellipsis => b"...".as_slice(),
    }
}
