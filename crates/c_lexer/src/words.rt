// Which words are keywords and literals.

ghost use Rattle.std.specs.Prelude.{◌≡◌};
ghost use Rattle.c_lexer.specs.Words as spec;

use crate::bytes::byte_at;
use crate::token::{Constant, Keyword, TokenKind};

fn word_in_a(word: &[u8]) -> TokenKind
    ensures { result ≡ spec.word_in_a word.now }
{
    if word == b"auto".as_slice() {
        TokenKind::UnusedKeyword
    } else {
        TokenKind::Identifier
    }
}

fn word_in_b(word: &[u8]) -> TokenKind
    ensures { result ≡ spec.word_in_b word.now }
{
    if word == b"break".as_slice() {
        TokenKind::UnusedKeyword
    } else {
        TokenKind::Identifier
    }
}

fn word_in_c(word: &[u8]) -> TokenKind
    ensures { result ≡ spec.word_in_c word.now }
{
    if word == b"case".as_slice() {
        TokenKind::Keyword(Keyword::Case)
    } else if word == b"char".as_slice() {
        TokenKind::Keyword(Keyword::Char)
    } else if word == b"const".as_slice() {
        TokenKind::Keyword(Keyword::Const)
    } else if word == b"continue".as_slice() {
        TokenKind::UnusedKeyword
    } else {
        TokenKind::Identifier
    }
}

fn word_in_d(word: &[u8]) -> TokenKind
    ensures { result ≡ spec.word_in_d word.now }
{
    if word == b"default".as_slice() {
        TokenKind::Keyword(Keyword::Default)
    } else if word == b"do".as_slice() {
        TokenKind::UnusedKeyword
    } else if word == b"double".as_slice() {
        TokenKind::UnusedKeyword
    } else {
        TokenKind::Identifier
    }
}

fn word_in_e(word: &[u8]) -> TokenKind
    ensures { result ≡ spec.word_in_e word.now }
{
    if word == b"else".as_slice() {
        TokenKind::Keyword(Keyword::Else)
    } else if word == b"enum".as_slice() {
        TokenKind::Keyword(Keyword::Enum)
    } else if word == b"extern".as_slice() {
        TokenKind::UnusedKeyword
    } else {
        TokenKind::Identifier
    }
}

fn word_in_f(word: &[u8]) -> TokenKind
    ensures { result ≡ spec.word_in_f word.now }
{
    if word == b"float".as_slice() {
        TokenKind::UnusedKeyword
    } else if word == b"for".as_slice() {
        TokenKind::UnusedKeyword
    } else {
        TokenKind::Identifier
    }
}

fn word_in_g(word: &[u8]) -> TokenKind
    ensures { result ≡ spec.word_in_g word.now }
{
    if word == b"goto".as_slice() {
        TokenKind::Keyword(Keyword::Goto)
    } else {
        TokenKind::Identifier
    }
}

fn word_in_i(word: &[u8]) -> TokenKind
    ensures { result ≡ spec.word_in_i word.now }
{
    if word == b"if".as_slice() {
        TokenKind::Keyword(Keyword::If)
    } else if word == b"inline".as_slice() {
        TokenKind::UnusedKeyword
    } else if word == b"int".as_slice() {
        TokenKind::Keyword(Keyword::Int)
    } else {
        TokenKind::Identifier
    }
}

fn word_in_l(word: &[u8]) -> TokenKind
    ensures { result ≡ spec.word_in_l word.now }
{
    if word == b"long".as_slice() {
        TokenKind::UnusedKeyword
    } else {
        TokenKind::Identifier
    }
}

fn word_in_r(word: &[u8]) -> TokenKind
    ensures { result ≡ spec.word_in_r word.now }
{
    if word == b"register".as_slice() {
        TokenKind::UnusedKeyword
    } else if word == b"restrict".as_slice() {
        TokenKind::UnusedKeyword
    } else if word == b"return".as_slice() {
        TokenKind::Keyword(Keyword::Return)
    } else {
        TokenKind::Identifier
    }
}

fn word_in_s(word: &[u8]) -> TokenKind
    ensures { result ≡ spec.word_in_s word.now }
{
    if word == b"short".as_slice() {
        TokenKind::UnusedKeyword
    } else if word == b"signed".as_slice() {
        TokenKind::UnusedKeyword
    } else if word == b"sizeof".as_slice() {
        TokenKind::Keyword(Keyword::Sizeof)
    } else if word == b"static".as_slice() {
        TokenKind::Keyword(Keyword::Static)
    } else if word == b"struct".as_slice() {
        TokenKind::Keyword(Keyword::Struct)
    } else if word == b"switch".as_slice() {
        TokenKind::Keyword(Keyword::Switch)
    } else {
        TokenKind::Identifier
    }
}

fn word_in_t(word: &[u8]) -> TokenKind
    ensures { result ≡ spec.word_in_t word.now }
{
    if word == b"typedef".as_slice() {
        TokenKind::Keyword(Keyword::Typedef)
    } else {
        TokenKind::Identifier
    }
}

fn word_in_u(word: &[u8]) -> TokenKind
    ensures { result ≡ spec.word_in_u word.now }
{
    if word == b"union".as_slice() {
        TokenKind::UnusedKeyword
    } else if word == b"unsigned".as_slice() {
        TokenKind::UnusedKeyword
    } else {
        TokenKind::Identifier
    }
}

fn word_in_v(word: &[u8]) -> TokenKind
    ensures { result ≡ spec.word_in_v word.now }
{
    if word == b"void".as_slice() {
        TokenKind::Keyword(Keyword::Void)
    } else if word == b"volatile".as_slice() {
        TokenKind::UnusedKeyword
    } else {
        TokenKind::Identifier
    }
}

fn word_in_w(word: &[u8]) -> TokenKind
    ensures { result ≡ spec.word_in_w word.now }
{
    if word == b"while".as_slice() {
        TokenKind::UnusedKeyword
    } else {
        TokenKind::Identifier
    }
}

fn word_in_capital_f(word: &[u8]) -> TokenKind
    ensures { result ≡ spec.word_in_capital_f word.now }
{
    if word == b"FALSE".as_slice() {
        TokenKind::Constant(Constant::False)
    } else {
        TokenKind::Identifier
    }
}

fn word_in_capital_n(word: &[u8]) -> TokenKind
    ensures { result ≡ spec.word_in_capital_n word.now }
{
    if word == b"NULL".as_slice() {
        TokenKind::Constant(Constant::Null)
    } else {
        TokenKind::Identifier
    }
}

fn word_in_capital_t(word: &[u8]) -> TokenKind
    ensures { result ≡ spec.word_in_capital_t word.now }
{
    if word == b"TRUE".as_slice() {
        TokenKind::Constant(Constant::True)
    } else {
        TokenKind::Identifier
    }
}

fn word_in_underscore(word: &[u8]) -> TokenKind
    ensures { result ≡ spec.word_in_underscore word.now }
{
    if word == b"_Alignas".as_slice() {
        TokenKind::UnusedKeyword
    } else if word == b"_Alignof".as_slice() {
        TokenKind::UnusedKeyword
    } else if word == b"_Atomic".as_slice() {
        TokenKind::UnusedKeyword
    } else if word == b"_Bool".as_slice() {
        TokenKind::UnusedKeyword
    } else if word == b"_Complex".as_slice() {
        TokenKind::UnusedKeyword
    } else if word == b"_Generic".as_slice() {
        TokenKind::UnusedKeyword
    } else if word == b"_Imaginary".as_slice() {
        TokenKind::UnusedKeyword
    } else if word == b"_Noreturn".as_slice() {
        TokenKind::UnusedKeyword
    } else if word == b"_Static_assert".as_slice() {
        TokenKind::UnusedKeyword
    } else if word == b"_Thread_local".as_slice() {
        TokenKind::UnusedKeyword
    } else {
        TokenKind::Identifier
    }
}

fn word_in_g_c(word: &[u8]) -> TokenKind
    ensures { result ≡ spec.word_in_g_c word.now }
{
    if word == b"G_CONNECT_AFTER".as_slice() {
        TokenKind::Constant(Constant::ConnectAfter)
    } else {
        TokenKind::Identifier
    }
}

fn word_in_g_p(word: &[u8]) -> TokenKind
    ensures { result ≡ spec.word_in_g_p word.now }
{
    if word == b"G_PARAM_CONSTRUCT".as_slice() {
        TokenKind::Constant(Constant::ParamConstruct)
    } else if word == b"G_PARAM_READWRITE".as_slice() {
        TokenKind::Constant(Constant::ParamReadwrite)
    } else {
        TokenKind::Identifier
    }
}

fn word_in_g_s(word: &[u8]) -> TokenKind
    ensures { result ≡ spec.word_in_g_s word.now }
{
    if word == b"G_SIGNAL_MATCH_DATA".as_slice() {
        TokenKind::Constant(Constant::SignalMatchData)
    } else if word == b"G_SIGNAL_MATCH_FUNC".as_slice() {
        TokenKind::Constant(Constant::SignalMatchFunc)
    } else if word == b"G_SIGNAL_MATCH_ID".as_slice() {
        TokenKind::Constant(Constant::SignalMatchId)
    } else if word == b"G_SIGNAL_RUN_LAST".as_slice() {
        TokenKind::Constant(Constant::SignalRunLast)
    } else if word == b"G_STRUCT_OFFSET".as_slice() {
        TokenKind::Keyword(Keyword::StructOffset)
    } else {
        TokenKind::Identifier
    }
}

fn word_in_g_t(word: &[u8]) -> TokenKind
    ensures { result ≡ spec.word_in_g_t word.now }
{
    if word == b"G_TYPE_BOOLEAN".as_slice() {
        TokenKind::Constant(Constant::TypeBoolean)
    } else if word == b"G_TYPE_CHAR".as_slice() {
        TokenKind::Constant(Constant::TypeChar)
    } else if word == b"G_TYPE_INT".as_slice() {
        TokenKind::Constant(Constant::TypeInt)
    } else if word == b"G_TYPE_INT64".as_slice() {
        TokenKind::Constant(Constant::TypeInt64)
    } else if word == b"G_TYPE_INTERFACE".as_slice() {
        TokenKind::Constant(Constant::TypeInterface)
    } else if word == b"G_TYPE_LONG".as_slice() {
        TokenKind::Constant(Constant::TypeLong)
    } else if word == b"G_TYPE_NONE".as_slice() {
        TokenKind::Constant(Constant::TypeNone)
    } else if word == b"G_TYPE_OBJECT".as_slice() {
        TokenKind::Constant(Constant::TypeObject)
    } else if word == b"G_TYPE_STRING".as_slice() {
        TokenKind::Constant(Constant::TypeString)
    } else if word == b"G_TYPE_UCHAR".as_slice() {
        TokenKind::Constant(Constant::TypeUchar)
    } else if word == b"G_TYPE_UINT".as_slice() {
        TokenKind::Constant(Constant::TypeUint)
    } else if word == b"G_TYPE_UINT64".as_slice() {
        TokenKind::Constant(Constant::TypeUint64)
    } else if word == b"G_TYPE_ULONG".as_slice() {
        TokenKind::Constant(Constant::TypeUlong)
    } else {
        TokenKind::Identifier
    }
}

// What begins with `G_`, by its third byte.
fn word_behind_g(third: u8, word: &[u8]) -> TokenKind
    ensures { result ≡ spec.word_behind_g third word.now }
{
    match third {
        b'C' => word_in_g_c(word),
        b'P' => word_in_g_p(word),
        b'S' => word_in_g_s(word),
        b'T' => word_in_g_t(word),
        _ => TokenKind::Identifier,
    }
}

/// The keyword or literal that a word is, or `Identifier`.
pub fn word_kind(word: &[u8]) -> TokenKind
    ensures { result ≡ spec.word_kind word.now }
{
    match byte_at(word, 0) {
        b'a' => word_in_a(word),
        b'b' => word_in_b(word),
        b'c' => word_in_c(word),
        b'd' => word_in_d(word),
        b'e' => word_in_e(word),
        b'f' => word_in_f(word),
        b'g' => word_in_g(word),
        b'i' => word_in_i(word),
        b'l' => word_in_l(word),
        b'r' => word_in_r(word),
        b's' => word_in_s(word),
        b't' => word_in_t(word),
        b'u' => word_in_u(word),
        b'v' => word_in_v(word),
        b'w' => word_in_w(word),
        b'F' => word_in_capital_f(word),
        b'N' => word_in_capital_n(word),
        b'T' => word_in_capital_t(word),
        b'_' => word_in_underscore(word),
        b'G' => word_behind_g(byte_at(word, 2), word),
        _ => TokenKind::Identifier,
    }
}
