// Keywords.

ghost use Rattle.std.specs.Prelude.{◌≡◌};
ghost use Rattle.vala_lexer.specs.Words as spec;

use crate::bytes::byte_at;
use crate::token::TokenKind;

fn keyword_in_a(word: &[u8]) -> TokenKind
    ensures { result ≡ spec.keyword_in_a word.now }
{
    if word == b"abstract".as_slice() {
        TokenKind::Abstract
    } else if word == b"as".as_slice() {
        TokenKind::As
    } else if word == b"async".as_slice() {
        TokenKind::Async
    } else {
        TokenKind::Identifier
    }
}

fn keyword_in_b(word: &[u8]) -> TokenKind
    ensures { result ≡ spec.keyword_in_b word.now }
{
    if word == b"base".as_slice() {
        TokenKind::Base
    } else if word == b"break".as_slice() {
        TokenKind::Break
    } else {
        TokenKind::Identifier
    }
}

fn keyword_in_c(word: &[u8]) -> TokenKind
    ensures { result ≡ spec.keyword_in_c word.now }
{
    if word == b"case".as_slice() {
        TokenKind::Case
    } else if word == b"catch".as_slice() {
        TokenKind::Catch
    } else if word == b"class".as_slice() {
        TokenKind::Class
    } else if word == b"const".as_slice() {
        TokenKind::Const
    } else if word == b"construct".as_slice() {
        TokenKind::Construct
    } else if word == b"continue".as_slice() {
        TokenKind::Continue
    } else {
        TokenKind::Identifier
    }
}

fn keyword_in_d(word: &[u8]) -> TokenKind
    ensures { result ≡ spec.keyword_in_d word.now }
{
    if word == b"default".as_slice() {
        TokenKind::Default
    } else if word == b"delegate".as_slice() {
        TokenKind::Delegate
    } else if word == b"delete".as_slice() {
        TokenKind::Delete
    } else if word == b"do".as_slice() {
        TokenKind::Do
    } else {
        TokenKind::Identifier
    }
}

fn keyword_in_e(word: &[u8]) -> TokenKind
    ensures { result ≡ spec.keyword_in_e word.now }
{
    if word == b"else".as_slice() {
        TokenKind::Else
    } else if word == b"enum".as_slice() {
        TokenKind::Enum
    } else if word == b"errordomain".as_slice() {
        TokenKind::Errordomain
    } else if word == b"extern".as_slice() {
        TokenKind::Extern
    } else {
        TokenKind::Identifier
    }
}

fn keyword_in_f(word: &[u8]) -> TokenKind
    ensures { result ≡ spec.keyword_in_f word.now }
{
    if word == b"false".as_slice() {
        TokenKind::False
    } else if word == b"finally".as_slice() {
        TokenKind::Finally
    } else if word == b"for".as_slice() {
        TokenKind::For
    } else if word == b"foreach".as_slice() {
        TokenKind::Foreach
    } else {
        TokenKind::Identifier
    }
}

fn keyword_in_i(word: &[u8]) -> TokenKind
    ensures { result ≡ spec.keyword_in_i word.now }
{
    if word == b"if".as_slice() {
        TokenKind::If
    } else if word == b"in".as_slice() {
        TokenKind::In
    } else if word == b"inline".as_slice() {
        TokenKind::Inline
    } else if word == b"interface".as_slice() {
        TokenKind::Interface
    } else if word == b"internal".as_slice() {
        TokenKind::Internal
    } else if word == b"is".as_slice() {
        TokenKind::Is
    } else {
        TokenKind::Identifier
    }
}

fn keyword_in_l(word: &[u8]) -> TokenKind
    ensures { result ≡ spec.keyword_in_l word.now }
{
    if word == b"lock".as_slice() {
        TokenKind::Lock
    } else {
        TokenKind::Identifier
    }
}

fn keyword_in_n(word: &[u8]) -> TokenKind
    ensures { result ≡ spec.keyword_in_n word.now }
{
    if word == b"namespace".as_slice() {
        TokenKind::Namespace
    } else if word == b"new".as_slice() {
        TokenKind::New
    } else if word == b"null".as_slice() {
        TokenKind::Null
    } else {
        TokenKind::Identifier
    }
}

fn keyword_in_o(word: &[u8]) -> TokenKind
    ensures { result ≡ spec.keyword_in_o word.now }
{
    if word == b"out".as_slice() {
        TokenKind::Out
    } else if word == b"override".as_slice() {
        TokenKind::Override
    } else if word == b"owned".as_slice() {
        TokenKind::Owned
    } else {
        TokenKind::Identifier
    }
}

fn keyword_in_p(word: &[u8]) -> TokenKind
    ensures { result ≡ spec.keyword_in_p word.now }
{
    if word == b"params".as_slice() {
        TokenKind::Params
    } else if word == b"private".as_slice() {
        TokenKind::Private
    } else if word == b"protected".as_slice() {
        TokenKind::Protected
    } else if word == b"public".as_slice() {
        TokenKind::Public
    } else {
        TokenKind::Identifier
    }
}

fn keyword_in_r(word: &[u8]) -> TokenKind
    ensures { result ≡ spec.keyword_in_r word.now }
{
    if word == b"ref".as_slice() {
        TokenKind::Ref
    } else if word == b"return".as_slice() {
        TokenKind::Return
    } else {
        TokenKind::Identifier
    }
}

fn keyword_in_s(word: &[u8]) -> TokenKind
    ensures { result ≡ spec.keyword_in_s word.now }
{
    if word == b"sealed".as_slice() {
        TokenKind::Sealed
    } else if word == b"signal".as_slice() {
        TokenKind::Signal
    } else if word == b"sizeof".as_slice() {
        TokenKind::Sizeof
    } else if word == b"static".as_slice() {
        TokenKind::Static
    } else if word == b"struct".as_slice() {
        TokenKind::Struct
    } else if word == b"switch".as_slice() {
        TokenKind::Switch
    } else {
        TokenKind::Identifier
    }
}

fn keyword_in_t(word: &[u8]) -> TokenKind
    ensures { result ≡ spec.keyword_in_t word.now }
{
    if word == b"this".as_slice() {
        TokenKind::This
    } else if word == b"throw".as_slice() {
        TokenKind::Throw
    } else if word == b"throws".as_slice() {
        TokenKind::Throws
    } else if word == b"true".as_slice() {
        TokenKind::True
    } else if word == b"try".as_slice() {
        TokenKind::Try
    } else if word == b"typeof".as_slice() {
        TokenKind::Typeof
    } else {
        TokenKind::Identifier
    }
}

fn keyword_in_u(word: &[u8]) -> TokenKind
    ensures { result ≡ spec.keyword_in_u word.now }
{
    if word == b"unowned".as_slice() {
        TokenKind::Unowned
    } else if word == b"using".as_slice() {
        TokenKind::Using
    } else {
        TokenKind::Identifier
    }
}

fn keyword_in_v(word: &[u8]) -> TokenKind
    ensures { result ≡ spec.keyword_in_v word.now }
{
    if word == b"var".as_slice() {
        TokenKind::Var
    } else if word == b"virtual".as_slice() {
        TokenKind::Virtual
    } else if word == b"void".as_slice() {
        TokenKind::Void
    } else {
        TokenKind::Identifier
    }
}

fn keyword_in_w(word: &[u8]) -> TokenKind
    ensures { result ≡ spec.keyword_in_w word.now }
{
    if word == b"weak".as_slice() {
        TokenKind::Weak
    } else if word == b"while".as_slice() {
        TokenKind::While
    } else if word == b"with".as_slice() {
        TokenKind::With
    } else {
        TokenKind::Identifier
    }
}

fn keyword_in_y(word: &[u8]) -> TokenKind
    ensures { result ≡ spec.keyword_in_y word.now }
{
    if word == b"yield".as_slice() {
        TokenKind::Yield
    } else {
        TokenKind::Identifier
    }
}

/// The keyword that a word is, or `Identifier`.
pub fn word_kind(word: &[u8]) -> TokenKind
    ensures { result ≡ spec.word_kind word.now }
{
    match byte_at(word, 0) {
        b'a' => keyword_in_a(word),
        b'b' => keyword_in_b(word),
        b'c' => keyword_in_c(word),
        b'd' => keyword_in_d(word),
        b'e' => keyword_in_e(word),
        b'f' => keyword_in_f(word),
        b'i' => keyword_in_i(word),
        b'l' => keyword_in_l(word),
        b'n' => keyword_in_n(word),
        b'o' => keyword_in_o(word),
        b'p' => keyword_in_p(word),
        b'r' => keyword_in_r(word),
        b's' => keyword_in_s(word),
        b't' => keyword_in_t(word),
        b'u' => keyword_in_u(word),
        b'v' => keyword_in_v(word),
        b'w' => keyword_in_w(word),
        b'y' => keyword_in_y(word),
        _ => TokenKind::Identifier,
    }
}
