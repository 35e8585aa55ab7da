// The tokens of small texts, and where they stop.

use c_lexer::{Lexer, NumberType, Token, TokenKind, needs_space, text_value};
use std::alloc::Global;
use std::test::Fail;

fn type_name(number_type: NumberType) -> &'static str {
    match number_type {
        NumberType::Gint => "gint",
        NumberType::Guint => "guint",
        NumberType::Glong => "glong",
        NumberType::Gulong => "gulong",
    }
}

// The bytes that a text denotes, as numbers.
fn denoted(alloc: Global, text: &[u8]) -> Result<String, Fail> {
    let mut out = String::new(alloc);
    if let Ok(bytes) = text_value(alloc, text) {
        for byte in bytes.iter() {
            out.push_str(format!(in alloc; ".{byte}")?.as_str())?;
        }
    }
    Ok(out)
}

// A letter for the class, the place, and what a literal denotes; in front a `^` where the token begins a line.
fn told(alloc: Global, token: Token<'_>) -> Result<String, Fail> {
    let start = token.start;
    let end = token.end;
    let line = if token.begins_line { "^" } else { "" };
    Ok(match token.kind {
        TokenKind::Identifier => format!(in alloc; "{line}i{start}-{end}")?,
        TokenKind::Keyword(_) => format!(in alloc; "{line}k{start}-{end}")?,
        TokenKind::UnusedKeyword => format!(in alloc; "{line}u{start}-{end}")?,
        TokenKind::Constant(_) => format!(in alloc; "{line}n{start}-{end}")?,
        TokenKind::Sign(_) => format!(in alloc; "{line}s{start}-{end}")?,
        TokenKind::Number(value, number_type) => {
            let name = type_name(number_type);
            format!(in alloc; "{line}{start}-{end}={value} {name}")?
        }
        TokenKind::Text => {
            let bytes = denoted(alloc, token.text)?;
            let bytes = bytes.as_str();
            format!(in alloc; "{line}t{start}-{end}{bytes}")?
        }
        TokenKind::Character(byte) => format!(in alloc; "{line}c{start}-{end}={byte}")?,
    })
}

// The tokens up to the end or the bad token, which is asked for once more.
fn lexed(alloc: Global, text: &[u8]) -> Result<String, Fail> {
    let mut out = String::new(alloc);
    if text.len() > 1000 {
        return Ok(out);
    }
    let mut lexer = Lexer::new(text);
    for i in 0..100 {
        match lexer.next() {
            Ok(Some(token)) => {
                if i > 0 {
                    out.push_str(" ")?;
                }
                out.push_str(told(alloc, token)?.as_str())?;
            }
            Ok(None) => break,
            Err(_) => {
                if let Err(bad) = lexer.peek() {
                    let gap = if i > 0 { " " } else { "" };
                    let at = bad.at;
                    out.push_str(format!(in alloc; "{gap}C1 {at}")?.as_str())?;
                }
                break;
            }
        }
    }
    Ok(out)
}

const BLANKS: &[(&[u8], &str)] = &[
    (b"", ""),
    (b" \t\n\x0c\r", ""),
    (b"a\x0bb", "^i0-1 C1 1"),
    (b"a\x00", "^i0-1 C1 1"),
    (b"/* \x00 */a", "^i7-8"),
    (b"// \x00\na", "^i5-6"),
    (b"a//b", "^i0-1"),
    (b"a//b\nc", "^i0-1 ^i5-6"),
    (b"/**/a", "^i4-5"),
    (b"/* * / **/a", "^i10-11"),
    (b"/* /* */ a", "^i9-10"),
    (b"/*/", "C1 0"),
    (b"a /* b", "^i0-1 C1 2"),
    (b"/*", "C1 0"),
    (b"a / b", "^i0-1 s2-3 i4-5"),
    (b"a / * b */", "^i0-1 s2-3 s4-5 i6-7 s8-9 s9-10"),
    (b"// a \\\nb", "^i7-8"),
    (b"a \\\n b", "^i0-1 C1 2"),
    (b"// /*\na", "^i6-7"),
    (b"/* // */ a", "^i9-10"),
    (b"\xef\xbb\xbfa", "C1 0"),
    (b"a\xc3\xa4", "^i0-1 C1 1"),
    (b"/* \xc3\xa4 */ a", "^i9-10"),
    (b"a @", "^i0-1 C1 2"),
    (b"$a", "C1 0"),
    (b"a`", "^i0-1 C1 1"),
    (b"\x7f", "C1 0"),
];

const LINES: &[(&[u8], &str)] = &[
    (
        b"#include <glib.h>",
        "^s0-1 i1-8 s9-10 i10-14 s14-15 i15-16 s16-17",
    ),
    (
        b"#include \"a.h\"\nint",
        "^s0-1 i1-8 t9-14.97.46.104 ^k15-18",
    ),
    (b"a #b", "^i0-1 s2-3 i3-4"),
    (b" /* a */ #b", "^s9-10 i10-11"),
    (b"a\n/* b */ #c", "^i0-1 ^s10-11 i11-12"),
    (b"a /*\n*/ #b", "^i0-1 s8-9 i9-10"),
    (b"/*\n*/ #b", "^s6-7 i7-8"),
    (b"a // b\n#c", "^i0-1 ^s7-8 i8-9"),
    (b"a\r#b", "^i0-1 s2-3 i3-4"),
    (b"a\r\n#b", "^i0-1 ^s3-4 i4-5"),
    (b"##", "^s0-2"),
    (b"# #", "^s0-1 s2-3"),
    (b"a\n\n  b c", "^i0-1 ^i5-6 i7-8"),
    (b"a /*x*/\n/*y*/ b", "^i0-1 ^i14-15"),
];

const WORDS: &[(&[u8], &str)] = &[
    (b"abc _a1 A", "^i0-3 i4-7 i8-9"),
    (b"if iff If while whiles", "^k0-2 i3-6 i7-9 u10-15 i16-22"),
    (b"NULL Null NULLS", "^n0-4 i5-9 i10-15"),
    (
        b"gint guint gpointer include main",
        "^i0-4 i5-10 i11-19 i20-27 i28-32",
    ),
    (b"_Bool _Bools _bool", "^u0-5 i6-12 i13-18"),
    (
        b"G_TYPE_INT G_TYPE_INT6 G_TYPE_INT64",
        "^n0-10 i11-22 n23-35",
    ),
    (b"G_ G_T", "^i0-2 i3-6"),
    (b"asm typeof fortran", "^i0-3 i4-10 i11-18"),
    (b"L\"a\"", "^i0-1 t1-4.97"),
];

const NUMBERS: &[(&[u8], &str)] = &[
    (b"0", "^0-1=0 gint"),
    (
        b"7 0U 0L 0UL",
        "^0-1=7 gint 2-4=0 guint 5-7=0 glong 8-11=0 gulong",
    ),
    (b"2147483647", "^0-10=2147483647 gint"),
    (b"2147483648", "^0-10=2147483648 glong"),
    (b"9223372036854775807", "^0-19=9223372036854775807 glong"),
    (b"9223372036854775808", "C1 0"),
    (b"4294967295U", "^0-11=4294967295 guint"),
    (b"4294967296U", "^0-11=4294967296 gulong"),
    (
        b"18446744073709551615U",
        "^0-21=18446744073709551615 gulong",
    ),
    (b"18446744073709551616U", "C1 0"),
    (b"9223372036854775807L", "^0-20=9223372036854775807 glong"),
    (b"9223372036854775808L", "C1 0"),
    (
        b"18446744073709551615UL",
        "^0-22=18446744073709551615 gulong",
    ),
    (b"18446744073709551616UL", "C1 0"),
    (b"0xFF", "^0-4=255 gint"),
    (b"0x0008", "^0-6=8 gint"),
    (b"0xdeadBEEF", "^0-10=3735928559 glong"),
    (b"0xFFFFFFFF", "^0-10=4294967295 glong"),
    (b"0xFFFFFFFFU", "^0-11=4294967295 guint"),
    (b"0x7FFFFFFF", "^0-10=2147483647 gint"),
    (b"0xFFFFFFFFFFFFFFFF", "C1 0"),
    (b"0xFFFFFFFFFFFFFFFFU", "^0-19=18446744073709551615 gulong"),
    (b"0x10000000000000000UL", "C1 0"),
    (b"0x1L", "^0-4=1 glong"),
    (b"0x00000000000000000001", "^0-22=1 gint"),
    (b"1-2", "^0-1=1 gint s1-2 2-3=2 gint"),
    (b"a[0]", "^i0-1 s1-2 2-3=0 gint s3-4"),
    (b"0xe+1", "^0-3=14 gint s3-4 4-5=1 gint"),
];

const BAD_NUMBERS: &[(&[u8], &str)] = &[
    (b"010", "C1 0"),
    (b"00", "C1 0"),
    (b"08", "C1 0"),
    (b"12ab", "C1 0"),
    (b"1.5", "C1 0"),
    (b"1.", "C1 0"),
    (b".5", "C1 0"),
    (b"1..2", "C1 0"),
    (b"0x", "C1 0"),
    (b"0xg", "C1 0"),
    (b"0X1F", "C1 0"),
    (b"1u", "C1 0"),
    (b"1l", "C1 0"),
    (b"1ul", "C1 0"),
    (b"1LU", "C1 0"),
    (b"1LL", "C1 0"),
    (b"1ULL", "C1 0"),
    (b"1UU", "C1 0"),
    (b"1_000", "C1 0"),
    (b"1e5", "C1 0"),
    (b"0b1", "C1 0"),
    (b"1U.", "C1 0"),
    (b"0x1.0", "C1 0"),
    (b"0x1_", "C1 0"),
    (b"a 012 b", "^i0-1 C1 2"),
    (b"a.5", "^i0-1 C1 1"),
    (b"a. 5", "^i0-1 s1-2 3-4=5 gint"),
    (b"...5", "^s0-3 3-4=5 gint"),
    (b"....5", "^s0-3 C1 3"),
    (b"..5", "^s0-1 C1 1"),
];

const TEXTS: &[(&[u8], &str)] = &[
    (b"\"\"", "^t0-2"),
    (b"\"a\"b", "^t0-3.97 i3-4"),
    (b"\"a\" \"b\"", "^t0-3.97 t4-7.98"),
    (
        b"\"\\\"\\'\\\\\\a\\b\\f\\n\\r\\t\\v\"",
        "^t0-22.34.39.92.7.8.12.10.13.9.11",
    ),
    (b"\"\\000\\001\\377\\1010\"", "^t0-19.0.1.255.65.48"),
    (b"\"%s'\"", "^t0-5.37.115.39"),
    (b"\"a\x00b\"", "^t0-5.97.0.98"),
    (b"\"\xc3\xa4\xff\x7f\"", "^t0-6.195.164.255.127"),
    (b"\"a\rb\tc\"", "^t0-7.97.13.98.9.99"),
    (b"\"/*\"", "^t0-4.47.42"),
    (b"\"//\" a", "^t0-4.47.47 i5-6"),
    (b"\"\\\\\" \"", "^t0-4.92 C1 5"),
];

const BAD_TEXTS: &[(&[u8], &str)] = &[
    (b"\"a", "C1 0"),
    (b"\"", "C1 0"),
    (b"\"a\nb\"", "C1 0"),
    (b"\"a\\", "C1 0"),
    (b"\"a\\\"", "C1 0"),
    (b"\"\\q\"", "C1 0"),
    (b"\"\\0\"", "C1 0"),
    (b"\"\\08\"", "C1 0"),
    (b"\"\\00\"", "C1 0"),
    (b"\"\\400\"", "C1 0"),
    (b"\"\\777\"", "C1 0"),
    (b"\"\\378\"", "C1 0"),
    (b"\"\\8\"", "C1 0"),
    (b"\"\\x41\"", "C1 0"),
    (b"\"\\?\"", "C1 0"),
    (b"\"\\u0041\"", "C1 0"),
    (b"\"\\\n\"", "C1 0"),
    (b"\"\\N\"", "C1 0"),
    (b"\"ab\\z", "C1 0"),
    (b"\"\\e\"", "C1 0"),
    (b"a \"b", "^i0-1 C1 2"),
    (b"a = \"x\\y\"; b", "^i0-1 s2-3 C1 4"),
];

const CHARACTERS: &[(&[u8], &str)] = &[
    (b"'a'b", "^c0-3=97 i3-4"),
    (b"'\"'", "^c0-3=34"),
    (b"'\\''", "^c0-4=39"),
    (b"'\\\\'", "^c0-4=92"),
    (b"'\\n'", "^c0-4=10"),
    (b"'\\000'", "^c0-6=0"),
    (b"'\\377'", "^c0-6=255"),
    (b"'\xff'", "^c0-3=255"),
    (b"'\x7f'", "^c0-3=127"),
    (b"' '", "^c0-3=32"),
    (b"'/*'", "C1 0"),
    (b"'\\a'", "^c0-4=7"),
    (b"''", "C1 0"),
    (b"'", "C1 0"),
    (b"'a", "C1 0"),
    (b"'ab'", "C1 0"),
    (b"'\\'", "C1 0"),
    (b"'\\", "C1 0"),
    (b"'\\nn'", "C1 0"),
    (b"'\\0'", "C1 0"),
    (b"'\\400'", "C1 0"),
    (b"'\\x41'", "C1 0"),
    (b"'\\q'", "C1 0"),
    (b"'\n'", "C1 0"),
    (b"'a\n'", "C1 0"),
    (b"'\x00'", "C1 0"),
    (b"'\\000a'", "C1 0"),
    (b"'\xc3\xa4'", "C1 0"),
    (b"'''", "C1 0"),
];

const SIGNS: &[(&[u8], &str)] = &[
    (b"..", "^s0-1 s1-2"),
    (b"....", "^s0-3 s3-4"),
    (b"a = a --a;", "^i0-1 s2-3 i4-5 s6-8 i8-9 s9-10"),
    (b"b- -c", "^i0-1 s1-2 s3-4 i4-5"),
    (b"a+++b", "^i0-1 s1-3 s3-4 i4-5"),
    (b"<<=<<<=", "^s0-3 s3-5 s5-7"),
    (b">>=>=>", "^s0-3 s3-5 s5-6"),
    (b"===", "^s0-2 s2-3"),
    (b"->>", "^s0-2 s2-3"),
    (b"-->", "^s0-2 s2-3"),
    (b"=>", "^s0-1 s1-2"),
    (b"::", "^s0-1 s1-2"),
    (b"<:%:", "^s0-1 s1-2 s2-3 s3-4"),
    (b"??=", "^s0-1 s1-2 s2-3"),
    (b"&&&", "^s0-2 s2-3"),
    (b"!==", "^s0-2 s2-3"),
    (b"~=", "^s0-1 s1-2"),
    (b"###", "^s0-2 s2-3"),
    (b"*/", "^s0-1 s1-2"),
    (b"/=*", "^s0-2 s2-3"),
    (
        b"p->f[1] += 2;",
        "^i0-1 s1-3 i3-4 s4-5 5-6=1 gint s6-7 s8-10 11-12=2 gint s12-13",
    ),
    (
        b"int\nmain (int argc, char **argv)\n{",
        "^k0-3 ^i4-8 s9-10 k10-13 i14-18 s18-19 k20-24 s25-26 s26-27 i27-31 s31-32 ^s33-34",
    ),
];

// A token, the byte behind it, and whether space is needed.
const APART: &[(&[u8], u8, bool)] = &[
    (b"int", b'a', true),
    (b"int", b'_', true),
    (b"a", b'1', true),
    (b"a", b'.', false),
    (b"a", b'(', false),
    (b"L", b'"', true),
    (b"a", b'\'', true),
    (b"if", b' ', false),
    (b"1", b'a', true),
    (b"1", b'.', true),
    (b"0x1", b'_', true),
    (b"1", b'+', false),
    (b"1U", b')', false),
    (b"\"a\"", b'"', false),
    (b"'a'", b'1', false),
    (b"-", b'-', true),
    (b"-", b'>', true),
    (b"-", b'1', false),
    (b"-", b'=', true),
    (b"+", b'+', true),
    (b"&", b'&', true),
    (b"&", b'-', false),
    (b"*", b'*', false),
    (b"*", b'/', false),
    (b"/", b'*', true),
    (b"/", b'/', true),
    (b"/", b'=', true),
    (b"!", b'=', true),
    (b"!", b'!', false),
    (b"<", b'<', true),
    (b"<", b'=', true),
    (b"<<", b'=', true),
    (b"<<", b'<', false),
    (b">>", b'=', true),
    (b">", b'>', true),
    (b"==", b'=', false),
    (b"=", b'=', true),
    (b"=", b'-', false),
    (b".", b'.', true),
    (b".", b'5', true),
    (b".", b'a', false),
    (b"...", b'.', false),
    (b"->", b'>', false),
    (b"#", b'#', true),
    (b"(", b'(', false),
    (b";", b'}', false),
    (b"~", b'~', false),
    (b"?", b':', false),
    (b"%", b':', false),
    (b"||", b'|', false),
    (b"^", b'=', true),
];

#[test]
fn tokens_apart(rt: HostRuntime) -> Result<(), Fail> {
    for (i, (token, next, want)) in APART.iter().enumerate() {
        assert_eq!(rt; (i, needs_space(token, *next)), (i, *want));
    }
    Ok(())
}

// The place of the first case that is answered otherwise.
fn first_wrong(alloc: Global, cases: &[(&[u8], &str)]) -> Result<Option<usize>, Fail> {
    for (i, (text, want)) in cases.iter().enumerate() {
        if lexed(alloc, text)?.as_str() != *want {
            return Ok(Some(i));
        }
    }
    Ok(None)
}

#[test]
fn tokens(rt: HostRuntime) -> Result<(), Fail> {
    let alloc = rt.alloc();
    assert_eq!(rt; first_wrong(alloc, BLANKS)?, None, "blanks");
    assert_eq!(rt; first_wrong(alloc, LINES)?, None, "lines");
    assert_eq!(rt; first_wrong(alloc, WORDS)?, None, "words");
    assert_eq!(rt; first_wrong(alloc, NUMBERS)?, None, "numbers");
    assert_eq!(rt; first_wrong(alloc, BAD_NUMBERS)?, None, "bad numbers");
    assert_eq!(rt; first_wrong(alloc, TEXTS)?, None, "texts");
    assert_eq!(rt; first_wrong(alloc, BAD_TEXTS)?, None, "bad texts");
    assert_eq!(rt; first_wrong(alloc, CHARACTERS)?, None, "characters");
    assert_eq!(rt; first_wrong(alloc, SIGNS)?, None, "signs");
    Ok(())
}

// How many bytes the one token of a long text has.
fn only_token(text: &[u8]) -> usize {
    if text.len() > 1 << 20 {
        return 0;
    }
    match Lexer::new(text).peek() {
        Ok(Some(token)) => token.text.len(),
        _ => 0,
    }
}

#[test]
fn long_texts(rt: HostRuntime) -> Result<(), Fail> {
    let mut word = String::new(rt.alloc());
    let mut comment = String::new(rt.alloc());
    comment.push_str("/*")?;
    for _i in 0..50_000 {
        word.push('a')?;
        comment.push('*')?;
    }
    assert_eq!(rt; only_token(word.as_bytes()), 50_000);
    assert_eq!(rt; only_token(comment.as_bytes()), 0);
    comment.push_str("/a")?;
    assert_eq!(rt; only_token(comment.as_bytes()), 1);
    Ok(())
}

const FIXED: &[&str] = &[
    "case",
    "char",
    "const",
    "default",
    "else",
    "enum",
    "goto",
    "if",
    "int",
    "return",
    "sizeof",
    "static",
    "struct",
    "switch",
    "typedef",
    "void",
    "G_STRUCT_OFFSET",
    "auto",
    "break",
    "continue",
    "do",
    "double",
    "extern",
    "float",
    "for",
    "inline",
    "long",
    "register",
    "restrict",
    "short",
    "signed",
    "union",
    "unsigned",
    "volatile",
    "while",
    "_Alignas",
    "_Alignof",
    "_Atomic",
    "_Bool",
    "_Complex",
    "_Generic",
    "_Imaginary",
    "_Noreturn",
    "_Static_assert",
    "_Thread_local",
    "NULL",
    "TRUE",
    "FALSE",
    "G_TYPE_NONE",
    "G_TYPE_INTERFACE",
    "G_TYPE_OBJECT",
    "G_TYPE_BOOLEAN",
    "G_TYPE_CHAR",
    "G_TYPE_UCHAR",
    "G_TYPE_INT",
    "G_TYPE_UINT",
    "G_TYPE_LONG",
    "G_TYPE_ULONG",
    "G_TYPE_INT64",
    "G_TYPE_UINT64",
    "G_TYPE_STRING",
    "G_SIGNAL_RUN_LAST",
    "G_SIGNAL_MATCH_ID",
    "G_SIGNAL_MATCH_FUNC",
    "G_SIGNAL_MATCH_DATA",
    "G_CONNECT_AFTER",
    "G_PARAM_READWRITE",
    "G_PARAM_CONSTRUCT",
    "{",
    "}",
    "(",
    ")",
    "[",
    "]",
    ",",
    ";",
    ":",
    ".",
    "?",
    "=",
    "<",
    ">",
    "+",
    "-",
    "*",
    "/",
    "%",
    "&",
    "|",
    "^",
    "!",
    "~",
    "#",
    "==",
    "!=",
    "<=",
    ">=",
    "+=",
    "-=",
    "*=",
    "/=",
    "%=",
    "&=",
    "|=",
    "^=",
    "&&",
    "||",
    "<<",
    ">>",
    "++",
    "--",
    "##",
    "->",
    "<<=",
    ">>=",
    "...",
];

// The token of a keyword, a literal or a sign, and what stands there with a `_` behind it.
fn fixed(alloc: Global, text: &str) -> Result<String, Fail> {
    let alone = lexed(alloc, text.as_bytes())?;
    let longer = format!(in alloc; "{text}_")?;
    let joined = lexed(alloc, longer.as_bytes())?;
    Ok(format!(in alloc; "{alone} {joined}")?)
}

fn wanted(alloc: Global, kind: &str, text: &str) -> Result<String, Fail> {
    let len = text.len();
    let end = len + 1;
    if kind == "s" {
        Ok(format!(in alloc; "^s0-{len} ^s0-{len} i{len}-{end}")?)
    } else {
        Ok(format!(in alloc; "^{kind}0-{len} ^i0-{end}")?)
    }
}

#[test]
fn fixed_tokens(rt: HostRuntime) -> Result<(), Fail> {
    for (i, text) in FIXED.iter().enumerate() {
        let kind = if i < 17 {
            "k"
        } else if i < 45 {
            "u"
        } else if i < 68 {
            "n"
        } else {
            "s"
        };
        assert_eq!(rt;
            fixed(rt.alloc(), text)?.as_str(),
            wanted(rt.alloc(), kind, text)?.as_str()
        );
    }
    Ok(())
}
