// The tokens of small texts, and what is refused.

use static_rules::rule_name;
use std::alloc::Global;
use std::test::Fail;
use vala_lexer::{IntegerType, Lexer, Token, TokenKind};

fn type_name(integer_type: IntegerType) -> &'static str {
    match integer_type {
        IntegerType::Int => "int",
        IntegerType::Uint => "uint",
        IntegerType::Long => "long",
        IntegerType::Ulong => "ulong",
        IntegerType::Int64 => "int64",
        IntegerType::Uint64 => "uint64",
    }
}

// A letter for the class, the place, and what a literal denotes.
fn told(alloc: Global, token: Token<'_>) -> Result<String, Fail> {
    let start = token.span.start;
    let end = token.span.end;
    Ok(match token.kind {
        TokenKind::Identifier => format!(in alloc; "i{start}-{end}")?,
        TokenKind::Integer(value, integer_type) => {
            let name = type_name(integer_type);
            format!(in alloc; "n{start}-{end}={value} {name}")?
        }
        TokenKind::Text => format!(in alloc; "t{start}-{end}")?,
        TokenKind::Character(code) => format!(in alloc; "c{start}-{end}={code}")?,
        _ => format!(in alloc; "k{start}-{end}")?,
    })
}

// The tokens up to the end or the broken rule, which is asked for once more.
fn lexed(alloc: Global, text: &[u8]) -> Result<String, Fail> {
    let mut out = String::new(alloc);
    if text.len() > 1000 {
        return Ok(out);
    }
    let mut lexer = Lexer::new(text, 3);
    for i in 0..100 {
        match lexer.next() {
            Ok(Some(token)) => {
                if i > 0 {
                    out.push_str(" ")?;
                }
                out.push_str(told(alloc, token)?.as_str())?;
            }
            Ok(None) => break,
            Err(_) => {
                if let Err(refusal) = lexer.peek() {
                    let gap = if i > 0 { " " } else { "" };
                    let name = rule_name(refusal.rule);
                    let start = refusal.span.start;
                    let end = refusal.span.end;
                    out.push_str(format!(in alloc; "{gap}{name} {start}-{end}")?.as_str())?;
                }
                break;
            }
        }
    }
    Ok(out)
}

const BLANKS: &[(&[u8], &str)] = &[
    (b"", ""),
    (b" \t\n\x0c\r", ""),
    (b"a\x0bb", "i0-1 L1 1-2"),
    (b"a//b", "i0-1"),
    (b"a//b\nc", "i0-1 i5-6"),
    (b"/**/a", "i4-5"),
    (b"/* * / **/a", "i10-11"),
    (b"/* /* */ a", "i9-10"),
    (b"/*/", "L2 0-1"),
    (b"a /* b", "i0-1 L2 2-3"),
    (b"/*", "L2 0-1"),
    (b"a / b", "i0-1 k2-3 i4-5"),
    (b"a // b\x00\nc", "i0-1 L1 6-7"),
    (b"/* \x00 */", "L1 3-4"),
    (b"/* \x00 *", "L2 0-1"),
    (b"// \xff\n/* \xff */a", "i12-13"),
    (b"\x00", "L1 0-1"),
    (b"$", "L1 0-1"),
    (b"\\", "L1 0-1"),
    (b"\xc3\xa4", "L1 0-1"),
    (b"a`", "i0-1 L1 1-2"),
];

const LINES: &[(&[u8], &str)] = &[
    (b"#if", "U1 0-1"),
    (b"a\n \t#if", "i0-1 U1 4-5"),
    (b"a #if", "i0-1 L1 2-3"),
    (b"/**/#if", "L1 4-5"),
    (b"/*\n*/ #if", "L1 6-7"),
    (b"//\n#if", "U1 3-4"),
    (b"\"\"\"\n\"\"\"#", "t0-7 L1 7-8"),
];

const WORDS: &[(&[u8], &str)] = &[
    (b"abc _a1 A", "i0-3 i4-7 i8-9"),
    (b"class classic get set", "k0-5 i6-13 i14-17 i18-21"),
    (b"@class", "i0-6"),
    (b"@classic", "L1 0-1"),
    (b"@name", "L1 0-1"),
    (b"@1", "L1 0-1"),
    (b"@", "L1 0-1"),
    (b"@ class", "L1 0-1"),
    (b"@@class", "L1 0-1"),
    (b"@\"x\"", "U1 0-1"),
    (b"a @\"x", "i0-1 U1 2-3"),
];

const NUMBERS: &[(&[u8], &str)] = &[
    (b"0", "n0-1=0 int"),
    (b"7", "n0-1=7 int"),
    (b"2147483647", "n0-10=2147483647 int"),
    (b"2147483648", "n0-10=2147483648 int64"),
    (b"9223372036854775807", "n0-19=9223372036854775807 int64"),
    (b"9223372036854775808", "L4 0-19"),
    (b"4294967295U", "n0-11=4294967295 uint"),
    (b"4294967296u", "n0-11=4294967296 uint64"),
    (
        b"18446744073709551615u",
        "n0-21=18446744073709551615 uint64",
    ),
    (b"18446744073709551616u", "L4 0-21"),
    (b"1L 1l", "n0-2=1 long n3-5=1 long"),
    (b"9223372036854775808L", "L4 0-20"),
    (b"1UL 1ul", "n0-3=1 ulong n4-7=1 ulong"),
    (b"1LL 1ll", "n0-3=1 int64 n4-7=1 int64"),
    (b"9223372036854775808LL", "L4 0-21"),
    (b"1ULL 1ull", "n0-4=1 uint64 n5-9=1 uint64"),
    (b"18446744073709551616ULL", "L4 0-23"),
    (b"1LU", "n0-2=1 long i2-3"),
    (b"1LLL", "n0-3=1 int64 i3-4"),
    (b"0xFF", "n0-4=255 int"),
    (b"0xdeadBEEF", "n0-10=3735928559 int64"),
    (b"0x0008", "n0-6=8 int"),
    (b"0xFFFFFFFFFFFFFFFFul", "n0-20=18446744073709551615 ulong"),
    (b"0x10000000000000000", "L4 0-19"),
    (b"0xFFFFFFFFFFFFFFFF", "L4 0-18"),
];

const FAULTY_NUMBERS: &[(&[u8], &str)] = &[
    (b"0x", "n0-1=0 int i1-2"),
    (b"0xg", "n0-1=0 int i1-3"),
    (b"0X1", "n0-1=0 int i1-3"),
    (b"08", "L4 0-2"),
    (b"00", "L4 0-2"),
    (b"a 007UL b", "i0-1 L4 2-7"),
    (b"0a", "n0-1=0 int i1-2"),
    (b"1.5", "U1 0-1"),
    (b"a 12.5", "i0-1 U1 2-4"),
    (b"08.5", "U1 0-2"),
    (b"1.", "n0-1=1 int k1-2"),
    (b"1.a", "n0-1=1 int k1-2 i2-3"),
    (b"1 .5", "n0-1=1 int k2-3 n3-4=5 int"),
    (b"1..5", "n0-1=1 int k1-2 k2-3 n3-4=5 int"),
    (b"1...5", "n0-1=1 int k1-4 n4-5=5 int"),
    (b"0x1.5", "n0-3=1 int k3-4 n4-5=5 int"),
    (b"1U.5", "n0-2=1 uint k2-3 n3-4=5 int"),
];

const TEXTS: &[(&[u8], &str)] = &[
    (b"\"\"", "t0-2"),
    (b"\"a\"b", "t0-3 i3-4"),
    (b"\"\\\"\\'\\\\\\b\\f\\n\\r\\t\\v\"", "t0-20"),
    (b"\"\\0\"", "L3 1-2"),
    (b"\"a\\q\"", "L3 2-3"),
    (b"\"\\a\"", "L3 1-2"),
    (b"\"\\x7F\\x01\"", "t0-10"),
    (b"\"\\x80\"", "L3 1-2"),
    (b"\"\\x00\"", "L3 1-2"),
    (b"\"\\x4\"", "L3 1-2"),
    (b"\"\\x\"", "L3 1-2"),
    (b"\"\\X41\"", "L3 1-2"),
    (b"\"\\u0041\\uFFFF\\ud7ff\\uE000\"", "t0-26"),
];

const FAULTY_TEXTS: &[(&[u8], &str)] = &[
    (b"\"\\u0000\"", "L3 1-2"),
    (b"\"\\uD800\"", "L3 1-2"),
    (b"\"\\udfff\"", "L3 1-2"),
    (b"\"\\u41\"", "L3 1-2"),
    (b"\"\\\\x\"", "t0-5"),
    (b"\"\\\\\\q\"", "L3 3-4"),
    (b"a \"b", "i0-1 L2 2-3"),
    (b"\"", "L2 0-1"),
    (b"\"a\nb\"", "L2 0-1"),
    (b"\"a\rb\"", "t0-5"),
    (b"\"a\\", "L2 0-1"),
    (b"\"a\\\"", "L2 0-1"),
    (b"\"\\q", "L2 0-1"),
    (b"\"\\\n\"", "L2 0-1"),
];

const UTF_8: &[(&[u8], &str)] = &[
    (b"\"\xc3\xa4\xe2\x82\xac\"", "t0-7"),
    (b"\"\xff\"", "L1 1-2"),
    (b"\"a\xffb\"", "L1 2-3"),
    (b"\"a\xc3\"", "L1 2-3"),
    (b"\"\xe2\x82\"", "L1 1-2"),
    (b"\"a\x00b\"", "L1 2-3"),
    (b"\"\x00", "L2 0-1"),
    (b"\"\\q\xff\"", "L3 1-2"),
    (b"\"\xff\\q\"", "L1 1-2"),
    (b"\"\\\xff\"", "L3 1-2"),
];

const VERBATIM_TEXTS: &[(&[u8], &str)] = &[
    (b"\"\"\"\"\"\"", "t0-6"),
    (b"\"\"\"a\"b\"\"c\\q\n\"\"\"d", "t0-15 i15-16"),
    (b"\"\"\"a\"\"\"\"", "t0-7 L2 7-8"),
    (b"\"\"\"a", "L2 0-1"),
    (b"\"\"\"", "L2 0-1"),
    (b"\"\"\"\"\"", "L2 0-1"),
    (b"\"\"\"a\xff\"\"\"", "L1 4-5"),
    (b"\"\"\"\x00\"\"\"", "L1 3-4"),
    (b"\"\"\"\x00", "L2 0-1"),
];

const CHARACTERS: &[(&[u8], &str)] = &[
    (b"'a'b", "c0-3=97 i3-4"),
    (b"'\"'", "c0-3=34"),
    (b"'\\''", "c0-4=39"),
    (b"'\\0'", "c0-4=0"),
    (b"'\\n'", "c0-4=10"),
    (b"'\\x41'", "c0-6=65"),
    (b"'\\x7f'", "c0-6=127"),
    (b"'\\x80'", "L3 1-2"),
    (b"'\\x00'", "L3 1-2"),
    (b"'\\x4'", "L3 1-2"),
    (b"'\\u0041'", "L3 1-2"),
    (b"'\\q'", "L3 1-2"),
    (b"''", "L2 0-1"),
    (b"'", "L2 0-1"),
    (b"'a", "L2 0-1"),
    (b"'ab'", "L2 0-1"),
    (b"'\\", "L2 0-1"),
    (b"'\\'", "L2 0-1"),
    (b"'\\n", "L2 0-1"),
    (b"'\\nn'", "L2 0-1"),
    (b"'\\00'", "L2 0-1"),
    (b"'a\n'", "L2 0-1"),
    (b"'\n'", "L2 0-1"),
    (b"'\xc3\xa4'", "L1 1-2"),
    (b"'\x00'", "L1 1-2"),
    (b"'\x7f'", "c0-3=127"),
];

const SIGNS: &[(&[u8], &str)] = &[
    (b"..", "k0-1 k1-2"),
    (b"....", "k0-3 k3-4"),
    (b"a+++b", "i0-1 k1-3 k3-4 i4-5"),
    (b"<<=<<<=", "k0-3 k3-5 k5-7"),
    (b">>=>=>", "k0-3 k3-5 k5-6"),
    (b"===", "k0-2 k2-3"),
    (b"=>=", "k0-2 k2-3"),
    (b"???", "k0-2 k2-3"),
    (b"->", "k0-1 k1-2"),
    (b"!==", "k0-2 k2-3"),
    (b"~=", "k0-1 k1-2"),
    (b"::", "k0-1 k1-2"),
    (
        b"void main () { print (\"hi\\n\"); }",
        "k0-4 i5-9 k10-11 k11-12 k13-14 i15-20 k21-22 t22-28 k28-29 k29-30 k31-32",
    ),
];

// The place of the first case that is answered otherwise.
fn first_wrong(alloc: Global, cases: &[(&[u8], &str)]) -> Result<Option<usize>, Fail> {
    for (i, (text, want)) in cases.iter().enumerate() {
        if lexed(alloc, text)?.as_str() != *want {
            return Ok(Some(i));
        }
    }
    Ok(None)
}

#[test]
fn tokens(rt: HostRuntime) -> Result<(), Fail> {
    let alloc = rt.alloc();
    assert_eq!(rt; first_wrong(alloc, BLANKS)?, None, "blanks");
    assert_eq!(rt; first_wrong(alloc, LINES)?, None, "lines");
    assert_eq!(rt; first_wrong(alloc, WORDS)?, None, "words");
    assert_eq!(rt; first_wrong(alloc, NUMBERS)?, None, "numbers");
    assert_eq!(rt; first_wrong(alloc, FAULTY_NUMBERS)?, None, "faulty numbers");
    assert_eq!(rt; first_wrong(alloc, TEXTS)?, None, "texts");
    assert_eq!(rt; first_wrong(alloc, FAULTY_TEXTS)?, None, "faulty texts");
    assert_eq!(rt; first_wrong(alloc, UTF_8)?, None, "utf 8");
    assert_eq!(rt; first_wrong(alloc, VERBATIM_TEXTS)?, None, "verbatim texts");
    assert_eq!(rt; first_wrong(alloc, CHARACTERS)?, None, "characters");
    assert_eq!(rt; first_wrong(alloc, SIGNS)?, None, "signs");
    Ok(())
}

#[test]
fn long_identifiers(rt: HostRuntime) -> Result<(), Fail> {
    let mut text = String::new(rt.alloc());
    for _i in 0..200 {
        text.push('a')?;
    }
    assert_eq!(rt; lexed(rt.alloc(), text.as_bytes())?.as_str(), "i0-200");
    text.push('_')?;
    assert_eq!(rt; lexed(rt.alloc(), text.as_bytes())?.as_str(), "M4 0-201");
    Ok(())
}

const FIXED: &[&str] = &[
    "abstract",
    "as",
    "async",
    "base",
    "break",
    "case",
    "catch",
    "class",
    "const",
    "construct",
    "continue",
    "default",
    "delegate",
    "delete",
    "do",
    "else",
    "enum",
    "errordomain",
    "extern",
    "false",
    "finally",
    "for",
    "foreach",
    "if",
    "in",
    "inline",
    "interface",
    "internal",
    "is",
    "lock",
    "namespace",
    "new",
    "null",
    "out",
    "override",
    "owned",
    "params",
    "private",
    "protected",
    "public",
    "ref",
    "return",
    "sealed",
    "signal",
    "sizeof",
    "static",
    "struct",
    "switch",
    "this",
    "throw",
    "throws",
    "true",
    "try",
    "typeof",
    "unowned",
    "using",
    "var",
    "virtual",
    "void",
    "weak",
    "while",
    "with",
    "yield",
    "{",
    "}",
    "(",
    ")",
    "[",
    "]",
    ",",
    ";",
    ":",
    ".",
    "?",
    "??",
    "=",
    "==",
    "!=",
    "<",
    ">",
    "<=",
    ">=",
    "+",
    "-",
    "*",
    "/",
    "%",
    "&",
    "|",
    "^",
    "!",
    "~",
    "&&",
    "||",
    "<<",
    ">>",
    "++",
    "--",
    "+=",
    "-=",
    "*=",
    "/=",
    "%=",
    "&=",
    "|=",
    "^=",
    "<<=",
    ">>=",
    "=>",
    "...",
];

// The token of a keyword or a sign, and what stands there with a `_` behind it.
fn fixed(alloc: Global, text: &str) -> Result<String, Fail> {
    let alone = lexed(alloc, text.as_bytes())?;
    let longer = format!(in alloc; "{text}_")?;
    let joined = lexed(alloc, longer.as_bytes())?;
    Ok(format!(in alloc; "{alone} {joined}")?)
}

fn wanted(alloc: Global, text: &str) -> Result<String, Fail> {
    let len = text.len();
    let end = len + 1;
    if text
        .as_bytes()
        .first()
        .is_some_and(|byte| byte.is_ascii_lowercase())
    {
        Ok(format!(in alloc; "k0-{len} i0-{end}")?)
    } else {
        Ok(format!(in alloc; "k0-{len} k0-{len} i{len}-{end}")?)
    }
}

#[test]
fn fixed_tokens(rt: HostRuntime) -> Result<(), Fail> {
    for text in FIXED {
        assert_eq!(rt;
            fixed(rt.alloc(), text)?.as_str(),
            wanted(rt.alloc(), text)?.as_str()
        );
    }
    Ok(())
}
