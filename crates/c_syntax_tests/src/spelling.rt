// What is put, as text.

use c_lexer::{Constant, Keyword, Lexer, NumberType, Sign, text_value};
use c_printer::{Piece, Writer, put_token};
use std::alloc::Global;
use std::test::Fail;
use vg_base::Memory;

const CASES: &[(Piece<'static>, &[u8])] = &[
    (Piece::Name(b"argv"), b"argv"),
    (Piece::Keyword(Keyword::Typedef), b"typedef"),
    (Piece::Keyword(Keyword::StructOffset), b"G_STRUCT_OFFSET"),
    (Piece::Constant(Constant::Null), b"NULL"),
    (Piece::Constant(Constant::TypeUint64), b"G_TYPE_UINT64"),
    (Piece::Number(0, NumberType::Gint), b"0"),
    (
        Piece::Number(2_147_483_647, NumberType::Gint),
        b"2147483647",
    ),
    (
        Piece::Number(4_294_967_295, NumberType::Guint),
        b"4294967295U",
    ),
    (Piece::Number(5, NumberType::Glong), b"5L"),
    (
        Piece::Number(18_446_744_073_709_551_615, NumberType::Gulong),
        b"18446744073709551615UL",
    ),
    (Piece::Text(b""), b"\"\""),
    (Piece::Text(b"100%s\n"), b"\"100%s\\n\""),
    (Piece::Text(b"\"\\'"), b"\"\\\"\\\\'\""),
    (
        Piece::Text(b"\x07\x08\t\n\x0b\x0c\r"),
        b"\"\\a\\b\\t\\n\\v\\f\\r\"",
    ),
    (
        Piece::Text(b"\x00\x011\x1f\x7f\xc3\xa4\xff"),
        b"\"\\000\\0011\\037\\177\\303\\244\\377\"",
    ),
    (Piece::Text(b"a??=? ?"), b"\"a?\\077=? ?\""),
    (Piece::Text(b"???"), b"\"?\\077\\077\""),
    (Piece::Character(b'a'), b"'a'"),
    (Piece::Character(b'\''), b"'\\''"),
    (Piece::Character(b'"'), b"'\"'"),
    (Piece::Character(b'\\'), b"'\\\\'"),
    (Piece::Character(b'\n'), b"'\\n'"),
    (Piece::Character(0), b"'\\000'"),
    (Piece::Character(255), b"'\\377'"),
    (Piece::Sign(Sign::ShiftLeftAssign), b"<<="),
    (Piece::Sign(Sign::Arrow), b"->"),
    (Piece::Sign(Sign::Tilde), b"~"),
];

fn put(alloc: Global, piece: Piece<'_>) -> Result<Vec<u8>, Fail> {
    let mut out = Vec::new(alloc);
    if put_token(alloc, &mut out, piece).is_err() {
        out.clear();
    }
    Ok(out)
}

// Whether the lexer takes all of the bytes as one token.
fn is_one_token(bytes: &[u8]) -> bool {
    bytes.len() < 1000
        && matches!(Lexer::new(bytes).peek(), Ok(Some(token)) if token.text.len() == bytes.len())
}

#[test]
fn pieces(rt: HostRuntime) -> Result<(), Fail> {
    for (i, (piece, want)) in CASES.iter().enumerate() {
        let bytes = put(rt.alloc(), *piece)?;
        assert_eq!(rt; (i, bytes.as_slice() == *want), (i, true));
        assert_eq!(rt; (i, is_one_token(&bytes)), (i, true));
    }
    Ok(())
}

#[test]
fn every_byte(rt: HostRuntime) -> Result<(), Fail> {
    let mut bytes = Vec::new(rt.alloc());
    for byte in 0..=255u8 {
        bytes.push(byte)?;
        assert_eq!(rt;
            is_one_token(&put(rt.alloc(), Piece::Character(byte))?),
            true
        );
    }
    let text = put(rt.alloc(), Piece::Text(&bytes))?;
    let read = text_value(rt.alloc(), &text).unwrap_or(Vec::new(rt.alloc()));
    assert_eq!(rt; read.as_slice() == bytes.as_slice(), true);
    Ok(())
}

const WRITTEN: &[Piece<'static>] = &[
    Piece::Keyword(Keyword::Static),
    Piece::Name(b"gint"),
    Piece::Name(b"a"),
    Piece::Sign(Sign::Assign),
    Piece::Sign(Sign::Minus),
    Piece::Sign(Sign::Minus),
    Piece::Number(1, NumberType::Gint),
    Piece::Sign(Sign::Slash),
    Piece::Sign(Sign::Star),
    Piece::Name(b"p"),
    Piece::Sign(Sign::Arrow),
    Piece::Name(b"x"),
    Piece::Sign(Sign::Ampersand),
    Piece::Sign(Sign::Minus),
    Piece::Number(2, NumberType::Glong),
    Piece::Sign(Sign::Semicolon),
];

// The pieces on a line of their own, behind an `#include` line.
fn written(alloc: Global) -> Result<Vec<u8>, Memory> {
    let mut writer = Writer::new(alloc);
    writer.token(alloc, Piece::Sign(Sign::Hash))?;
    writer.token(alloc, Piece::Name(b"include"))?;
    writer.space()?;
    writer.token(alloc, Piece::Text(b"a.h"))?;
    writer.line(2)?;
    for piece in WRITTEN {
        writer.token(alloc, *piece)?;
    }
    Ok(writer.into_bytes())
}

#[test]
fn tokens_in_a_row(rt: HostRuntime) -> Result<(), Fail> {
    let bytes = written(rt.alloc()).unwrap_or(Vec::new(rt.alloc()));
    let want = b"#include \"a.h\"\n  static gint a=- -1/ *p->x&-2L;".as_slice();
    assert_eq!(rt; bytes.as_slice() == want, true);
    Ok(())
}
