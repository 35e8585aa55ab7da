// What the reader of small texts takes and refuses.

use std::alloc::Global;
use std::test::Fail;
use vg_base::{Piece, includes, push_spelling, texts_between, tokens};

const HEAD: [Piece; 5] = [
    Piece::Word("void"),
    Piece::Word("main"),
    Piece::Sign(b'('),
    Piece::Sign(b')'),
    Piece::Sign(b'{'),
];

const TAIL: [Piece; 1] = [Piece::Sign(b'}')];

fn count(alloc: Global, text: &[u8]) -> Result<Option<usize>, Fail> {
    let found = tokens(alloc, text)?;
    Ok(found.map(|list| list.len()))
}

fn lines(alloc: Global, text: &[u8]) -> Result<Option<usize>, Fail> {
    match tokens(alloc, text)? {
        Some(list) => Ok(Some(includes(&list))),
        None => Ok(None),
    }
}

// The texts one after another, each with a `|` behind it.
fn printed(alloc: Global, text: &[u8]) -> Result<Option<Vec<u8>>, Fail> {
    let Some(list) = tokens(alloc, text)? else {
        return Ok(None);
    };
    let Some(texts) = texts_between(alloc, &list, &HEAD, "print", &TAIL)? else {
        return Ok(None);
    };
    let mut joined = Vec::new(alloc);
    for bytes in &texts {
        joined.extend_from_slice(bytes.list.as_slice())?;
        joined.push(b'|')?;
    }
    Ok(Some(joined))
}

#[test]
fn counts_tokens(rt: HostRuntime) -> Result<(), Fail> {
    let cases = [
        (b"void main () { print (\"hi\\n\"); }".as_slice(), Some(11)),
        (b"voidmain".as_slice(), Some(1)),
        (b"a1 a_\t1a\x0c*\r\n".as_slice(), Some(4)),
        (b"".as_slice(), Some(0)),
        (b"#include <glib.h>\nint".as_slice(), Some(2)),
        (b"#include <glib.h>".as_slice(), None),
        (b"#include <glib.c>\n".as_slice(), None),
        (b"\"open".as_slice(), None),
        (b"\"open\\\"".as_slice(), None),
        (b"\"100%\"".as_slice(), None),
        (b"\"tab\\t\"".as_slice(), None),
        (b"\"\x7f\"".as_slice(), None),
        (b"a\x0bb".as_slice(), None),
        (b"\"\\".as_slice(), None),
        (b"\\".as_slice(), None),
        (b"%".as_slice(), None),
        (b"\xc3\xa4".as_slice(), None),
    ];
    for (text, want) in cases {
        assert_eq!(rt; count(rt.alloc(), text)?, want, "at {text:?}");
    }
    Ok(())
}

#[test]
fn reads_texts(rt: HostRuntime) -> Result<(), Fail> {
    let cases = [
        (
            b"void main () { print (\"hi\\n\"); }".as_slice(),
            Some(b"hi\n|".as_slice()),
        ),
        (
            b"void main(){print(\"\");print(\"a\\\"b\\\\\");}".as_slice(),
            Some(b"|a\"b\\|".as_slice()),
        ),
        (b"void main () { }".as_slice(), Some(b"".as_slice())),
        (b"void main () { print (\"hi\"); } }".as_slice(), None),
        (b"void main () { print (\"hi\") }".as_slice(), None),
        (b"void main () { put (\"hi\"); }".as_slice(), None),
        (b"voidmain () { }".as_slice(), None),
    ];
    for (text, want) in cases {
        let found = printed(rt.alloc(), text)?;
        assert_eq!(rt;
            found.as_ref().map(|joined| joined.as_slice()),
            want,
            "at {text:?}"
        );
    }
    Ok(())
}

#[test]
fn counts_include_lines(rt: HostRuntime) -> Result<(), Fail> {
    let text = b"#include <glib.h>\n\n#include <glib.h>\nint #include <glib.h>\n";
    assert_eq!(rt; lines(rt.alloc(), text)?, Some(2));
    assert_eq!(rt; lines(rt.alloc(), b"int")?, Some(0));
    Ok(())
}

#[test]
fn spells_bytes(rt: HostRuntime) -> Result<(), Fail> {
    let mut out = b"\"".to_vec(rt.alloc())?;
    push_spelling(&mut out, b"a\n\"b\\")?;
    assert_eq!(rt; out.as_slice(), b"\"a\\n\\\"b\\\\".as_slice());
    Ok(())
}
