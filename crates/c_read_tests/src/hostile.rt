// Texts of eight kibibytes that go on and on; `tests/hostile` has larger ones.

use crate::stops::{Stopped, stop};
use std::alloc::Global;
use std::test::Fail;

const FRONT: &str = "int main (int argc, char **argv) { ";

/// How many bytes the repeated pieces have.
const MANY: usize = 1 << 13;

// A piece many times between a front and an end.
fn repeated(alloc: Global, front: &str, piece: &str, end: &str) -> Result<Vec<u8>, Fail> {
    let mut text = Vec::new(alloc);
    text.extend_from_slice(FRONT.as_bytes())?;
    text.extend_from_slice(front.as_bytes())?;
    for _ in 0..MANY.checked_div(piece.len()).unwrap_or(0) {
        text.extend_from_slice(piece.as_bytes())?;
    }
    text.extend_from_slice(end.as_bytes())?;
    text.extend_from_slice(b" return 0; }")?;
    Ok(text)
}

#[test]
fn brackets_without_end(rt: HostRuntime) -> Result<(), Fail> {
    let alloc = rt.alloc();
    let front = FRONT.len() as u32;
    for (start, piece, place) in [
        ("a = ", "(", 67),
        ("a = ", "- (", 195),
        ("", "{", 63),
        ("a = b", "[c", 131),
        ("a = ", "b ? ", 258),
        ("a = ", "(gint) (", 508),
        ("", "if (a) {", 507),
    ] {
        let text = repeated(alloc, start, piece, "")?;
        assert_eq!(rt;
            stop(alloc, &text),
            Stopped::Syntax(front.saturating_add(place)),
            "{piece}"
        );
    }
    Ok(())
}

#[test]
fn values_that_go_on(rt: HostRuntime) -> Result<(), Fail> {
    let alloc = rt.alloc();
    for (start, piece, end) in [
        ("a = ", "- ", "1;"),
        ("a = ", "!", "1;"),
        ("a = 1", " + a", ";"),
        ("a = 1", " && a * 2", ";"),
        ("a = b", ".c", ";"),
        ("a = b", "[1]", ";"),
        ("a = b", " ? 1 : c", ";"),
        ("a = ", "(gint) ", "1;"),
        ("a = ", "*&", "b;"),
    ] {
        let text = repeated(alloc, start, piece, end)?;
        assert_eq!(rt; stop(alloc, &text), Stopped::Nowhere, "{piece}");
    }
    Ok(())
}

#[test]
fn lists_that_go_on(rt: HostRuntime) -> Result<(), Fail> {
    let alloc = rt.alloc();
    for (start, piece, end) in [
        ("a", "a", " = 1;"),
        ("gint ", "*", "a;"),
        ("", "const ", "gint a;"),
        ("f (1", ", 1", ");"),
        ("", "a = 1;", ""),
        ("", "gint a;", ""),
        ("", "{}", ""),
        ("/* ", "*", "*/"),
        ("switch (a) { ", "case 1: goto L; ", "default: goto L; }"),
    ] {
        let text = repeated(alloc, start, piece, end)?;
        assert_eq!(rt; stop(alloc, &text), Stopped::Nowhere, "{piece}");
    }
    Ok(())
}

// A value in so many blocks.
fn nested(alloc: Global, blocks: usize) -> Result<Vec<u8>, Fail> {
    let mut text = Vec::new(alloc);
    text.extend_from_slice(FRONT.as_bytes())?;
    for _ in 0..blocks {
        text.extend_from_slice(b"{")?;
    }
    text.extend_from_slice(b"a = 1;")?;
    for _ in 0..blocks {
        text.extend_from_slice(b"}")?;
    }
    text.extend_from_slice(b" return 0; }")?;
    Ok(text)
}

#[test]
fn blocks_in_one_another(rt: HostRuntime) -> Result<(), Fail> {
    let alloc = rt.alloc();
    let front = FRONT.len() as u32;
    assert_eq!(rt; stop(alloc, &nested(alloc, 63)?), Stopped::Nowhere);
    assert_eq!(rt;
        stop(alloc, &nested(alloc, 64)?),
        Stopped::Syntax(front + 63)
    );
    Ok(())
}
