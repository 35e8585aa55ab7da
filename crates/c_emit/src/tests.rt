// The C of programs, on a table of texts.

use crate::program::emit;
use std::alloc::{AllocError, Global};
use std::test::Fail;
use vg_base::Bytes;

const HEAD: &[u8] = b"#include <glib.h>\n\nint main (int argc, char **argv)\n{\n";

const TAIL: &[u8] = b"    return 0;\n}\n";

// A text, and the literal that prints it.
const CASES: &[(&[u8], &[u8])] = &[
    (b"", b"\"\""),
    (b"hi\n", b"\"hi\\n\""),
    (b"100%", b"\"100%%\""),
    (b"%s%%\n", b"\"%%s%%%%\\n\""),
    (b"say \"\\\"", b"\"say \\\"\\\\\\\"\""),
    (b"\x01\t\x7f", b"\"\\001\\t\\177\""),
    (b"\xc3\xa9\xff", b"\"\\303\\251\\377\""),
    (b"what??", b"\"what?\\077\""),
];

fn program(alloc: Global, texts: &[&[u8]]) -> Result<Vec<Bytes>, AllocError> {
    let mut program = Vec::new(alloc);
    for text in texts {
        let list = Vec::from_slice(alloc, text)?;
        program.push(Bytes { list })?;
    }
    Ok(program)
}

fn written(alloc: Global, texts: &[&[u8]]) -> Result<Vec<u8>, Fail> {
    let program = program(alloc, texts)?;
    match emit(alloc, &program) {
        Ok(c) => Ok(c),
        Err(_) => Ok(Vec::new(alloc)),
    }
}

fn wanted(alloc: Global, literals: &[&[u8]]) -> Result<Vec<u8>, AllocError> {
    let mut c = Vec::from_slice(alloc, HEAD)?;
    for literal in literals {
        c.extend_from_slice(b"    g_print (")?;
        c.extend_from_slice(literal)?;
        c.extend_from_slice(b");\n")?;
    }
    c.extend_from_slice(TAIL)?;
    Ok(c)
}

#[test]
fn writes_texts(rt: HostRuntime) -> Result<(), Fail> {
    let alloc = rt.alloc();
    for (text, literal) in CASES {
        let c = written(alloc, &[*text])?;
        assert_eq!(rt; c.as_slice(), wanted(alloc, &[*literal])?.as_slice());
    }
    Ok(())
}

#[test]
fn writes_programs(rt: HostRuntime) -> Result<(), Fail> {
    let alloc = rt.alloc();
    let empty = written(alloc, &[])?;
    assert_eq!(rt; empty.as_slice(), wanted(alloc, &[])?.as_slice());
    let two = written(alloc, &[b"one ", b"two\n"])?;
    assert_eq!(rt;
        two.as_slice(),
        wanted(alloc, &[b"\"one \"", b"\"two\\n\""])?.as_slice()
    );
    Ok(())
}
