// What files answer: those that are checked, and those that are compiled.

use crate::checker::check;
use crate::compiler::compile;
use static_rules::{Refusal, rule_name};
use std::alloc::{AllocError, Global};
use std::test::Fail;
use vg_base::Fault;

fn files_of(alloc: Global, sources: &[&str]) -> Result<Vec<Vec<u8>>, AllocError> {
    let mut files = Vec::new(alloc);
    for source in sources {
        files.push(Vec::from_slice(alloc, source.as_bytes())?)?;
    }
    Ok(files)
}

// The rule, its phase, and the file and the bytes at which it is broken; or `ok`.
fn told(alloc: Global, fault: Option<Fault<Refusal>>) -> Result<String, AllocError> {
    match fault {
        None => String::from_str(alloc, "ok"),
        Some(Fault::Memory) => String::from_str(alloc, "memory"),
        Some(Fault::Refused(refusal)) => {
            let name = rule_name(refusal.rule);
            let (phase, span) = (refusal.phase, refusal.span);
            format!(in alloc; "{name} {phase} {} {} {}", span.file, span.start, span.end)
        }
    }
}

fn checked(alloc: Global, files: &[Vec<u8>]) -> Result<String, AllocError> {
    told(alloc, check(alloc, files, false).err())
}

fn compiled(alloc: Global, files: &[Vec<u8>]) -> Result<String, AllocError> {
    told(alloc, compile(alloc, files, "hi", true).err())
}

const HI: &str = "void main () { print (\"hi\\n\"); }";

const HI_IN_C: &str =
    "#include <glib.h>\n\nint main (int argc, char **argv)\n{\n    g_print (\"hi\\n\");\n    return 0;\n}\n";

#[test]
fn checks_files(rt: HostRuntime) -> Result<(), Fail> {
    let alloc = rt.alloc();
    let cases: [(&[&str], &str); 14] = [
        (&[], "ok"),
        (&["", "// a comment"], "ok"),
        (&["class A {}"], "ok"),
        (&["\u{1}"], "L1 1 0 0 1"),
        (&["class A {} /*"], "L2 1 0 11 12"),
        (&["void main () { print (\"a\\q\"); }"], "L3 1 0 24 25"),
        (&["const int A = 99999999999999999999;"], "L4 1 0 14 34"),
        (&["void main ("], "S1 1 0 11 11"),
        (&["void main () { delete a; }"], "U1 1 0 15 21"),
        (&["class A {}", "class {}"], "S1 1 1 6 7"),
        (&["class {}", "\u{1}"], "S1 1 0 6 7"),
        (&["", "", "class A {"], "S1 1 2 9 9"),
        (&[HI, HI], "ok"),
        (&["void main () {} }"], "S1 1 0 16 17"),
    ];
    for (sources, answer) in cases {
        let files = files_of(alloc, sources)?;
        assert_eq!(rt; checked(alloc, &files)?.as_str(), answer);
    }
    Ok(())
}

#[test]
fn checks_the_limits(rt: HostRuntime) -> Result<(), Fail> {
    let alloc = rt.alloc();
    let mut name = Vec::from_slice(alloc, b"class ")?;
    let mut nested = Vec::from_slice(alloc, b"void main () {")?;
    let mut many = Vec::from_slice(alloc, b"void f (int a")?;
    for _ in 0..201 {
        name.push(b'a')?;
        nested.push(b'{')?;
        many.extend_from_slice(b", int a")?;
    }
    name.extend_from_slice(b" {}")?;
    many.extend_from_slice(b") {}")?;
    let large = vec![in alloc; b' '; 1_048_577]?;
    let cases = [
        (name, "M4 1 0 6 207"),
        (nested, "S2 1 0 214 215"),
        (many, "M5 1 0 1406 1407"),
        (large, "M1 1 0 0 0"),
    ];
    for (bytes, answer) in cases {
        let files = vec![in alloc; bytes]?;
        assert_eq!(rt; checked(alloc, &files)?.as_str(), answer);
    }
    Ok(())
}

// So many empty files, and these two behind them.
fn behind_empty(
    alloc: Global,
    count: usize,
    first: Vec<u8>,
    second: Vec<u8>,
) -> Result<Vec<Vec<u8>>, AllocError> {
    let mut files = Vec::new(alloc);
    for _ in 0..count {
        files.push(Vec::new(alloc))?;
    }
    files.push(first)?;
    files.push(second)?;
    Ok(files)
}

#[test]
fn counts_files(rt: HostRuntime) -> Result<(), Fail> {
    let alloc = rt.alloc();
    let empty = Vec::new(alloc);
    let faulty = Vec::from_slice(alloc, b"class {")?;
    let large = vec![in alloc; b' '; 1_048_577]?;
    let most = behind_empty(alloc, 62, empty.clone()?, empty.clone()?)?;
    assert_eq!(rt; checked(alloc, &most)?.as_str(), "ok");
    let too_many = behind_empty(alloc, 64, faulty.clone()?, large.clone()?)?;
    assert_eq!(rt; checked(alloc, &too_many)?.as_str(), "M2 1 64 0 0");
    let too_large = behind_empty(alloc, 64, large, faulty.clone()?)?;
    assert_eq!(rt; checked(alloc, &too_large)?.as_str(), "M1 1 64 0 0");
    let last_faulty = behind_empty(alloc, 63, faulty, empty)?;
    assert_eq!(rt; checked(alloc, &last_faulty)?.as_str(), "S1 1 63 6 7");
    Ok(())
}

#[test]
fn refuses_what_is_not_carried(rt: HostRuntime) -> Result<(), Fail> {
    let alloc = rt.alloc();
    let cases: [(&[&str], &str); 14] = [
        (&[], "U1 7 0 0 0"),
        (&["", " // a comment\n"], "U1 7 0 0 0"),
        (&["class A {}"], "U1 7 0 0 5"),
        (&["", "class A {}"], "U1 7 1 0 5"),
        (&["class A {}", "class {}"], "S1 1 1 6 7"),
        (&["void f () {}"], "U1 7 0 5 6"),
        (&["void main () { print (1); }"], "U1 7 0 22 23"),
        (&["void main () { print (\"50%\"); }"], "U1 7 0 22 27"),
        (&["void main () { print (\"a\\tb\"); }"], "U1 7 0 22 28"),
        (&["void main () { print (\"\"\"a\"\"\"); }"], "U1 7 0 22 29"),
        (&["void main () { print (\"\u{e9}\"); }"], "U1 7 0 22 26"),
        (&["void main () { print (\"a\" + \"b\"); }"], "U1 7 0 26 27"),
        (&["void main () { write (\"a\"); }"], "U1 7 0 15 20"),
        (&[HI, "void main () {}"], "U1 7 1 0 4"),
    ];
    for (sources, answer) in cases {
        let files = files_of(alloc, sources)?;
        assert_eq!(rt; compiled(alloc, &files)?.as_str(), answer);
    }
    Ok(())
}

#[test]
fn writes_the_c_of_a_program(rt: HostRuntime) -> Result<(), Fail> {
    let alloc = rt.alloc();
    let cases: [&[&str]; 3] = [
        &[HI],
        &["", HI, "// the end"],
        &["/* a */ void // b\nmain () { print /* c */ (\"hi\\n\"); }"],
    ];
    for sources in cases {
        let files = files_of(alloc, sources)?;
        let emitted = compile(alloc, &files, "hi", false)?;
        assert_eq!(rt; emitted.c.as_slice(), HI_IN_C.as_bytes());
    }
    Ok(())
}

#[test]
fn takes_the_largest_file(rt: HostRuntime) -> Result<(), Fail> {
    let alloc = rt.alloc();
    let mut bytes = Vec::from_slice(
        alloc,
        b"void main () { print (\"\\\"\\\\\"); print (\"b\"); }",
    )?;
    for _ in bytes.len()..1_048_576 {
        bytes.push(b' ')?;
    }
    let files = vec![in alloc; bytes]?;
    let emitted = compile(alloc, &files, "hi", false)?;
    let c = emitted.c.as_slice();
    assert!(rt;
        c.ends_with(b"{\n    g_print (\"\\\"\\\\\");\n    g_print (\"b\");\n    return 0;\n}\n")
    );
    Ok(())
}
