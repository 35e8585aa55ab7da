// Whole calls of the program over folders and sinks in memory.

use crate::call::vala2c;
use crate::status::{Kind, Status};
use std::alloc::{AllocError, Global};
use std::test::Fail;
use vg_base::{Folder, GoodFolder, GoodSink, MemFolder, MemSink, Memory};

const HELLO: &str = "void main () { print (\"hi\\n\"); }";

fn words(alloc: Global, all: &[&str]) -> Result<Vec<String>, AllocError> {
    let mut words = Vec::new(alloc);
    for word in all {
        words.push(String::from_str(alloc, word)?)?;
    }
    Ok(words)
}

// A call over a folder with these files that never fails, and its two outputs.
fn call(
    alloc: Global,
    all: &[&str],
    files: &[(&str, &str)],
) -> Result<(Status, GoodSink, GoodSink), AllocError> {
    let words = words(alloc, all)?;
    let mut folder = GoodFolder::new(alloc);
    let mut out = GoodSink::new(alloc);
    let mut err = GoodSink::new(alloc);
    for (name, text) in files {
        let Ok(()) = folder.add(alloc, name, text.as_bytes()) else {
            return Err(AllocError);
        };
    }
    let status = vala2c(alloc, &words, &mut folder, &mut out, &mut err);
    Ok((status, out, err))
}

#[test]
fn programs_run(rt: HostRuntime) -> Result<(), Fail> {
    let alloc = rt.alloc();
    for (text, prints) in [
        (HELLO, "hi\n"),
        (
            "void main () { print (\"a \\\"b\\\"\\n\"); print (\"c\\\\d\\n\"); }",
            "a \"b\"\nc\\d\n",
        ),
        ("void main(){}", ""),
        ("\tvoid\nmain\r(\u{c})\n{ print(\"\") ; }\n", ""),
    ] {
        let files = [("a.vala", "// no program\n"), ("b.vala", text)];
        let (status, out, err) = call(alloc, &["run", "a.vala", "b.vala"], &files)?;
        assert!(rt;
            matches!(status.kind, Kind::Ended(0)),
            "{text}: {}",
            status.exit_code()
        );
        assert_eq!(rt; status.exit_code(), 0);
        assert_eq!(rt; out.taken(), prints.as_bytes(), "{text}");
        assert_eq!(rt; err.taken(), b"".as_slice(), "{text}");
    }
    Ok(())
}

const USAGE: &str = "vala2c: bad command line\n";

#[test]
fn refusals(rt: HostRuntime) -> Result<(), Fail> {
    let alloc = rt.alloc();
    let files = [
        ("a.vala", "class A {}"),
        ("b.vala", HELLO),
        ("c.vala", "\n }"),
    ];
    for (all, code, line) in [
        (
            ["run", "a.vala"].as_slice(),
            10,
            "a.vala:1:1: U1 not in this profile\n",
        ),
        (["check", "a.vala", "b.vala"].as_slice(), 0, ""),
        (
            ["check", "a.vala", "c.vala"].as_slice(),
            10,
            "c.vala:2:2: S1 unexpected token\n",
        ),
        (
            ["check", "c.vala", "d.vala"].as_slice(),
            3,
            "vala2c: no file d.vala\n",
        ),
        (["run", "d.vala"].as_slice(), 3, "vala2c: no file d.vala\n"),
        ([].as_slice(), 2, USAGE),
        (["run"].as_slice(), 2, USAGE),
        (["check"].as_slice(), 2, USAGE),
        (["run", ""].as_slice(), 2, USAGE),
        (["check", "a.vala", "-b.vala"].as_slice(), 2, USAGE),
        (["run", "a.vala", "a.c"].as_slice(), 2, USAGE),
        (["walk", "a.vala"].as_slice(), 2, USAGE),
        (["check", "--trace", "b.vala"].as_slice(), 2, USAGE),
        (["emit", "--steps=1", "b.vala"].as_slice(), 2, USAGE),
        (["exec", "--strict-null", "b.c"].as_slice(), 2, USAGE),
        (["exec", "b.c", "b.c"].as_slice(), 2, USAGE),
        (["run", "--events", "e", "b.vala"].as_slice(), 2, USAGE),
        (
            ["exec", "--input", "i", "d.c"].as_slice(),
            3,
            "vala2c: no file d.c\n",
        ),
        (
            ["exec", "--input", "i", "a.vala"].as_slice(),
            3,
            "vala2c: no file i\n",
        ),
        (
            ["exec", "a.vala"].as_slice(),
            12,
            "a.vala: byte 0: C3 undeclared\n",
        ),
        (
            ["emit", "a.vala"].as_slice(),
            10,
            "a.vala:1:1: U1 not in this profile\n",
        ),
    ] {
        let (status, out, err) = call(alloc, all, &files)?;
        assert_eq!(rt; status.exit_code(), code, "{line}");
        assert_eq!(rt; out.taken(), b"".as_slice(), "{line}");
        assert_eq!(rt; err.taken(), line.as_bytes());
    }
    Ok(())
}

#[test]
fn at_most_64_files(rt: HostRuntime) -> Result<(), Fail> {
    let alloc = rt.alloc();
    for (count, code) in [(64, 0), (65, 2)] {
        let mut all = vec![in alloc; "check"]?;
        for _ in 0..count {
            all.push("a.vala")?;
        }
        let (status, _, _) = call(alloc, &all, &[("a.vala", HELLO)])?;
        assert_eq!(rt; status.exit_code(), code, "{count}");
    }
    Ok(())
}

#[test]
fn an_output_that_fails(rt: HostRuntime) -> Result<(), Fail> {
    let alloc = rt.alloc();
    let mut folder = GoodFolder::new(alloc);
    let text = "void main () { print (\"abc\\n\"); }";
    let added: Result<(), Memory> = folder.add(alloc, "a.vala", text.as_bytes());
    assert!(rt; added.is_ok());
    let mut out = MemSink::new(alloc, vec![in alloc; 2]?, 2);
    let mut err = GoodSink::new(alloc);
    let words = words(alloc, &["run", "a.vala"])?;
    let status = vala2c(alloc, &words, &mut folder, &mut out, &mut err);
    assert!(rt; matches!(status.kind, Kind::OutFault));
    assert_eq!(rt; status.exit_code(), 6);
    assert_eq!(rt; out.taken(), b"ab".as_slice());
    assert_eq!(rt; err.taken(), b"vala2c: output failed\n".as_slice());
    Ok(())
}

#[test]
fn folders_that_fail(rt: HostRuntime) -> Result<(), Fail> {
    let alloc = rt.alloc();
    for (number, code, line) in [
        (1, 4, "vala2c: cannot read d/my file.vala\n"),
        (2, 5, "vala2c: cannot write my_file.c\n"),
        (3, 4, "vala2c: cannot read my_file.c\n"),
        (9, 0, ""),
    ] {
        let mut folder = MemFolder::new(alloc, vec![in alloc; number]?);
        let added = folder.add(alloc, "d/my file.vala", HELLO.as_bytes());
        assert!(rt; added.is_ok());
        let mut out = GoodSink::new(alloc);
        let mut err = GoodSink::new(alloc);
        let words = words(alloc, &["run", "d/my file.vala"])?;
        let status = vala2c(alloc, &words, &mut folder, &mut out, &mut err);
        assert_eq!(rt; status.exit_code(), code, "call {number}");
        assert_eq!(rt; err.taken(), line.as_bytes());
        let written = folder.read_file(alloc, "my_file.c");
        assert_eq!(rt; written.is_ok(), number > 2, "call {number}");
    }
    Ok(())
}

// A call over one folder in memory that never fails, with what it puts out.
fn call_on(
    alloc: Global,
    all: &[&str],
    folder: &mut GoodFolder,
) -> Result<(Status, GoodSink, GoodSink), AllocError> {
    let words = words(alloc, all)?;
    let mut out = GoodSink::new(alloc);
    let mut err = GoodSink::new(alloc);
    let status = vala2c(alloc, &words, folder, &mut out, &mut err);
    Ok((status, out, err))
}

#[test]
fn what_is_emitted_is_run(rt: HostRuntime) -> Result<(), Fail> {
    let alloc = rt.alloc();
    let mut folder = GoodFolder::new(alloc);
    let added: Result<(), Memory> = folder.add(alloc, "a.vala", HELLO.as_bytes());
    assert!(rt; added.is_ok());
    let (status, out, err) = call_on(alloc, &["emit", "--name", "b", "a.vala"], &mut folder)?;
    assert_eq!(rt; status.exit_code(), 0);
    assert_eq!(rt; out.taken(), b"".as_slice());
    assert_eq!(rt; err.taken(), b"".as_slice());
    assert!(rt; folder.read_file(alloc, "a.c").is_err());
    let (status, out, err) = call_on(alloc, &["exec", "b.c"], &mut folder)?;
    assert_eq!(rt; status.exit_code(), 0);
    assert_eq!(rt; out.taken(), b"hi\n".as_slice());
    assert_eq!(rt; err.taken(), b"".as_slice());
    Ok(())
}

const SPEAKS: &str =
    "#include <glib.h>\n\nint main (int argc, char **argv)\n{\n    gchar *s;\n    s = g_strdup (\"ab\");\n    g_print (\"%s\\n\", s);\n    g_printerr (\"e\\n\");\n    return 3;\n}\n";

const READS: &str =
    "#include <glib.h>\n\nint main (int argc, char **argv)\n{\n    gchar *s;\n    s = vala_rt_read_line ();\n    g_print (\"%s\\n\", s);\n    g_free (s);\n    return 0;\n}\n";

const FREED: &str =
    "#include <glib.h>\n\nint main (int argc, char **argv)\n{\n    gchar *s;\n    s = g_strdup (\"ab\");\n    g_free (s);\n    g_print (\"%s\\n\", s);\n    return 0;\n}\n";

#[test]
fn c_files_are_run(rt: HostRuntime) -> Result<(), Fail> {
    let alloc = rt.alloc();
    let files = [
        ("a.c", SPEAKS),
        ("b.c", READS),
        ("c.c", FREED),
        ("i", "one\ntwo\n"),
    ];
    for (all, code, prints, says) in [
        (["exec", "a.c"].as_slice(), 3, "ab\n", "e\n"),
        (
            ["exec", "--trace", "a.c"].as_slice(),
            3,
            "ab\n",
            "e\nmade 1 text\nout 3\nerr 2\n",
        ),
        (
            ["exec", "--live", "--trace", "a.c"].as_slice(),
            3,
            "ab\n",
            "e\nmade 1 text\nout 3\nerr 2\nlive 1 text 1\n",
        ),
        (
            ["exec", "--steps", "0", "--live", "a.c"].as_slice(),
            20,
            "",
            "vala2c: steps spent\n",
        ),
        (["exec", "--input", "i", "b.c"].as_slice(), 0, "one\n", ""),
        (
            ["exec", "--trace", "c.c"].as_slice(),
            24,
            "",
            "made 1 text\ngone 1\nvala2c: undefined freed\n",
        ),
    ] {
        let (status, out, err) = call(alloc, all, &files)?;
        assert_eq!(rt; status.exit_code(), code, "{says}");
        assert_eq!(rt; out.taken(), prints.as_bytes(), "{says}");
        assert_eq!(rt; err.taken(), says.as_bytes());
    }
    Ok(())
}

#[test]
fn a_text_that_is_refused_ends_err(rt: HostRuntime) -> Result<(), Fail> {
    let alloc = rt.alloc();
    let mut folder = GoodFolder::new(alloc);
    let added: Result<(), Memory> = folder.add(alloc, "a.c", SPEAKS.as_bytes());
    assert!(rt; added.is_ok());
    for (fails, code, says) in [
        (1, 6, ""),
        (2, 6, "e\n"),
        (3, 3, "e\nmade 1 text\nout 3\nerr 2\n"),
    ] {
        let mut out = GoodSink::new(alloc);
        let mut err = MemSink::new(alloc, vec![in alloc; fails]?, 100);
        let words = words(alloc, &["exec", "--trace", "a.c"])?;
        let status = vala2c(alloc, &words, &mut folder, &mut out, &mut err);
        assert_eq!(rt; status.exit_code(), code, "put {fails}");
        assert_eq!(rt; out.taken(), b"ab\n".as_slice(), "put {fails}");
        assert_eq!(rt; err.taken(), says.as_bytes(), "put {fails}");
    }
    Ok(())
}
