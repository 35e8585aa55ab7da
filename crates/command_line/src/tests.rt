// Lines of words inside and outside the grammar.

use crate::asked::{Asked, read_words};
use crate::choice::Command;
use std::alloc::{AllocError, Global};
use std::test::Fail;
use vg_base::Fault;

// The words of a line, of which one blank parts two.
fn words(alloc: Global, line: &str) -> Result<Vec<String>, AllocError> {
    let mut words = Vec::new(alloc);
    for word in line.split(' ') {
        words.push(String::from_str(alloc, word)?)?;
    }
    Ok(words)
}

fn asked_of(alloc: Global, words: &[String]) -> Result<Option<Asked>, AllocError> {
    match read_words(alloc, words) {
        Ok(asked) => Ok(Some(asked)),
        Err(Fault::Refused(_)) => Ok(None),
        Err(Fault::Memory) => Err(AllocError),
    }
}

fn asked(alloc: Global, line: &str) -> Result<Option<Asked>, AllocError> {
    let words = words(alloc, line)?;
    asked_of(alloc, &words)
}

#[test]
fn lines_in_the_grammar(rt: HostRuntime) -> Result<(), Fail> {
    let alloc = rt.alloc();
    let lines = [
        "check a.vala",
        "--strict-null check a.vala b.vala",
        "check --strict-null a.vala",
        "check a.vala --strict-null b.vala",
        "check a.vala --strict-null",
        "emit --name=x a.vala",
        "emit --name x a.vala",
        "run a.vala --input - --steps 100000000000000000 --trace --live",
        "run --steps=000000000000000001 a.vala",
        "exec a.c --live --name a_1",
        "check -",
        "-- check --strict-null",
        "check -- --trace -- -",
        "--trace -- run a.vala",
        "check a.vala --",
        "run a.vala --input=--trace",
        "run a.vala --input=a=b",
        "exec a.c",
        "check a.c",
    ];
    for line in lines.as_slice() {
        assert!(rt; asked(alloc, line)?.is_some());
    }
    Ok(())
}

#[test]
fn lines_outside_the_grammar(rt: HostRuntime) -> Result<(), Fail> {
    let alloc = rt.alloc();
    let lines = [
        "",
        "check",
        "check --",
        "--strict-null",
        "chek a.vala",
        "check ",
        " check a.vala",
        "check a.vala --name x",
        "check a.vala --strict-null --strict-null",
        "check a.vala --strict-null=",
        "check a.vala --strict-null=x",
        "check a.vala --help",
        "check a.vala -h",
        "--help",
        "--version",
        "help",
        "check a.vala --stric",
        "emit a.vala --name",
        "emit a.vala --name ",
        "emit a.vala --name=",
        "emit a.vala --name -x",
        "emit a.vala --name --",
        "emit --name -- a.vala",
        "emit a.vala --name=1x",
        "emit a.vala --name x --name=x",
        "emit a.vala --steps 1",
        "run --input --trace a.vala",
        "run a.vala --input=",
        "run a.vala --steps 1000000000000000000",
        "run a.vala --steps 0000000000000000001",
        "run a.vala --steps 100000000000000001",
        "run a.vala --steps +1",
        "run a.vala --steps=-1",
        "run a.vala --steps",
        "run a.vala b.c --name b",
        "emit a.vala a.c",
        "exec a.c b.c",
        "exec a.c --strict-null",
        "exec --emit a.c",
    ];
    for line in lines.as_slice() {
        assert!(rt; asked(alloc, line)?.is_none());
    }
    Ok(())
}

#[test]
fn what_is_asked(rt: HostRuntime) -> Result<(), Fail> {
    let alloc = rt.alloc();
    let line = "run --trace lib/my-prog.vala --input in.txt b.vala --steps=12";
    let asked = asked(alloc, line)?.expect(&rt, "a line in the grammar");
    assert!(rt; asked.command == Command::Run);
    let first = asked
        .files
        .first()
        .map(|file| file.as_str() == "lib/my-prog.vala");
    assert!(rt; asked.files.len() == 2 && first == Some(true));
    assert!(rt; asked.name.as_str() == "my_prog");
    let input = asked.input.map(|input| input.as_str() == "in.txt");
    assert!(rt; input == Some(true));
    assert!(rt; asked.steps == 12);
    assert!(rt; asked.trace && !asked.live && !asked.strict_null);
    Ok(())
}

// So many files behind the word `check`.
fn is_file_count(alloc: Global, count: usize) -> Result<bool, AllocError> {
    let mut words = words(alloc, "check")?;
    for _file in 0..count {
        words.push(String::from_str(alloc, "a.vala")?)?;
    }
    Ok(asked_of(alloc, &words)?.is_some())
}

// A name of so many letters.
fn is_name_length(alloc: Global, length: usize) -> Result<bool, AllocError> {
    let mut words = words(alloc, "emit a.vala --name")?;
    let mut name = String::new(alloc);
    for _letter in 0..length {
        name.push('n')?;
    }
    words.push(name)?;
    Ok(asked_of(alloc, &words)?.is_some())
}

#[test]
fn most_files_and_longest_name(rt: HostRuntime) -> Result<(), Fail> {
    let alloc = rt.alloc();
    assert!(rt; is_file_count(alloc, 1)? && is_file_count(alloc, 64)?);
    assert!(rt; !is_file_count(alloc, 0)? && !is_file_count(alloc, 65)?);
    assert!(rt; is_name_length(alloc, 1)? && is_name_length(alloc, 100)?);
    assert!(rt; !is_name_length(alloc, 0)? && !is_name_length(alloc, 101)?);
    Ok(())
}
