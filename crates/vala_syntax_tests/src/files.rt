// Files: what comes of them.

use sqlite_items::Items;
use static_rules::{Refusal, rule_name};
use std::alloc::Global;
use std::process::Abort;
use std::test::Fail;
use vala_parse::parse_file;
use vala_tree::{Declaration, FileTree, Member};
use vg_base::Fault;

// What is told of the last declaration: its kind, its place, how many attributes and words stand in front of it and how many parts it has.

const PLACES: &[(&str, &str)] = &[
    ("", "0 tokens"),
    ("using A;", "using 1, 3 tokens"),
    ("using A, B.C; using D;", "using 3, 10 tokens"),
    ("namespace A { }", "namespace 0-15 0 0 0, 4 tokens"),
    (
        "namespace A.B { class C { } int x; }",
        "namespace 0-36 0 0 2, 13 tokens",
    ),
    (
        "public abstract class A : B, C.D { int x; }",
        "class 0-43 0 2 1, 15 tokens",
    ),
    (
        "interface I : A { int x { get; } void m (); }",
        "interface 0-45 0 0 2, 17 tokens",
    ),
    (
        "struct S { public int x; static int y; }",
        "struct 0-40 0 0 2, 12 tokens",
    ),
    ("enum E { A, B = 1, C, }", "enum 0-23 0 0 3, 12 tokens"),
    ("enum E { }", "enum 0-10 0 0 0, 4 tokens"),
    (
        "errordomain D { A, B, }",
        "errordomain 0-23 0 0 2, 8 tokens",
    ),
    (
        "delegate void F (int a, out int b) throws E, G;",
        "delegate 0-47 0 0 2, 16 tokens",
    ),
    ("const int X = 1 + 2;", "constant 0-20 0 0 0, 8 tokens"),
    ("static int x;", "field 0-13 0 1 0, 4 tokens"),
    ("A.B? x = { 1, 2 };", "field 0-18 0 0 0, 12 tokens"),
    ("A?[]? x;", "field 0-8 0 0 0, 7 tokens"),
    ("owned A[] x;", "field 0-12 0 0 0, 6 tokens"),
    ("void main () { }", "method 0-16 0 0 0, 6 tokens"),
    (
        "int f (int a = 1, ref int b) { return a; }",
        "method 0-42 0 0 2, 17 tokens",
    ),
    (
        "public static inline int f ();",
        "method 0-30 0 3 0, 8 tokens",
    ),
    (
        "[CCode (cname = \"a_b\")] int x;",
        "field 0-30 1 0 0, 11 tokens",
    ),
    (
        "[CCode (cheader_filename = \"a.h\", cname = \"a\")] [CCode (cname = \"b\")] int x;",
        "field 0-76 2 0 0, 23 tokens",
    ),
];

const MEMBERS: &[(&str, &str)] = &[
    ("class C { C () { } }", "class 0-20 0 0 1, 9 tokens"),
    (
        "class C { public C.from (int a) throws E { } }",
        "class 0-46 0 0 1, 16 tokens",
    ),
    ("class N.C { C () { } }", "class 0-22 0 0 1, 11 tokens"),
    ("class C { ~C () { } }", "class 0-21 0 0 1, 10 tokens"),
    ("class C { construct { } }", "class 0-25 0 0 1, 7 tokens"),
    (
        "class C { signal void s (int a); }",
        "class 0-34 0 0 1, 12 tokens",
    ),
    (
        "class C { public virtual signal void s (unowned A a) { } }",
        "class 0-58 0 0 1, 16 tokens",
    ),
    (
        "class C { int x { get; set; } }",
        "class 0-31 0 0 1, 12 tokens",
    ),
    (
        "class C { int x { owned get; private set construct; default = 1; } }",
        "class 0-68 0 0 1, 19 tokens",
    ),
    (
        "class C { int x { construct set { } } }",
        "class 0-39 0 0 1, 12 tokens",
    ),
    (
        "class C { const int X = 1; }",
        "class 0-28 0 0 1, 10 tokens",
    ),
    (
        "class C { async void f (int a); }",
        "class 0-33 0 0 1, 12 tokens",
    ),
];

const WORDS: &[(&str, &str)] = &[
    ("public public int x;", "S1 7-13"),
    ("public private int x;", "S1 7-14"),
    ("class C { abstract int x; }", "S1 10-18"),
    ("class C { static construct { } }", "U1 10-16"),
    ("class C { async C () { } }", "U1 10-15"),
    ("class C { static C () { } }", "S1 10-16"),
    ("async void main () { }", "U1 0-5"),
    ("class C { async abstract void f (); }", "U1 10-15"),
    ("class C { abstract async void f (); }", "U1 19-24"),
    ("class C { ~D () { } }", "S1 11-12"),
    (
        "class C { virtual signal void s (); }",
        "class 0-37 0 0 1, 11 tokens",
    ),
    ("class C { static signal void s (); }", "S1 10-16"),
    ("struct S { virtual int x; }", "S1 11-18"),
    ("struct S { static int x; }", "struct 0-26 0 0 1, 8 tokens"),
    ("public new int x;", "U1 7-10"),
    ("new int x;", "U1 0-3"),
    ("static class A { }", "S1 0-6"),
    ("abstract struct A { }", "S1 0-8"),
    ("class C { static int x { get; } }", "S1 10-16"),
];

const LEFT_OUT: &[(&str, &str)] = &[
    ("class A { class B { } }", "U1 10-15"),
    ("struct S { int x (", "U1 17-18"),
    ("struct S { int x = 1; }", "U1 17-18"),
    ("const int X = { 1 };", "U1 14-15"),
    ("class C { int x { get throws", "U1 22-28"),
    ("class C { int x throws", "U1 16-22"),
    ("interface I { void m () { } }", "U1 24-25"),
    ("class C { signal int s (); }", "U1 17-20"),
    ("class C { signal void s (out int a); }", "U1 25-28"),
    ("class C { signal void s (owned A a); }", "U1 25-30"),
    ("class C { async void f (ref int a); }", "U1 24-27"),
    ("[Other] int x;", "U1 1-6"),
    ("[CCode (other = \"a\")] int x;", "U1 8-13"),
    ("[CCode (cname = \"a.b\")] int x;", "U1 16-21"),
    ("[CCode (cname = \"\")] int x;", "U1 16-18"),
    ("[CCode ()] int x;", "S1 8-9"),
    ("A* x;", "U1 1-2"),
    ("A<B> x;", "U1 1-2"),
    ("A[,] x;", "U1 2-3"),
    ("delegate A<B> f ();", "U1 10-11"),
    ("lock (x);", "U1 0-4"),
    ("class A : B<C> { }", "U1 11-12"),
];

const SYNTAX: &[(&str, &str)] = &[
    ("}", "S1 0-1"),
    ("using ;", "S1 6-7"),
    ("using A", "S1 7-7"),
    ("class", "S1 5-5"),
    ("class A {", "S1 9-9"),
    ("int x", "S1 5-5"),
    ("int x; int", "S1 10-10"),
    ("namespace A { using B; }", "S1 14-19"),
    ("errordomain D { }", "S1 16-17"),
    ("interface I { void m () = 1; }", "S1 24-25"),
    ("int x = \"a\\q\";", "L3 10-11"),
    ("int x; \"", "L2 7-8"),
    ("int x { get; }", "S1 6-7"),
    ("enum E { A B }", "S1 11-12"),
];

fn kind(declaration: &Declaration) -> &'static str {
    match declaration {
        Declaration::Namespace(..) => "namespace",
        Declaration::Class(_) => "class",
        Declaration::Interface(_) => "interface",
        Declaration::Struct(..) => "struct",
        Declaration::Enum(_) => "enum",
        Declaration::Errors(_) => "errordomain",
        Declaration::Delegate(_) => "delegate",
        Declaration::Constant(_) => "constant",
        Declaration::Field(_) => "field",
        Declaration::Method(_) => "method",
        _ => "other",
    }
}

fn parts(declaration: &Declaration) -> usize {
    match declaration {
        Declaration::Namespace(_, members) | Declaration::Struct(_, members) => members.len(),
        Declaration::Class(class) | Declaration::Interface(class) => class.parts.len(),
        Declaration::Enum(enumeration) => enumeration.members.len(),
        Declaration::Errors(domain) => domain.codes.len(),
        Declaration::Delegate(signature) => signature.parameters.len(),
        Declaration::Method(method) => method.signature.parameters.len(),
        _ => 0,
    }
}

fn told(alloc: Global, member: &Member, tokens: u64) -> Result<String, Fail> {
    let kind = kind(&member.declaration);
    let start = member.span.start;
    let end = member.span.end;
    let attributes = member.attributes.len();
    let words = member.modifiers.len();
    let parts = parts(&member.declaration);
    Ok(format!(in alloc; "{kind} {start}-{end} {attributes} {words} {parts}, {tokens} tokens")?)
}

fn shape(alloc: Global, file: &FileTree) -> Result<String, Fail> {
    let tokens = file.tokens;
    match file.members.as_slice() {
        [.., last] => told(alloc, last, tokens),
        [] if file.usings.is_empty() => Ok(format!(in alloc; "{tokens} tokens")?),
        [] => {
            let usings = file.usings.len();
            Ok(format!(in alloc; "using {usings}, {tokens} tokens")?)
        }
    }
}

fn refusal(alloc: Global, fault: Fault<Refusal>) -> Result<String, Fail> {
    Ok(match fault {
        Fault::Memory => format!(in alloc; "memory")?,
        Fault::Refused(refusal) => {
            let name = rule_name(refusal.rule);
            let start = refusal.span.start;
            let end = refusal.span.end;
            format!(in alloc; "{name} {start}-{end}")?
        }
    })
}

fn answer(alloc: Global, bytes: &[u8]) -> Result<String, Fail> {
    match parse_file(alloc, bytes, 0) {
        Ok(file) => shape(alloc, &file),
        Err(fault) => refusal(alloc, fault),
    }
}

fn compare<R: Abort + AllocGlobal>(rt: &R, rows: &[(&str, &str)]) -> Result<(), Fail> {
    for (text, wanted) in rows {
        assert_eq!(rt;
            answer(rt.alloc(), text.as_bytes())?.as_str(),
            *wanted,
            "{text}"
        );
    }
    Ok(())
}

#[test]
fn declarations_are_read(rt: HostRuntime) -> Result<(), Fail> {
    compare(&rt, PLACES)
}

#[test]
fn members_are_read(rt: HostRuntime) -> Result<(), Fail> {
    compare(&rt, MEMBERS)
}

#[test]
fn words_are_in_their_places(rt: HostRuntime) -> Result<(), Fail> {
    compare(&rt, WORDS)
}

#[test]
fn what_is_left_out_is_named(rt: HostRuntime) -> Result<(), Fail> {
    compare(&rt, LEFT_OUT)
}

#[test]
fn other_faults_are_syntax(rt: HostRuntime) -> Result<(), Fail> {
    compare(&rt, SYNTAX)
}

/// The text so many times.
fn push_times(text: &mut Items<u8>, part: &str, times: usize) -> Result<(), Fail> {
    for _ in 0..times {
        for byte in part.as_bytes() {
            text.push(*byte)?;
        }
    }
    Ok(())
}

fn nested(
    alloc: Global,
    front: &str,
    opening: &str,
    times: usize,
    inner: &str,
) -> Result<Items<u8>, Fail> {
    let mut text = Items::new(alloc);
    push_times(&mut text, front, 1)?;
    push_times(&mut text, opening, times)?;
    push_times(&mut text, inner, 1)?;
    Ok(text)
}

// The front, what is put behind it so many times, what follows, and what comes.
const LIMITS: &[(&str, &str, usize, &str, &str)] = &[
    (
        "void f (int a",
        ", int a",
        199,
        ");",
        "method 0-1408 0 0 200, 604 tokens",
    ),
    ("void f (int a", ", int a", 200, ");", "M5 1406-1407"),
    ("", "namespace A{", 200, "int", "S1 2403-2403"),
    ("", "namespace A{", 201, "int", "S2 2412-2415"),
    ("int x=", "(", 200, "1", "S1 207-207"),
    ("int x=", "(", 201, "1", "S2 207-208"),
    ("", "(", 1_048_576, "", "S1 0-1"),
    ("", "(", 1_048_576, "(", "M1 0-0"),
];

#[test]
fn limits_are_exact(rt: HostRuntime) -> Result<(), Fail> {
    for (front, opening, times, inner, wanted) in LIMITS {
        let text = nested(rt.alloc(), front, opening, *times, inner)?;
        assert_eq!(rt;
            answer(rt.alloc(), text.as_slice())?.as_str(),
            *wanted,
            "{wanted}"
        );
    }
    Ok(())
}
