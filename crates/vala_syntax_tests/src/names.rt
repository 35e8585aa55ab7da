// Names and types.

use static_rules::{Refusal, rule_name};
use std::alloc::Global;
use std::test::Fail;
use vala_lexer::Lexer;
use vala_parse_expr::{parse_name, parse_type};
use vg_base::{Fault, Span};

const NAMES: &[(&str, u32, &str)] = &[
    ("a", 0, "0-1"),
    ("a . @if.c;", 0, "0-9"),
    ("a.b", 200, "0-3"),
    ("a.b.c", 200, "S2 3-4"),
    ("a", 201, "S2 0-1"),
    ("a", 4_294_967_295, "S2 0-1"),
    (";", 202, "S1 0-1"),
    ("a.", 0, "S1 2-2"),
    ("a.;", 0, "S1 2-3"),
    ("typeof", 0, "U1 0-6"),
    ("", 0, "S1 0-0"),
    ("a.\"b", 0, "L2 2-3"),
];

const TYPES: &[(&str, u32, &str)] = &[
    ("void x", 0, "0-4"),
    ("int x", 0, "0-3"),
    ("A.B? x", 0, "0-4"),
    ("A[] x", 0, "0-3"),
    ("A[]? x", 0, "0-4"),
    ("A?[] x", 0, "0-4"),
    ("A?[]? x", 0, "0-5"),
    ("owned A x", 0, "0-7"),
    ("weak A.B[] x", 0, "0-10"),
    ("A[] x", 200, "S2 2-3"),
    ("A x", 4_294_967_295, "S2 0-1"),
    ("A[,] x", 0, "U1 2-3"),
    ("A?[,] x", 0, "U1 3-4"),
    ("A[3]", 0, "S1 2-3"),
    ("unowned;", 0, "S1 7-8"),
    ("owned weak A", 0, "S1 6-10"),
];

fn spans(alloc: Global, answer: Result<Span, Fault<Refusal>>) -> Result<String, Fail> {
    Ok(match answer {
        Ok(span) => {
            let start = span.start;
            let end = span.end;
            format!(in alloc; "{start}-{end}")?
        }
        Err(Fault::Memory) => format!(in alloc; "memory")?,
        Err(Fault::Refused(refusal)) => {
            let name = rule_name(refusal.rule);
            let start = refusal.span.start;
            let end = refusal.span.end;
            format!(in alloc; "{name} {start}-{end}")?
        }
    })
}

#[test]
fn names_are_read(rt: HostRuntime) -> Result<(), Fail> {
    for (text, level, wanted) in NAMES {
        if text.len() > 100 {
            return Ok(());
        }
        let mut lexer = Lexer::new(text.as_bytes(), 0);
        let answer = parse_name(rt.alloc(), &mut lexer, *level).map(|tree| tree.span);
        assert_eq!(rt; spans(rt.alloc(), answer)?.as_str(), *wanted, "{text}");
    }
    Ok(())
}

#[test]
fn types_are_read(rt: HostRuntime) -> Result<(), Fail> {
    for (text, level, wanted) in TYPES {
        if text.len() > 100 {
            return Ok(());
        }
        let mut lexer = Lexer::new(text.as_bytes(), 0);
        let answer = parse_type(rt.alloc(), &mut lexer, *level).map(|tree| tree.span);
        assert_eq!(rt; spans(rt.alloc(), answer)?.as_str(), *wanted, "{text}");
    }
    Ok(())
}
