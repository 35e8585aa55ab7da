// Expressions and initialisers: each text with its level, and what it is and where that stands, or the rule that it breaks and where.

use crate::shapes::told_expr;
use std::alloc::Global;
use std::process::Abort;
use std::test::Fail;
use vala_lexer::Lexer;
use vala_parse_expr::{parse_expr, parse_init};

const OPERANDS: &[(&str, u32, &str)] = &[
    ("1", 0, "literal 0-1"),
    ("'c'", 0, "literal 0-3"),
    ("\"a\"", 0, "literal 0-3"),
    ("true", 0, "literal 0-4"),
    ("null", 0, "literal 0-4"),
    ("a", 0, "name 0-1"),
    ("@if", 0, "name 0-3"),
    ("this", 0, "this 0-4"),
    ("base", 0, "base 0-4"),
    ("a b", 0, "name 0-1"),
    ("a;", 0, "name 0-1"),
    ("(1)", 0, "bracketed(literal) 0-3"),
    ("(a)", 0, "bracketed(name) 0-3"),
    ("((a))", 0, "bracketed(bracketed) 0-5"),
    ("new A.B ()", 0, "new 0-10"),
    ("new A (1, out b)", 0, "new 0-16"),
    ("new int[3]", 0, "new array 0-10"),
    ("new A?[]", 0, "new array 0-8"),
    ("new A[] { 1, 2 }", 0, "new array 0-16"),
    ("new A[2] { }", 0, "new array 0-12"),
    ("a.b", 0, "member(name) 0-3"),
    ("a[1]", 0, "index(name,literal) 0-4"),
    ("a++", 0, "step(name) 0-3"),
    ("a--", 0, "step(name) 0-3"),
    ("a (b)", 0, "call(name) 0-5"),
    ("a (x: 1, out b, ref c, d)", 0, "call(name) 0-25"),
    ("a ().b", 0, "member(call) 0-6"),
    ("a.b (c)[1]++", 0, "step(index) 0-12"),
    ("\"a\".b ()", 0, "call(member) 0-8"),
    ("yield f ()", 0, "yield(call) 0-10"),
    ("yield a.b ()", 0, "yield(call) 0-12"),
    ("yield (a).b ()", 0, "yield(call) 0-14"),
    ("yield f ().g", 0, "member(yield) 0-12"),
    ("f (x => x)", 0, "call(name) 0-10"),
    ("f (x => x, y)", 0, "call(name) 0-13"),
];

const OPERATORS: &[(&str, u32, &str)] = &[
    ("-a", 0, "prefix(name) 0-2"),
    ("!(a)", 0, "prefix(bracketed) 0-4"),
    ("-a.b", 0, "prefix(member) 0-4"),
    ("++a", 0, "prefix(name) 0-3"),
    ("~-a", 0, "prefix(prefix) 0-3"),
    ("(owned) a", 0, "prefix(name) 0-9"),
    ("-yield f ()", 0, "prefix(yield) 0-11"),
    ("a * b + c", 0, "binary(binary,name) 0-9"),
    ("a + b * c", 0, "binary(name,binary) 0-9"),
    ("a - b - c", 0, "binary(binary,name) 0-9"),
    ("a << b + c", 0, "binary(name,binary) 0-10"),
    ("a < b == c", 0, "binary(binary,name) 0-10"),
    ("a & b | c ^ d", 0, "binary(binary,binary) 0-13"),
    ("a && b || c", 0, "binary(binary,name) 0-11"),
    ("a || b && c", 0, "binary(name,binary) 0-11"),
    ("a ?? b ?? c", 0, "binary(name,binary) 0-11"),
    ("a || b ?? c", 0, "binary(binary,name) 0-11"),
    ("a + yield f ()", 0, "binary(name,yield) 0-14"),
    ("1 % -2", 0, "binary(literal,prefix) 0-6"),
    ("a is B", 0, "typed(name) 0-6"),
    ("a as B.C", 0, "typed(name) 0-8"),
    ("a as B?", 0, "typed(name) 0-7"),
    ("a as B[]", 0, "typed(name) 0-8"),
    ("a as owned B", 0, "typed(name) 0-12"),
    ("a is B && c", 0, "binary(typed,name) 0-11"),
    ("a < b is C", 0, "typed(binary) 0-10"),
    ("a is B ? c : d", 0, "conditional(typed,name,name) 0-14"),
    ("a ? b : c", 0, "conditional(name,name,name) 0-9"),
    ("a ? b : c;", 0, "conditional(name,name,name) 0-9"),
    (
        "a ? b : c ? d : e",
        0,
        "conditional(name,name,conditional) 0-17",
    ),
    (
        "a ? b ? c : d : e",
        0,
        "conditional(name,conditional,name) 0-17",
    ),
    ("a ? b = c : d", 0, "conditional(name,assign,name) 0-13"),
    ("a = b = c", 0, "assign(name,assign) 0-9"),
    ("a += b ? c : d", 0, "assign(name,conditional) 0-14"),
    ("a.b[1] <<= c", 0, "assign(index,name) 0-12"),
    ("a ? b : c = d", 0, "assign(conditional,name) 0-13"),
    ("x => x", 0, "lambda(name) 0-6"),
    ("() => 1", 0, "lambda(literal) 0-7"),
    ("(a, b) => a + b", 0, "lambda(binary) 0-15"),
    ("(a) => { }", 0, "lambda(block) 0-10"),
    ("x => y => x", 0, "lambda(lambda) 0-11"),
    ("x => a = b", 0, "lambda(assign) 0-10"),
    ("() => { return 1; }", 0, "lambda(block) 0-19"),
];

const CASTS: &[(&str, u32, &str)] = &[
    ("(a) b", 0, "cast(name) 0-5"),
    ("(a) - b", 0, "binary(bracketed,name) 0-7"),
    ("(a) + b", 0, "binary(bracketed,name) 0-7"),
    ("(int) - b", 0, "cast(prefix) 0-9"),
    ("(int) + b", 0, "binary(bracketed,name) 0-9"),
    ("(uint8) -1 - 2", 0, "binary(cast,literal) 0-14"),
    ("(a) !b", 0, "cast(prefix) 0-6"),
    ("(a) ~b", 0, "cast(prefix) 0-6"),
    ("(a.b) (c)", 0, "cast(bracketed) 0-9"),
    ("(a) (b)", 0, "cast(bracketed) 0-7"),
    ("(a.int) - b", 0, "binary(bracketed,name) 0-11"),
    ("(a + b) (c)", 0, "call(bracketed) 0-11"),
    ("(a ()) (b)", 0, "call(bracketed) 0-10"),
    ("(a) * b", 0, "binary(bracketed,name) 0-7"),
    ("(a).b", 0, "member(bracketed) 0-5"),
    ("(a)[1]", 0, "index(bracketed,literal) 0-6"),
    ("(a)++", 0, "step(bracketed) 0-5"),
    ("(a[]) b", 0, "cast(name) 0-7"),
    ("(a?) b", 0, "cast(name) 0-6"),
    ("(a?[]?) b", 0, "cast(name) 0-9"),
    ("(unowned A) b", 0, "cast(name) 0-13"),
    ("(owned A) b", 0, "cast(name) 0-11"),
    ("(void) a", 0, "cast(name) 0-8"),
    ("(a) (b) c", 0, "cast(cast) 0-9"),
    ("(a) \"b\"", 0, "cast(literal) 0-7"),
    ("(a) new B ()", 0, "cast(new) 0-12"),
    ("(a) b + c", 0, "binary(cast,name) 0-9"),
    ("(a ? b : c)", 0, "bracketed(conditional) 0-11"),
    ("(a = b)", 0, "bracketed(assign) 0-7"),
    ("(a is B)", 0, "bracketed(typed) 0-8"),
    ("((a) b)", 0, "bracketed(cast) 0-7"),
    ("(a[1])", 0, "bracketed(index) 0-6"),
];

const REFUSED: &[(&str, u32, &str)] = &[
    ("", 0, "S1 0-0"),
    ("a +", 0, "S1 3-3"),
    ("a ? b", 0, "S1 5-5"),
    ("a ? b : ;", 0, "S1 8-9"),
    ("a =", 0, "S1 3-3"),
    ("a.;", 0, "S1 2-3"),
    ("f (a,)", 0, "S1 5-6"),
    ("f (a", 0, "S1 4-4"),
    ("(a", 0, "S1 2-2"),
    ("(a*) b", 0, "S1 3-4"),
    ("(a<b>) c", 0, "S1 5-6"),
    ("(a, b)", 0, "S1 6-6"),
    ("(a, 1)", 0, "S1 4-5"),
    ("(a, b) + c", 0, "S1 7-8"),
    ("() ;", 0, "S1 3-4"),
    ("x => ;", 0, "S1 5-6"),
    ("yield a", 0, "S1 7-7"),
    ("out a", 0, "S1 0-3"),
    ("}", 0, "S1 0-1"),
    ("f (x: ,)", 0, "S1 6-7"),
    ("new ()", 0, "S1 4-5"),
    ("new A;", 0, "S1 5-6"),
    ("a[]", 0, "S1 2-3"),
    ("/a", 0, "U1 0-1"),
    ("a + /b", 0, "U1 4-5"),
    ("(/a", 0, "U1 1-2"),
    ("a ? /b : c", 0, "U1 4-5"),
    ("yield /a", 0, "U1 6-7"),
    ("a as B? / b", 0, "U1 8-9"),
    ("a[1:2]", 0, "U1 3-4"),
    ("a[,]", 0, "S1 2-3"),
    ("(a[,]) b", 0, "U1 3-4"),
    ("new A[,]", 0, "U1 6-7"),
    ("new A<B>[1]", 0, "U1 5-6"),
    ("new A*[1]", 0, "U1 5-6"),
    ("new A () { }", 0, "U1 9-10"),
    ("(a[]*) b", 0, "U1 4-5"),
    ("a as B*", 0, "U1 6-7"),
    ("typeof (a)", 0, "U1 0-6"),
    ("a + delete b", 0, "U1 4-10"),
    ("a + \"b", 0, "L2 4-5"),
];

const LEVELS: &[(&str, u32, &str)] = &[
    ("a", 200, "name 0-1"),
    ("a", 201, "S2 0-1"),
    ("a", 202, "S2 0-1"),
    ("-a", 4_294_967_295, "S2 0-1"),
    ("new a ()", 202, "S2 0-3"),
    ("/a", 202, "U1 0-1"),
    (";", 202, "S1 0-1"),
    ("", 202, "S1 0-0"),
    ("(a)", 199, "bracketed(name) 0-3"),
    ("(a)", 200, "S2 1-2"),
    ("-a", 199, "prefix(name) 0-2"),
    ("-a", 200, "S2 1-2"),
    ("a + b", 199, "binary(name,name) 0-5"),
    ("a + b", 200, "S2 4-5"),
    ("a.b", 200, "member(name) 0-3"),
    ("a.b.c", 200, "S2 3-4"),
    ("a ? b : c", 199, "conditional(name,name,name) 0-9"),
    ("a ? b : c", 200, "S2 4-5"),
    ("a = b", 199, "assign(name,name) 0-5"),
    ("a = b", 200, "S2 4-5"),
    ("a[b]", 199, "index(name,name) 0-4"),
    ("a[b]", 200, "S2 2-3"),
    ("a (b)", 199, "call(name) 0-5"),
    ("a (b)", 200, "S2 3-4"),
    ("a ()", 200, "S2 3-4"),
    ("x => x", 199, "lambda(name) 0-6"),
    ("x => x", 200, "S2 5-6"),
    ("new A[1]", 199, "new array 0-8"),
    ("new A[1]", 200, "S2 6-7"),
    ("new A ()", 200, "S2 7-8"),
    ("yield f ()", 198, "yield(call) 0-10"),
    ("yield f ()", 199, "S2 9-10"),
    ("yield f ()", 200, "S2 6-7"),
    ("a is B", 199, "typed(name) 0-6"),
    ("a is B", 200, "S2 5-6"),
    ("a ?? b", 199, "binary(name,name) 0-6"),
    ("a ?? b", 200, "S2 5-6"),
    ("(int) a", 199, "cast(name) 0-7"),
    ("(int) a", 200, "S2 1-4"),
    ("a is B ? c : d", 199, "conditional(typed,name,name) 0-14"),
    ("() => { }", 198, "lambda(block) 0-9"),
    ("() => { }", 199, "S2 8-9"),
    ("a + b * c", 198, "binary(name,binary) 0-9"),
    ("a + b * c", 199, "S2 8-9"),
    ("a + b + c", 198, "binary(binary,name) 0-9"),
    ("a + b + c", 199, "S2 8-9"),
];

const INITS: &[(&str, u32, &str)] = &[
    ("{ }", 0, "list 0-3"),
    ("{ 1, 2 }", 0, "list 0-8"),
    ("{ a } b", 0, "list 0-5"),
    ("a = b", 0, "assign(name,name) 0-5"),
    ("a", 0, "name 0-1"),
    ("{ x => { } }", 0, "list 0-12"),
    ("{ 1, }", 0, "S1 5-6"),
    ("{ { } }", 0, "S1 2-3"),
    ("{ , 1 }", 0, "S1 2-3"),
    ("{ 1", 0, "S1 3-3"),
    (";", 0, "S1 0-1"),
    ("/a", 0, "U1 0-1"),
    ("{ 1 }", 199, "list 0-5"),
    ("{ 1 }", 200, "S2 2-3"),
    ("{ }", 200, "S2 2-3"),
    ("{ }", 4_294_967_295, "S2 0-1"),
    ("a", 202, "S2 0-1"),
];

fn are_read(rt: &impl Abort, alloc: Global, rows: &[(&str, u32, &str)]) -> Result<(), Fail> {
    for (text, level, wanted) in rows {
        if text.len() > 100 {
            return Ok(());
        }
        let mut lexer = Lexer::new(text.as_bytes(), 0);
        let answer = parse_expr(alloc, &mut lexer, *level);
        assert_eq!(rt; told_expr(alloc, answer)?.as_str(), *wanted, "{text}");
    }
    Ok(())
}

#[test]
fn operands_are_read(rt: HostRuntime) -> Result<(), Fail> {
    are_read(&rt, rt.alloc(), OPERANDS)
}

#[test]
fn operators_are_read(rt: HostRuntime) -> Result<(), Fail> {
    are_read(&rt, rt.alloc(), OPERATORS)
}

#[test]
fn casts_are_told_from_brackets(rt: HostRuntime) -> Result<(), Fail> {
    are_read(&rt, rt.alloc(), CASTS)
}

#[test]
fn what_is_no_expression_is_refused(rt: HostRuntime) -> Result<(), Fail> {
    are_read(&rt, rt.alloc(), REFUSED)
}

#[test]
fn levels_of_expressions_are_exact(rt: HostRuntime) -> Result<(), Fail> {
    are_read(&rt, rt.alloc(), LEVELS)
}

#[test]
fn initialisers_are_read(rt: HostRuntime) -> Result<(), Fail> {
    for (text, level, wanted) in INITS {
        if text.len() > 100 {
            return Ok(());
        }
        let mut lexer = Lexer::new(text.as_bytes(), 0);
        let answer = parse_init(rt.alloc(), &mut lexer, *level);
        assert_eq!(rt; told_expr(rt.alloc(), answer)?.as_str(), *wanted, "{text}");
    }
    Ok(())
}
