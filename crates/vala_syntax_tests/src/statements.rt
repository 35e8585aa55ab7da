// Blocks: each text with its level, and where the block stands with what each statement is and where, or the rule that it breaks and where.

use crate::shapes::told_block;
use std::alloc::Global;
use std::process::Abort;
use std::test::Fail;
use vala_lexer::Lexer;
use vala_parse_expr::parse_block;

const SIMPLE: &[(&str, u32, &str)] = &[
    ("{ }", 0, "0-3"),
    ("{ ; }", 0, "0-5, empty 2-3"),
    ("{ { } }", 0, "0-7, block 2-5"),
    ("{ { ; } ; }", 0, "0-11, block 2-7, empty 8-9"),
    ("{ a; }", 0, "0-6, expression(name) 2-4"),
    (
        "{ a (); b++; }",
        0,
        "0-14, expression(call) 2-7, expression(step) 8-12",
    ),
    ("{ ++a; }", 0, "0-8, expression(prefix) 2-6"),
    ("{ a = b; }", 0, "0-10, expression(assign) 2-8"),
    ("{ a * b; }", 0, "0-10, expression(binary) 2-8"),
    ("{ a < b; }", 0, "0-10, expression(binary) 2-8"),
    ("{ a ?? b; }", 0, "0-11, expression(binary) 2-9"),
    ("{ (a) b; }", 0, "0-10, expression(cast) 2-8"),
    ("{ a is B; }", 0, "0-11, expression(typed) 2-9"),
    ("{ this.a = b; }", 0, "0-15, expression(assign) 2-13"),
    ("{ base (); }", 0, "0-12, expression(call) 2-10"),
    ("{ new A (); }", 0, "0-13, expression(new) 2-11"),
    ("{ 1; }", 0, "0-6, expression(literal) 2-4"),
    ("{ a.b.c (); }", 0, "0-13, expression(call) 2-11"),
    ("{ a[1] = b; }", 0, "0-13, expression(assign) 2-11"),
    ("{ a[1]; }", 0, "0-9, expression(index) 2-7"),
    ("{ x => x; }", 0, "0-11, expression(lambda) 2-9"),
    (
        "{ a = () => { b (); }; }",
        0,
        "0-24, expression(assign) 2-22",
    ),
    ("{ f (x => { }); }", 0, "0-17, expression(call) 2-15"),
    ("{ a ? 1 : c; }", 0, "0-14, expression(conditional) 2-12"),
    ("{ a ? (b) : c; }", 0, "0-16, expression(conditional) 2-14"),
    ("{ a.b ? -c : d; }", 0, "0-17, expression(conditional) 2-15"),
    ("{ a () ? b : c; }", 0, "0-17, expression(conditional) 2-15"),
    ("{ break; }", 0, "0-10, break 2-8"),
    ("{ continue; }", 0, "0-13, continue 2-11"),
    ("{ return; }", 0, "0-11, return 2-9"),
    ("{ return 1; }", 0, "0-13, return(literal) 2-11"),
    ("{ throw a; }", 0, "0-12, throw(name) 2-10"),
    ("{ yield; }", 0, "0-10, yield 2-8"),
    ("{ yield f (); }", 0, "0-15, expression(yield) 2-13"),
    ("{ yield f ().g = 1; }", 0, "0-21, expression(assign) 2-19"),
    ("{ yield f () + 1; }", 0, "0-19, expression(binary) 2-17"),
    ("{ a = yield f (); }", 0, "0-19, expression(assign) 2-17"),
    (
        "{ var a = yield f (); }",
        0,
        "0-23, local(var,one,yield) 2-21",
    ),
    ("{ return yield f (); }", 0, "0-22, return(yield) 2-20"),
    ("{ throw yield f (); }", 0, "0-21, throw(yield) 2-19"),
    ("{ if (yield f ()) ; }", 0, "0-21, if(empty) 2-19"),
];

const LOCALS: &[(&str, u32, &str)] = &[
    ("{ a b; }", 0, "0-8, local(type,one) 2-6"),
    ("{ a.b c; }", 0, "0-10, local(type,one) 2-8"),
    ("{ a[] b; }", 0, "0-10, local(type,one) 2-8"),
    ("{ a? b; }", 0, "0-9, local(type,one) 2-7"),
    ("{ a?[] b; }", 0, "0-11, local(type,one) 2-9"),
    ("{ a.b[]? c; }", 0, "0-13, local(type,one) 2-11"),
    ("{ a b = 1, c; }", 0, "0-15, local(type,two,literal) 2-13"),
    ("{ a b, c = 1; }", 0, "0-15, local(type,two) 2-13"),
    ("{ var a = b; }", 0, "0-14, local(var,one,name) 2-12"),
    (
        "{ a[] b = { 1, 2 }; }",
        0,
        "0-21, local(type,one,list) 2-19",
    ),
    (
        "{ a b = () => { }; }",
        0,
        "0-20, local(type,one,lambda) 2-18",
    ),
    ("{ unowned a b; }", 0, "0-16, local(type,one) 2-14"),
    ("{ owned a.b? c; }", 0, "0-17, local(type,one) 2-15"),
    ("{ weak a b; }", 0, "0-13, local(type,one) 2-11"),
    ("{ void a; }", 0, "0-11, local(type,one) 2-9"),
    ("{ a ? b : c; }", 0, "S1 8-9"),
    ("{ a b c; }", 0, "S1 6-7"),
    ("{ a b = ; }", 0, "S1 8-9"),
    ("{ var ; }", 0, "S1 6-7"),
    ("{ a, b; }", 0, "S1 3-4"),
    ("{ a b, ; }", 0, "S1 7-8"),
    ("{ a b = { 1 ; } }", 0, "S1 12-13"),
    ("{ unowned a; }", 0, "S1 11-12"),
    ("{ a[]; }", 0, "S1 5-6"),
    ("{ a[] b[1]; }", 0, "S1 7-8"),
    ("{ a[]* b; }", 0, "U1 5-6"),
    ("{ a?* b; }", 0, "U1 4-5"),
    ("{ a? / b; }", 0, "U1 5-6"),
    ("{ unowned a<b> c; }", 0, "U1 11-12"),
    ("{ void* a; }", 0, "U1 6-7"),
    ("{ a[,] b; }", 0, "U1 4-5"),
    ("{ const a b = 1; }", 0, "S1 2-7"),
];

const IFS: &[(&str, u32, &str)] = &[
    ("{ if (a) b; }", 0, "0-13, if(expression) 2-11"),
    (
        "{ if (a) b; else c; }",
        0,
        "0-21, if else(expression,expression) 2-19",
    ),
    (
        "{ if (a) { } else { } }",
        0,
        "0-23, if else(block,block) 2-21",
    ),
    ("{ if (a) b c; }", 0, "0-15, if(local) 2-13"),
    ("{ if (a) if (b) c; else d; }", 0, "0-28, if(if else) 2-26"),
    (
        "{ if (a) { if (b) c; } else d; }",
        0,
        "0-32, if else(block,expression) 2-30",
    ),
    (
        "{ if (a) if (b) c; else d; else e; }",
        0,
        "0-36, if else(if else,expression) 2-34",
    ),
    (
        "{ if (a) while (b) if (c) d; else e; }",
        0,
        "0-38, if(while) 2-36",
    ),
    (
        "{ if (a) while (b) c; else d; }",
        0,
        "0-31, if else(while,expression) 2-29",
    ),
    (
        "{ if (a) for (;;) if (b) c; else d; }",
        0,
        "0-37, if(for) 2-35",
    ),
    (
        "{ if (a) foreach (var b in c) if (d) e; else f; }",
        0,
        "0-49, if(foreach) 2-47",
    ),
    (
        "{ if (a) do if (b) c; while (d); else e; }",
        0,
        "0-42, if else(do,expression) 2-40",
    ),
    (
        "{ if (a) switch (b) { } else c; }",
        0,
        "0-33, if else(switch,expression) 2-31",
    ),
    (
        "{ if (a) try { } finally { } else c; }",
        0,
        "0-38, if else(try,expression) 2-36",
    ),
    (
        "{ if (a) b; else if (c) d; else e; }",
        0,
        "0-36, if else(expression,expression,expression) 2-34",
    ),
    (
        "{ if (a) b; else if (c) d; ; }",
        0,
        "0-30, if(expression,expression) 2-26, empty 27-28",
    ),
    (
        "{ if (a) b; else while (c) if (d) e; else f; }",
        0,
        "0-46, if else(expression,while) 2-44",
    ),
    (
        "{ if (a) if (b) c; else if (d) e; else f; else g; }",
        0,
        "0-51, if else(if else,expression) 2-49",
    ),
    (
        "{ if (a) b; else if (c) { } else if (d) e; else { if (f) ; } }",
        0,
        "0-62, if else(expression,block,expression,block) 2-60",
    ),
    ("{ else ; }", 0, "S1 2-6"),
    ("{ if (a) b; else c; else d; }", 0, "S1 20-24"),
    ("{ if a b; }", 0, "S1 5-6"),
    ("{ if (a; b; }", 0, "S1 7-8"),
    ("{ if () b; }", 0, "S1 6-7"),
    ("{ if (a) }", 0, "S1 9-10"),
    ("{ if (a) b; else }", 0, "S1 17-18"),
];

const LOOPS: &[(&str, u32, &str)] = &[
    ("{ while (a) b; }", 0, "0-16, while(expression) 2-14"),
    ("{ while (a) { } }", 0, "0-17, while(block) 2-15"),
    ("{ do a; while (b); }", 0, "0-20, do(expression) 2-18"),
    ("{ do { } while (b); }", 0, "0-21, do(block) 2-19"),
    ("{ do if (a) b; while (c); }", 0, "0-27, do(if) 2-25"),
    ("{ for (;;) ; }", 0, "0-14, for(none,none,none,empty) 2-12"),
    (
        "{ for (int i = 0; i < 1; i++) a; }",
        0,
        "0-34, for(local,binary,one,expression) 2-32",
    ),
    (
        "{ for (var i = 0, j = 1; ; ) { } }",
        0,
        "0-34, for(local,none,none,block) 2-32",
    ),
    (
        "{ for (a = 1, b = 2; a; b++, c++) ; }",
        0,
        "0-37, for(two,name,two,empty) 2-35",
    ),
    (
        "{ for (a; b (); c) ; }",
        0,
        "0-22, for(one,call,one,empty) 2-20",
    ),
    (
        "{ for (yield f (), a; ; ) ; }",
        0,
        "0-29, for(two,none,none,empty) 2-27",
    ),
    (
        "{ for (; ; yield f ()) ; }",
        0,
        "0-26, for(none,none,one,empty) 2-24",
    ),
    (
        "{ foreach (var a in b) c; }",
        0,
        "0-27, foreach(var,name,expression) 2-25",
    ),
    (
        "{ foreach (a.b c in d ()) { } }",
        0,
        "0-31, foreach(type,call,block) 2-29",
    ),
    (
        "{ foreach (unowned a[] b in c) ; }",
        0,
        "0-34, foreach(type,name,empty) 2-32",
    ),
    ("{ while (a) }", 0, "S1 12-13"),
    ("{ while a", 0, "S1 8-9"),
    ("{ do a; b;", 0, "S1 8-9"),
    ("{ do { } while (b) }", 0, "S1 19-20"),
    ("{ for (a) ;", 0, "S1 8-9"),
    ("{ for (a; b) ;", 0, "S1 11-12"),
    ("{ for (;; a, ) ;", 0, "S1 13-14"),
    ("{ for (a b = 1; c; d;", 0, "S1 20-21"),
    ("{ for (a b; c, d", 0, "S1 13-14"),
    ("{ foreach (a<b> c in d) ;", 0, "U1 12-13"),
    ("{ foreach (a in b) ;", 0, "S1 13-15"),
    ("{ foreach (var a , b) ;", 0, "S1 17-18"),
    ("{ foreach (var a in b, c", 0, "S1 21-22"),
];

const SECTIONS: &[(&str, u32, &str)] = &[
    ("{ switch (a) { } }", 0, "0-18, switch(name,none) 2-16"),
    (
        "{ switch (a) { case 1: b; break; default: c; } }",
        0,
        "0-48, switch(name,two,one) 2-46",
    ),
    (
        "{ switch (a) { case 1: case 2: b; default: } }",
        0,
        "0-46, switch(name,two,two) 2-44",
    ),
    (
        "{ switch (a ()) { case 1: default: } }",
        0,
        "0-38, switch(call,one,two) 2-36",
    ),
    (
        "{ switch (a) { default: b c; { } } }",
        0,
        "0-36, switch(name,one,one) 2-34",
    ),
    (
        "{ switch (a) { case b ? c : d: ; } }",
        0,
        "0-36, switch(name,one,one) 2-34",
    ),
    ("{ switch (a) { b; } }", 0, "S1 15-16"),
    ("{ switch (a) { case 1; } }", 0, "S1 21-22"),
    ("{ switch (a) { case : } }", 0, "S1 20-21"),
    ("{ switch (a) { default 1: } }", 0, "S1 23-24"),
    ("{ switch (a) ;", 0, "S1 13-14"),
    ("{ switch (a) { default: ;", 0, "S1 25-25"),
    ("{ try { } }", 0, "0-11, try(none) 2-9"),
    ("{ try { } catch { } }", 0, "0-21, try(one) 2-19"),
    (
        "{ try { } catch (a.b c) { } catch { } }",
        0,
        "0-39, try(two) 2-37",
    ),
    ("{ try { } finally { } }", 0, "0-23, try(none,finally) 2-21"),
    (
        "{ try { } catch (A a) { } finally { } ; }",
        0,
        "0-41, try(one,finally) 2-37, empty 38-39",
    ),
    ("{ try ;", 0, "S1 6-7"),
    ("{ try { } catch (a) { } }", 0, "S1 18-19"),
    ("{ try { } catch (a* b) { } }", 0, "U1 18-19"),
    ("{ try { } finally { } catch { } }", 0, "S1 22-27"),
    ("{ try { } catch ; }", 0, "S1 16-17"),
    ("{ try { } finally ; }", 0, "S1 18-19"),
    ("{ catch { } }", 0, "S1 2-7"),
    ("a", 0, "S1 0-1"),
    ("", 0, "S1 0-0"),
    ("{", 0, "S1 1-1"),
    ("{ a}", 0, "S1 3-4"),
    ("{ a 1; }", 0, "S1 4-5"),
    ("{ break a; }", 0, "S1 8-9"),
    ("{ throw ; }", 0, "S1 8-9"),
    ("{ return /a; }", 0, "U1 9-10"),
    ("{ yield a; }", 0, "S1 9-10"),
    ("{ lock (a) { } }", 0, "U1 2-6"),
    ("{ delete a; }", 0, "U1 2-8"),
    ("{ /a; }", 0, "U1 2-3"),
    ("{ a = \"b; }", 0, "L2 6-7"),
];

const DEEP: &[(&str, u32, &str)] = &[
    ("{ }", 199, "0-3"),
    ("{ }", 200, "S2 2-3"),
    ("{ }", 201, "S2 0-1"),
    ("{ }", 202, "S2 0-1"),
    ("{ }", 4_294_967_295, "S2 0-1"),
    ("a;", 202, "S1 0-1"),
    ("{ ; }", 199, "0-5, empty 2-3"),
    ("{ ;", 200, "S2 2-3"),
    ("{ { } }", 198, "0-7, block 2-5"),
    ("{ { } }", 199, "S2 4-5"),
    ("{ if (a) ; }", 198, "0-12, if(empty) 2-10"),
    ("{ if (a) ; }", 199, "S2 6-7"),
    ("{ if (a) { } }", 198, "0-14, if(block) 2-12"),
    ("{ if (a) if (b) ; }", 197, "0-19, if(if) 2-17"),
    ("{ if (a) if (b) ; }", 198, "S2 13-14"),
    (
        "{ if (a) ; else if (b) ; else ; }",
        198,
        "0-33, if else(empty,empty,empty) 2-31",
    ),
    ("{ while (a) ; }", 198, "0-15, while(empty) 2-13"),
    ("{ while (a) { } }", 199, "S2 9-10"),
    ("{ do ; while (a); }", 198, "0-19, do(empty) 2-17"),
    ("{ do ; while (a); }", 199, "S2 5-6"),
    (
        "{ for (;;) ; }",
        198,
        "0-14, for(none,none,none,empty) 2-12",
    ),
    ("{ for (; ;) ; }", 199, "S2 7-8"),
    (
        "{ foreach (var a in b) ; }",
        198,
        "0-26, foreach(var,name,empty) 2-24",
    ),
    ("{ foreach (var a in b) ; }", 199, "S2 11-14"),
    (
        "{ switch (a) { case 1: } }",
        198,
        "0-26, switch(name,one,one) 2-24",
    ),
    ("{ switch (a) { } }", 199, "S2 10-11"),
    ("{ try { } catch { } }", 198, "0-21, try(one) 2-19"),
    ("{ try { } }", 199, "S2 8-9"),
    ("{ try { } catch (a b) { } }", 198, "0-27, try(one) 2-25"),
    (
        "{ switch (a) { case 1: ; } }",
        198,
        "0-28, switch(name,one,one) 2-26",
    ),
    ("{ a b = c; }", 199, "0-12, local(type,one,name) 2-10"),
    ("{ a b = { 1 }; }", 198, "0-16, local(type,one,list) 2-14"),
    ("{ a b = { 1 }; }", 199, "S2 10-11"),
    ("{ yield f (); }", 197, "0-15, expression(yield) 2-13"),
    ("{ yield f (); }", 198, "S2 11-12"),
    ("{ return a; }", 199, "0-13, return(name) 2-11"),
    ("{ return a + b; }", 199, "S2 13-14"),
    (
        "{ if (a) b; else c; }",
        198,
        "0-21, if else(expression,expression) 2-19",
    ),
];

fn are_read(rt: &impl Abort, alloc: Global, rows: &[(&str, u32, &str)]) -> Result<(), Fail> {
    for (text, level, wanted) in rows {
        if text.len() > 100 {
            return Ok(());
        }
        let mut lexer = Lexer::new(text.as_bytes(), 0);
        let answer = parse_block(alloc, &mut lexer, *level);
        assert_eq!(rt; told_block(alloc, answer)?.as_str(), *wanted, "{text}");
    }
    Ok(())
}

#[test]
fn simple_statements_are_read(rt: HostRuntime) -> Result<(), Fail> {
    are_read(&rt, rt.alloc(), SIMPLE)
}

#[test]
fn declarations_are_told_from_expressions(rt: HostRuntime) -> Result<(), Fail> {
    are_read(&rt, rt.alloc(), LOCALS)
}

#[test]
fn an_else_belongs_to_the_nearest_if(rt: HostRuntime) -> Result<(), Fail> {
    are_read(&rt, rt.alloc(), IFS)
}

#[test]
fn loops_are_read(rt: HostRuntime) -> Result<(), Fail> {
    are_read(&rt, rt.alloc(), LOOPS)
}

#[test]
fn switches_and_tries_are_read(rt: HostRuntime) -> Result<(), Fail> {
    are_read(&rt, rt.alloc(), SECTIONS)
}

#[test]
fn levels_of_statements_are_exact(rt: HostRuntime) -> Result<(), Fail> {
    are_read(&rt, rt.alloc(), DEEP)
}
