// Where a text stops being one of the dialect, whatever it declares.

use c_parser::parse;
use c_tree::Cause;
use std::alloc::Global;
use std::test::Fail;

/// Where a text stops.
#[derive(Clone, Copy, Debug, PartialEq, Eq)]
pub enum Stopped {
    /// At what is no token.
    Token(u32),
    /// At a token with which no text goes on, or at the end.
    Syntax(u32),
    Nowhere,
    Memory,
}

pub fn stop(alloc: Global, text: &[u8]) -> Stopped {
    let Ok(parsed) = parse(alloc, text) else {
        return Stopped::Memory;
    };
    match parsed.stop {
        Some(stop) => match stop.fault.cause {
            Cause::Token => Stopped::Token(stop.fault.place),
            _ => Stopped::Syntax(stop.fault.place),
        },
        None => Stopped::Nowhere,
    }
}

/// What stands in front of the statements of a case.
const FRONT: &str = "int main (int argc, char **argv) { ";

// Where a text of `main` stops, by its statements.
fn stop_in_main(alloc: Global, statements: &str) -> Result<Stopped, Fail> {
    let text = format!(in alloc; "{FRONT}{statements} return 0; }}")?;
    let front = FRONT.len() as u32;
    Ok(match stop(alloc, text.as_bytes()) {
        Stopped::Token(at) => Stopped::Token(at.saturating_sub(front)),
        Stopped::Syntax(at) => Stopped::Syntax(at.saturating_sub(front)),
        other => other,
    })
}

#[test]
fn a_declaration_and_an_assignment(rt: HostRuntime) -> Result<(), Fail> {
    let alloc = rt.alloc();
    for (text, place) in [
        ("gint a; a = 1;", Stopped::Nowhere),
        (
            "gint *a; const gint b; gint const *const c; a = &b;",
            Stopped::Nowhere,
        ),
        ("Foo *p; p = 1;", Stopped::Nowhere),
        ("Foo p;", Stopped::Nowhere),
        ("void *p;", Stopped::Nowhere),
        ("const const int *const *x;", Stopped::Nowhere),
        ("void x;", Stopped::Syntax(5)),
        ("void const x;", Stopped::Syntax(11)),
        ("const void x;", Stopped::Syntax(11)),
        ("gint (*f) (void);", Stopped::Syntax(5)),
        ("gint a, b;", Stopped::Syntax(6)),
        ("gint a = 1;", Stopped::Syntax(7)),
        ("gint;", Stopped::Syntax(4)),
        ("const x;", Stopped::Syntax(7)),
        ("struct _X *p;", Stopped::Syntax(0)),
        ("a = 1; gint b;", Stopped::Syntax(12)),
        ("a = 1; int b;", Stopped::Syntax(7)),
        ("gint *;", Stopped::Syntax(6)),
    ] {
        assert_eq!(rt; stop_in_main(alloc, text)?, place, "{text}");
    }
    Ok(())
}

#[test]
fn places_and_stores(rt: HostRuntime) -> Result<(), Fail> {
    let alloc = rt.alloc();
    for (text, place) in [
        ("a = 1;", Stopped::Nowhere),
        ("a.b->c[1].d = 2;", Stopped::Nowhere),
        ("*p = 1;", Stopped::Nowhere),
        ("**p = 1;", Stopped::Nowhere),
        ("*p->x = 1;", Stopped::Nowhere),
        ("(*p).x = 1;", Stopped::Nowhere),
        ("(p)->x = 1;", Stopped::Nowhere),
        ("(a) = 1;", Stopped::Nowhere),
        ("\"x\"[0] = 1;", Stopped::Nowhere),
        ("(1 + 2)->x = 3;", Stopped::Nowhere),
        ("*1 = 2;", Stopped::Nowhere),
        ("*-p = 2;", Stopped::Nowhere),
        ("1 = 2;", Stopped::Syntax(2)),
        ("(1 + 2).x = 3;", Stopped::Syntax(7)),
        ("(-a) = 1;", Stopped::Syntax(5)),
        ("a == 1;", Stopped::Syntax(2)),
        ("a++;", Stopped::Syntax(1)),
        ("a += 1;", Stopped::Syntax(2)),
        ("a.;", Stopped::Syntax(2)),
        ("a.1;", Stopped::Token(1)),
        ("a->*b = 1;", Stopped::Syntax(3)),
        ("a[1;", Stopped::Syntax(3)),
        ("a[];", Stopped::Syntax(2)),
        ("NULL = 1;", Stopped::Syntax(5)),
        ("&a = 1;", Stopped::Syntax(0)),
        ("-a = 1;", Stopped::Syntax(0)),
        ("*p;", Stopped::Syntax(2)),
        ("* = 1;", Stopped::Syntax(2)),
        ("(gint) a = 1;", Stopped::Syntax(1)),
    ] {
        assert_eq!(rt; stop_in_main(alloc, text)?, place, "{text}");
    }
    Ok(())
}

#[test]
fn values(rt: HostRuntime) -> Result<(), Fail> {
    let alloc = rt.alloc();
    for (text, place) in [
        ("a = - - b;", Stopped::Nowhere),
        ("a = !~+-*p;", Stopped::Nowhere),
        ("a = &b;", Stopped::Nowhere),
        ("a = &p->x;", Stopped::Nowhere),
        ("a = &*p;", Stopped::Nowhere),
        ("a = &(b);", Stopped::Nowhere),
        ("a = &(1 + 2)->x;", Stopped::Nowhere),
        ("a = &a[1];", Stopped::Nowhere),
        ("a = &\"x\"[1];", Stopped::Nowhere),
        ("a = b ? c : d ? e : f;", Stopped::Nowhere),
        ("a = b ? c ? d : e : f;", Stopped::Nowhere),
        ("a = b + c * d - e << 2 | f && g || h;", Stopped::Nowhere),
        (
            "a = b == c != d < e > f <= g >= h >> i ^ j & k % l / m;",
            Stopped::Nowhere,
        ),
        ("a = 'x' + \"s\"[1];", Stopped::Nowhere),
        ("a = TRUE;", Stopped::Nowhere),
        ("a = ((((1))));", Stopped::Nowhere),
        ("a = &(1 + 2);", Stopped::Syntax(12)),
        ("a = &-x;", Stopped::Syntax(5)),
        ("a = &&b;", Stopped::Syntax(4)),
        ("a = &1;", Stopped::Syntax(6)),
        ("a = 1, 2;", Stopped::Syntax(5)),
        ("a = gint;", Stopped::Syntax(4)),
        ("a = g_print;", Stopped::Syntax(11)),
        ("a = --b;", Stopped::Syntax(4)),
        ("a = b ? c;", Stopped::Syntax(9)),
        ("a = (1;", Stopped::Syntax(6)),
        ("a = 1 2;", Stopped::Syntax(6)),
        ("a = 1 + ;", Stopped::Syntax(8)),
        ("a = ;", Stopped::Syntax(4)),
        ("a = b c;", Stopped::Syntax(6)),
        ("a = b ? : c;", Stopped::Syntax(8)),
        ("a = (b ? c : d;", Stopped::Syntax(14)),
        ("a = b.c.d->e[f[g]];", Stopped::Nowhere),
        ("a = 1.x;", Stopped::Token(4)),
        ("a = (1).x;", Stopped::Syntax(7)),
    ] {
        assert_eq!(rt; stop_in_main(alloc, text)?, place, "{text}");
    }
    Ok(())
}

#[test]
fn casts_and_sizes(rt: HostRuntime) -> Result<(), Fail> {
    let alloc = rt.alloc();
    for (text, place) in [
        ("a = (gint) b;", Stopped::Nowhere),
        ("a = (gint) - b;", Stopped::Nowhere),
        ("a = (const gchar *) (gint *) b;", Stopped::Nowhere),
        ("a = (void *) b;", Stopped::Nowhere),
        ("a = sizeof (gint);", Stopped::Nowhere),
        ("a = sizeof (Foo *);", Stopped::Nowhere),
        ("a = sizeof (Foo);", Stopped::Nowhere),
        ("a = G_STRUCT_OFFSET (GError, code);", Stopped::Nowhere),
        ("a = (Foo) - b;", Stopped::Nowhere),
        ("a = &(gint) b;", Stopped::Syntax(6)),
        ("a = (void) b;", Stopped::Syntax(9)),
        ("a = (Foo) b;", Stopped::Syntax(10)),
        ("a = (Foo *) b;", Stopped::Syntax(10)),
        ("a = sizeof (void);", Stopped::Syntax(16)),
        ("a = sizeof a;", Stopped::Syntax(11)),
        ("a = G_STRUCT_OFFSET (GError);", Stopped::Syntax(27)),
        ("a = (gint b);", Stopped::Syntax(10)),
        ("a = (gint *);", Stopped::Syntax(12)),
        ("a = (gint);", Stopped::Syntax(10)),
        ("a = (const Foo *) b;", Stopped::Syntax(11)),
    ] {
        assert_eq!(rt; stop_in_main(alloc, text)?, place, "{text}");
    }
    Ok(())
}

#[test]
fn calls(rt: HostRuntime) -> Result<(), Fail> {
    let alloc = rt.alloc();
    for (text, place) in [
        ("f ();", Stopped::Nowhere),
        ("f (1, 2);", Stopped::Nowhere),
        ("(f) (1);", Stopped::Nowhere),
        ("p->f (1);", Stopped::Nowhere),
        ("a = f (1);", Stopped::Nowhere),
        ("a = p->f ();", Stopped::Nowhere),
        ("a = (f) ();", Stopped::Nowhere),
        ("g_print (\"x\", 1);", Stopped::Nowhere),
        ("a = g_print (\"x\");", Stopped::Nowhere),
        ("a = b () ;", Stopped::Nowhere),
        ("p[1] (2);", Stopped::Nowhere),
        ("1 (2);", Stopped::Nowhere),
        ("a = \"x\" (2);", Stopped::Nowhere),
        ("a = (f) (1) ;", Stopped::Nowhere),
        ("f (1;", Stopped::Syntax(4)),
        ("f (1,);", Stopped::Syntax(5)),
        ("f (,);", Stopped::Syntax(3)),
        ("f ().x = 1;", Stopped::Syntax(4)),
        ("a = b () + 1;", Stopped::Syntax(9)),
        ("return f (1);", Stopped::Syntax(9)),
        ("a = -f (1);", Stopped::Syntax(7)),
        ("a = 1 + f (1);", Stopped::Syntax(10)),
        ("f (g (1));", Stopped::Syntax(5)),
        ("f;", Stopped::Syntax(1)),
        ("g_print;", Stopped::Syntax(7)),
        ("a = g_print + 1;", Stopped::Syntax(12)),
        ("a = (g_print) (1);", Stopped::Syntax(5)),
        ("(f ());", Stopped::Syntax(3)),
        ("f (g_print);", Stopped::Syntax(3)),
    ] {
        assert_eq!(rt; stop_in_main(alloc, text)?, place, "{text}");
    }
    Ok(())
}

#[test]
fn statements(rt: HostRuntime) -> Result<(), Fail> {
    let alloc = rt.alloc();
    for (text, place) in [
        ("if (a) { } else { }", Stopped::Nowhere),
        ("if (a) goto L;", Stopped::Nowhere),
        ("if (a) { if (b) { } } else { goto M; }", Stopped::Nowhere),
        (
            "switch (a) { case 1: goto L; case -2: goto M; default: goto L; }",
            Stopped::Nowhere,
        ),
        ("switch (a) { default: goto L; }", Stopped::Nowhere),
        ("L: ;", Stopped::Nowhere),
        ("gint: ;", Stopped::Nowhere),
        ("g_print: ;", Stopped::Nowhere),
        ("goto L;", Stopped::Nowhere),
        ("goto gint;", Stopped::Nowhere),
        ("{ gint a; a = 1; }", Stopped::Nowhere),
        ("{ }", Stopped::Nowhere),
        ("{ { } }", Stopped::Nowhere),
        ("return;", Stopped::Nowhere),
        ("return 1;", Stopped::Nowhere),
        ("return (1);", Stopped::Nowhere),
        ("if (a) goto L; else { }", Stopped::Syntax(15)),
        ("if (a) b = 1;", Stopped::Syntax(7)),
        ("if (a) { } else if (b) { }", Stopped::Syntax(16)),
        ("if a { }", Stopped::Syntax(3)),
        ("if () { }", Stopped::Syntax(4)),
        ("switch (a) { }", Stopped::Syntax(13)),
        (
            "switch (a) { default: goto L; case 1: goto L; }",
            Stopped::Syntax(30),
        ),
        (
            "switch (a) { case A: goto L; default: goto L; }",
            Stopped::Syntax(18),
        ),
        (
            "switch (a) { case 1: case 2: goto L; default: goto L; }",
            Stopped::Syntax(21),
        ),
        ("switch (a) { case 1: goto L; }", Stopped::Syntax(29)),
        ("L: a = 1;", Stopped::Syntax(3)),
        ("L:", Stopped::Syntax(3)),
        (";", Stopped::Syntax(0)),
        ("while (1) { }", Stopped::Syntax(0)),
        ("TRUE: ;", Stopped::Syntax(4)),
        ("case 1: goto L;", Stopped::Syntax(0)),
        ("else { }", Stopped::Syntax(0)),
        ("goto 1;", Stopped::Syntax(5)),
        ("\"a\" \"b\";", Stopped::Syntax(4)),
        ("return 1, 2;", Stopped::Syntax(8)),
        ("} }", Stopped::Syntax(2)),
    ] {
        assert_eq!(rt; stop_in_main(alloc, text)?, place, "{text}");
    }
    Ok(())
}

#[test]
fn what_is_no_token(rt: HostRuntime) -> Result<(), Fail> {
    let alloc = rt.alloc();
    for (text, place) in [
        ("a = 1.5;", Stopped::Token(4)),
        ("a = 010;", Stopped::Token(4)),
        ("a = $;", Stopped::Token(4)),
        ("a = @;", Stopped::Token(4)),
        ("a = 'ab';", Stopped::Token(4)),
        ("a = \"x", Stopped::Token(4)),
        ("/* x", Stopped::Token(0)),
        ("a = 1LL;", Stopped::Token(4)),
        ("$ ( ( (", Stopped::Token(0)),
        ("a = 1; b $", Stopped::Token(9)),
    ] {
        assert_eq!(rt; stop_in_main(alloc, text)?, place, "{text}");
    }
    Ok(())
}

#[test]
fn included_files(rt: HostRuntime) -> Result<(), Fail> {
    let alloc = rt.alloc();
    for (text, place) in [
        ("#include <glib.h>\n", Stopped::Nowhere),
        ("#include <glib.h>", Stopped::Nowhere),
        ("#include <glib.h> // x\n", Stopped::Nowhere),
        ("# include /* c */ <gio/gio.h>\n", Stopped::Nowhere),
        (" #include <glib.h>", Stopped::Nowhere),
        ("/* c */#include <glib.h>", Stopped::Nowhere),
        ("#include \"a.h\"\n", Stopped::Nowhere),
        ("#include \"a_B9.h\"\ngint f (void);", Stopped::Nowhere),
        (
            "#include <glib-object.h>\n#include <string.h>\n#include <stdlib.h>\n",
            Stopped::Nowhere,
        ),
        ("#include <glib.h>\n\ngint f (void);", Stopped::Nowhere),
        (
            "gint f (void);\n#include <glib.h>\ngint f (void);",
            Stopped::Nowhere,
        ),
        ("#include <glib.h> gint f (void);", Stopped::Syntax(18)),
        (
            "#include <glib.h>\nFoo f (void); gint x;",
            Stopped::Syntax(38),
        ),
        ("#include <stdio.h>\n", Stopped::Syntax(9)),
        ("#define X\n", Stopped::Syntax(1)),
        ("#\ninclude <glib.h>", Stopped::Syntax(2)),
        ("#include\n<glib.h>", Stopped::Syntax(9)),
        ("#include \"_a.h\"", Stopped::Syntax(9)),
        ("#include \"a b.h\"", Stopped::Syntax(9)),
        ("#include \"a\"", Stopped::Syntax(9)),
        ("#include \".h\"", Stopped::Syntax(9)),
        ("#include \"1.h\"", Stopped::Syntax(9)),
        ("#include <glib .h>", Stopped::Syntax(9)),
        ("#include < glib.h>", Stopped::Syntax(9)),
        ("#include <glib.h", Stopped::Syntax(9)),
        ("#include <glib.h>>", Stopped::Syntax(9)),
        ("#include <glib.h>#include <glib.h>", Stopped::Syntax(17)),
        ("#include #include <glib.h>", Stopped::Syntax(9)),
        ("gint f (void); #include <glib.h>", Stopped::Syntax(15)),
        ("#include", Stopped::Syntax(8)),
        ("#", Stopped::Syntax(1)),
        ("#include <glib/*x*/.h>", Stopped::Syntax(9)),
        ("#include <\nglib.h>", Stopped::Syntax(9)),
        ("#include \"a.h\" \"b.h\"", Stopped::Syntax(15)),
    ] {
        assert_eq!(rt; stop(alloc, text.as_bytes()), place, "{text}");
    }
    Ok(())
}

#[test]
fn types_by_name(rt: HostRuntime) -> Result<(), Fail> {
    let alloc = rt.alloc();
    for (text, place) in [
        ("typedef struct _X X;", Stopped::Nowhere),
        ("struct _X { };", Stopped::Nowhere),
        ("struct _X { gint a; gchar *b; Foo c; };", Stopped::Nowhere),
        ("typedef enum { A = 1 } E;", Stopped::Nowhere),
        ("typedef enum { A = -1, B = 0x10 } E;", Stopped::Nowhere),
        ("typedef gint (*F) (void);", Stopped::Nowhere),
        ("typedef void (*F) (gint a, gchar *);", Stopped::Nowhere),
        ("typedef const gchar *(*F) (void);", Stopped::Nowhere),
        ("typedef Foo (*F) (Bar *);", Stopped::Nowhere),
        ("typedef struct __X _X;", Stopped::Nowhere),
        ("typedef struct _ X;", Stopped::Syntax(17)),
        ("typedef struct foo Foo;", Stopped::Syntax(15)),
        ("typedef struct _Foo Bar;", Stopped::Syntax(20)),
        ("struct X { };", Stopped::Syntax(7)),
        ("struct _X { void a; };", Stopped::Syntax(17)),
        ("struct _X { gint a; }", Stopped::Syntax(21)),
        ("struct _X { gint a }", Stopped::Syntax(19)),
        ("struct _X;", Stopped::Syntax(9)),
        ("typedef enum { } E;", Stopped::Syntax(15)),
        ("typedef enum { A } E;", Stopped::Syntax(17)),
        ("typedef enum { A = 1, } E;", Stopped::Syntax(22)),
        ("typedef enum { A = x } E;", Stopped::Syntax(19)),
        ("typedef enum { A = --1 } E;", Stopped::Syntax(19)),
        ("typedef enum E { A = 1 } E;", Stopped::Syntax(13)),
        ("typedef gint F (void);", Stopped::Syntax(13)),
        ("typedef gint (F) (void);", Stopped::Syntax(14)),
        ("typedef gint (*F) ();", Stopped::Syntax(19)),
        ("typedef gint F;", Stopped::Syntax(13)),
        ("typedef struct _X X", Stopped::Syntax(19)),
        ("typedef struct _X *X;", Stopped::Syntax(18)),
    ] {
        assert_eq!(rt; stop(alloc, text.as_bytes()), place, "{text}");
    }
    Ok(())
}

#[test]
fn functions(rt: HostRuntime) -> Result<(), Fail> {
    let alloc = rt.alloc();
    for (text, place) in [
        ("gint f (void);", Stopped::Nowhere),
        ("gint f (gint);", Stopped::Nowhere),
        ("gint f (gint a, Foo *b) { return 1; }", Stopped::Nowhere),
        ("static gint f (gint a);", Stopped::Nowhere),
        ("static void f (void) { }", Stopped::Nowhere),
        ("void f (const gchar *s) { }", Stopped::Nowhere),
        ("gint *f (void *p);", Stopped::Nowhere),
        ("Foo f (Bar a);", Stopped::Nowhere),
        ("const gint f (const void *p, void **q);", Stopped::Nowhere),
        ("gint f (void) ;", Stopped::Nowhere),
        ("gint f ();", Stopped::Syntax(8)),
        ("gint f (gint) { }", Stopped::Syntax(14)),
        ("gint f (gint a, gint) { }", Stopped::Syntax(22)),
        ("gint f (gint a, ...);", Stopped::Syntax(16)),
        ("void f (void a);", Stopped::Syntax(13)),
        ("void f (gint a, void);", Stopped::Syntax(20)),
        ("void f (const void);", Stopped::Syntax(18)),
        ("gint x;", Stopped::Syntax(6)),
        ("gint x = 1;", Stopped::Syntax(7)),
        ("gint f (gint (*g) (void));", Stopped::Syntax(13)),
        ("extern gint x;", Stopped::Syntax(0)),
        (";", Stopped::Syntax(0)),
        ("}", Stopped::Syntax(0)),
        ("gint f (void) { } ;", Stopped::Syntax(18)),
        ("gint f (void) gint g (void);", Stopped::Syntax(14)),
        ("gint f (gint a b);", Stopped::Syntax(15)),
        ("gint f (gint a,);", Stopped::Syntax(15)),
        ("static f (void);", Stopped::Syntax(9)),
        ("1", Stopped::Syntax(0)),
        ("f (void);", Stopped::Syntax(2)),
    ] {
        assert_eq!(rt; stop(alloc, text.as_bytes()), place, "{text}");
    }
    Ok(())
}

#[test]
fn main(rt: HostRuntime) -> Result<(), Fail> {
    let alloc = rt.alloc();
    for (text, place) in [
        ("int main (int argc, char **argv);", Stopped::Nowhere),
        (
            "gint main (gint n, gchar **v) { return 0; }",
            Stopped::Nowhere,
        ),
        ("int main (int, char **);", Stopped::Nowhere),
        (
            "const int main (const gint32 a, char const *const *b);",
            Stopped::Nowhere,
        ),
        (
            "typedef enum { A = 1 } E; E main (E a, char **b);",
            Stopped::Nowhere,
        ),
        ("static int main = 1;", Stopped::Nowhere),
        ("static gpointer main = NULL;", Stopped::Nowhere),
        ("void main (int a, char **b);", Stopped::Syntax(5)),
        ("static int main (int a, char **b);", Stopped::Syntax(16)),
        ("static void main (void);", Stopped::Syntax(12)),
        ("int main (void);", Stopped::Syntax(10)),
        ("int main (int a);", Stopped::Syntax(15)),
        ("int main (int a, char *b);", Stopped::Syntax(23)),
        ("int main (int a, char **b, int c);", Stopped::Syntax(25)),
        ("int main (int *a, char **b);", Stopped::Syntax(14)),
        ("int *main (int a, char **b);", Stopped::Syntax(5)),
        ("guint main (int a, char **b);", Stopped::Syntax(6)),
        ("int main (guint a, char **b);", Stopped::Syntax(10)),
        ("int main (int a, guchar **b);", Stopped::Syntax(17)),
        ("int main (int a, char ***b);", Stopped::Syntax(24)),
        (
            "int main (int a, char **) { return 0; }",
            Stopped::Syntax(26),
        ),
        ("int main = 1;", Stopped::Syntax(9)),
    ] {
        assert_eq!(rt; stop(alloc, text.as_bytes()), place, "{text}");
    }
    Ok(())
}

#[test]
fn static_variables(rt: HostRuntime) -> Result<(), Fail> {
    let alloc = rt.alloc();
    for (text, place) in [
        ("static gint a = 1;", Stopped::Nowhere),
        ("static gint a = b;", Stopped::Nowhere),
        ("static gint a = -1 + (gint) 2 ? 3 : 4;", Stopped::Nowhere),
        ("static gint *a = NULL;", Stopped::Nowhere),
        ("static const gint a = 1;", Stopped::Nowhere),
        ("static const const gint a = 1;", Stopped::Nowhere),
        ("static const gint *const a = NULL;", Stopped::Nowhere),
        ("static gint a = sizeof (gint) * 2;", Stopped::Nowhere),
        ("gint f (void); static Foo a = f;", Stopped::Nowhere),
        (
            "typedef enum { A = 1 } E; static E a = A;",
            Stopped::Nowhere,
        ),
        (
            "static const GInterfaceInfo i = { (GInterfaceInitFunc) f, NULL, NULL };",
            Stopped::Nowhere,
        ),
        ("static const GInterfaceInfo *i = NULL;", Stopped::Nowhere),
        ("static const GInterfaceInfo i = 1;", Stopped::Nowhere),
        ("static const GInterfaceInfo f (void);", Stopped::Nowhere),
        ("static gint a;", Stopped::Syntax(13)),
        ("static gint b = 1; static gint a = b;", Stopped::Syntax(35)),
        ("static gint a = *p;", Stopped::Syntax(16)),
        ("static gint a = &p;", Stopped::Syntax(16)),
        ("static gint a = p->x;", Stopped::Syntax(17)),
        ("static gint a = p[1];", Stopped::Syntax(17)),
        ("static gint a = \"x\"[1];", Stopped::Syntax(19)),
        ("static gint a = gint;", Stopped::Syntax(16)),
        ("static void a = 1;", Stopped::Syntax(14)),
        (
            "static const GInterfaceInfo const i = { };",
            Stopped::Syntax(38),
        ),
        (
            "static const GInterfaceInfo i = { (GInterfaceInitFunc) f, NULL, 0 };",
            Stopped::Syntax(64),
        ),
        (
            "static const GInterfaceInfo i = { (GObject) f, NULL, NULL };",
            Stopped::Syntax(35),
        ),
        ("static GInterfaceInfo i = { };", Stopped::Syntax(26)),
        (
            "static const const GInterfaceInfo i = { };",
            Stopped::Syntax(38),
        ),
        ("static typedef struct _X X;", Stopped::Syntax(7)),
        ("static struct _X { };", Stopped::Syntax(7)),
        ("static gint a = f (1);", Stopped::Syntax(18)),
        ("static const b = 1;", Stopped::Syntax(15)),
    ] {
        assert_eq!(rt; stop(alloc, text.as_bytes()), place, "{text}");
    }
    Ok(())
}

#[test]
fn names_in_scope(rt: HostRuntime) -> Result<(), Fail> {
    let alloc = rt.alloc();
    for (text, place) in [
        (
            "typedef struct _X X; gint f (X *p) { gint X; X = 1; return X; }",
            Stopped::Nowhere,
        ),
        (
            "gint f (void) { gint *gint; gint = NULL; return 1; }",
            Stopped::Nowhere,
        ),
        (
            "void f (void) { { gint gint; gint = 1; } { gint x; x = 1; } }",
            Stopped::Nowhere,
        ),
        (
            "void f (gint gint) { gint = 1; } void g (void) { gint x; x = 1; }",
            Stopped::Nowhere,
        ),
        ("void f (gint x) { } static gint a = x;", Stopped::Nowhere),
        ("void f (gint x); static gint a = x;", Stopped::Nowhere),
        (
            "static gint gint = 1; void f (void) { gint = 2; }",
            Stopped::Nowhere,
        ),
        (
            "void f (gint a) { a = (a) - 1; a = (gint) - 1; a = (gint) a; }",
            Stopped::Nowhere,
        ),
        (
            "typedef enum { A = 1 } E; void f (E a) { E e; e = A; a = (E) A; }",
            Stopped::Nowhere,
        ),
        (
            "typedef gint (*F) (void); void f (F a) { F b; b = a; }",
            Stopped::Nowhere,
        ),
        (
            "gint f (void) { return 1; } void g (void) { gint f; f = 1; } static gint a = f;",
            Stopped::Nowhere,
        ),
        ("void f (gint a) { a = (a) a; }", Stopped::Syntax(26)),
        (
            "void f (void) { gint gint; { gint x; } }",
            Stopped::Syntax(34),
        ),
        ("gint f (gint f) { return (f) f; }", Stopped::Syntax(29)),
        (
            "typedef enum { A = 1 } E; void f (void) { A = 1; }",
            Stopped::Syntax(44),
        ),
        (
            "typedef enum { A = 1 } E; void f (A a) { }",
            Stopped::Syntax(34),
        ),
        ("gint f (void); void g (f a);", Stopped::Syntax(23)),
        ("gint f (void) { f = 1; }", Stopped::Syntax(18)),
    ] {
        assert_eq!(rt; stop(alloc, text.as_bytes()), place, "{text}");
    }
    Ok(())
}
