// Which cause refuses a text, and where.

use crate::answers::{Answered, FRONT, accepts, answer_of, refuses};
use std::test::Fail;

const MAIN: &str = " int main (int argc, char **argv) { return 0; }";

const RETURN: &str = " return 0; }";

#[test]
fn undeclared_names(rt: HostRuntime) -> Result<(), Fail> {
    refuses(
        &rt,
        rt.alloc(),
        &[
            (3, "@a = 1;"),
            (3, "gint a; a = @b;"),
            (3, "gint a; a = @f (1);"),
            (3, "@f (1);"),
            (3, "@Foo *p;"),
            (3, "gpointer p; p = (@Foo *) NULL;"),
            (3, "gulong n; n = sizeof (@Foo);"),
            (3, "{ gint a; a = 1; } @a = 2;"),
            (3, "gint a; if (1) { gint b; b = 1; } a = @b;"),
            (3, "goto @L;"),
            (3, "if (1) goto @L;"),
            (3, "GError *e; e = NULL; e->@name = 1;"),
        ],
        FRONT,
        RETURN,
    )?;
    refuses(
        &rt,
        rt.alloc(),
        &[
            (3, "struct @_P { };"),
            (3, "@Foo f (void);"),
            (3, "gint f (@Foo a);"),
            (3, "static gint v = @v;"),
            (3, "static gint v = @f ();"),
            (
                3,
                "gint f (void) { return @g (); } gint g (void) { return 1; }",
            ),
            (
                3,
                "static const GInterfaceInfo v = { (GInterfaceInitFunc) @f, NULL, NULL };",
            ),
        ],
        "",
        MAIN,
    )
}

#[test]
fn misfits(rt: HostRuntime) -> Result<(), Fail> {
    refuses(
        &rt,
        rt.alloc(),
        &[
            (4, "gint i; i = @\"x\";"),
            (4, "gchar *s; s = @1;"),
            (4, "gint i; i = 1 + (@\"a\" * 2);"),
            (4, "gint i; gchar *s; s = NULL; i = @- s;"),
            (4, "gint i; i = @*1;"),
            (4, "gint i; i = 1; i = @i[0];"),
            (4, "gint i; i = 1; @i (1);"),
            (4, "GError *e; e = NULL; @e.message = NULL;"),
            (4, "gint i; i = 1; @i->x = 1;"),
            (4, "gint i; i = @\"a\" ? 1 : \"b\";"),
            (4, "g_print (@1);"),
            (4, "@g_print ();"),
            (4, "switch (@\"x\") { default: goto L; } L: ;"),
            (4, "return @\"x\";"),
            (4, "@return;"),
            (4, "gpointer p; p = @(gpointer) 1;"),
        ],
        FRONT,
        RETURN,
    )?;
    refuses(
        &rt,
        rt.alloc(),
        &[
            (4, "void f (void) { @return 1; }"),
            (4, "typedef struct _P P; P @f (void) { return; }"),
            (4, "typedef struct _P P; gint f (P @p) { return 1; }"),
            (4, "typedef struct _P P; struct _P { P @p; };"),
            (4, "static gint v = @\"x\";"),
            (4, "static gint v = @1 / 0;"),
            (
                4,
                "gint f (gint a); gint g (void) { return 1; } gint h (void) { gint i; i = @f (); return i; }",
            ),
        ],
        "",
        MAIN,
    )
}

#[test]
fn names_again(rt: HostRuntime) -> Result<(), Fail> {
    refuses(
        &rt,
        rt.alloc(),
        &[
            (5, "gint a; gint @a;"),
            (5, "gint @argc;"),
            (5, "L: ; @L: ;"),
            (5, "{ L: ; } @L: ;"),
        ],
        FRONT,
        RETURN,
    )?;
    refuses(
        &rt,
        rt.alloc(),
        &[
            (5, "typedef struct _P P; typedef struct _P @P;"),
            (5, "typedef struct _P P; struct _P { }; struct @_P { };"),
            (5, "typedef struct _P P; struct _P { gint x; gchar *@x; };"),
            (5, "typedef enum { A = 1, @A = 2 } E;"),
            (5, "typedef enum { A = 1 } @A;"),
            (5, "gint f (gint a, gint @a);"),
            (5, "gint f (gint a) { gint @a; return 1; }"),
            (5, "gint f (void); gint @f (gint a);"),
            (
                5,
                "gint f (void) { return 1; } gint @f (void) { return 2; }",
            ),
            (5, "static gint a = 1; static gint @a = 2;"),
            (5, "typedef gint (*@gint) (void);"),
        ],
        "",
        MAIN,
    )
}

#[test]
fn what_is_allowed(rt: HostRuntime) -> Result<(), Fail> {
    accepts(
        &rt,
        rt.alloc(),
        &[
            "{ gint argc; argc = 1; }",
            "gint a; a = 1; { gint a; a = 2; }",
            "gint L; L = 1; L: ; goto L;",
        ],
        FRONT,
        RETURN,
    )?;
    accepts(
        &rt,
        rt.alloc(),
        &[
            "gint f (gint); gint f (gint a); gint f (gint b) { return b; } gint f (gint);",
            "typedef struct _P P; P *f (P *p) { return p; }",
        ],
        "",
        MAIN,
    )
}

// The first byte of a name that is declared nowhere.
#[test]
fn an_undeclared_function(rt: HostRuntime) -> Result<(), Fail> {
    let text = b"int main (int argc, char **argv) { foo (); return 0; }".as_slice();
    assert_eq!(rt; answer_of(rt.alloc(), text, 1000), Answered::Refused(3, 35));
    Ok(())
}

// Too large comes before all else, and a text of the limit's own length is none.
#[test]
fn limits(rt: HostRuntime) -> Result<(), Fail> {
    let alloc = rt.alloc();
    let text = b"int main (int argc, char **argv) { return 0; }".as_slice();
    let length = text.len() as u64;
    assert_eq!(rt; answer_of(alloc, text, length), Answered::Accepted);
    assert_eq!(rt;
        answer_of(alloc, text, length - 1),
        Answered::Refused(6, length - 1)
    );
    assert_eq!(rt;
        answer_of(alloc, b"$$".as_slice(), 1),
        Answered::Refused(6, 1)
    );
    assert_eq!(rt;
        answer_of(alloc, b"$$".as_slice(), 2),
        Answered::Refused(1, 0)
    );
    assert_eq!(rt;
        answer_of(alloc, b"int main ()".as_slice(), 10),
        Answered::Refused(6, 10)
    );
    assert_eq!(rt;
        answer_of(alloc, b"$".as_slice(), 0),
        Answered::Refused(6, 0)
    );
    assert_eq!(rt;
        answer_of(alloc, b"".as_slice(), 0),
        Answered::Refused(2, 0)
    );
    Ok(())
}
