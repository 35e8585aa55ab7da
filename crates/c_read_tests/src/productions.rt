// For each production a text that is accepted and one that is refused.

use crate::answers::{FRONT, accepts, refuses};
use std::test::Fail;

const MAIN: &str = " int main (int argc, char **argv) { return 0; }";

const RETURN: &str = " return 0; }";

#[test]
fn items(rt: HostRuntime) -> Result<(), Fail> {
    accepts(
        &rt,
        rt.alloc(),
        &[
            "#include <glib.h>\n",
            "#include <glib-object.h>\n#include <gio/gio.h>\n",
            "# include <string.h> // behind it\n#include <stdlib.h> /* and here */\n",
            "#include \"own_1.h\"\n",
            "typedef struct _P P;",
            "typedef struct _P P; struct _P { };",
            "typedef struct _P P; struct _P { gint x; P *next; };",
            "typedef enum { A = 1, B = -2 } E;",
            "typedef gint (*F) (void);",
            "typedef void (*F) (gint, gchar *s);",
            "gint f (void);",
            "static gint f (gint a, gint *b);",
            "void f (void) { return; }",
            "static gint v = 1 + 2;",
            "static gchar *v = \"a\";",
            "void init (gpointer p) { } static const GInterfaceInfo v = { (GInterfaceInitFunc) init, NULL, NULL };",
        ],
        "",
        MAIN,
    )
}

#[test]
fn items_that_are_none(rt: HostRuntime) -> Result<(), Fail> {
    refuses(
        &rt,
        rt.alloc(),
        &[
            (2, "#@define X\n"),
            (2, "#include @<stdio.h>\n"),
            (2, "#include @<glib .h>\n"),
            (2, "#include @\"own-1.h\"\n"),
            (2, "#include <glib.h> @gint f (void);\n"),
            (2, "#\n@include <glib.h>\n"),
            (2, "gint f (void); @#include <glib.h>\n"),
            (2, "typedef struct _foo @Bar;"),
            (2, "typedef struct @P P;"),
            (2, "typedef struct _P P; struct _P { gint x@, y; };"),
            (2, "typedef enum { @} E;"),
            (2, "typedef enum { A @} E;"),
            (2, "typedef enum { A = @B } E;"),
            (2, "typedef enum { A = 1, @} E;"),
            (2, "typedef gint @F (void);"),
            (2, "gint f (@);"),
            (2, "gint f (gint a) @gint b;"),
            (2, "gint f (gint) @{ return 1; }"),
            (2, "gint x@;"),
            (2, "static gint v@;"),
            (2, "static gint v = 1@, w = 2;"),
            (
                2,
                "static const GInterfaceInfo v = { (@Init) f, NULL, NULL };",
            ),
            (2, "struct@;"),
        ],
        "",
        MAIN,
    )
}

#[test]
fn mains(rt: HostRuntime) -> Result<(), Fail> {
    refuses(
        &rt,
        rt.alloc(),
        &[
            (2, "int main (@void) { return 0; }"),
            (2, "static int main @(int argc, char **argv) { return 0; }"),
            (2, "int main (int argc, char *@argv) { return 0; }"),
            (2, "int main (int argc, char **argv);@"),
            (2, "gint f (void) { return 1; } // the end@"),
            (2, "@"),
            (2, "  @"),
            (3, "gint f (void) { return @zz; }"),
        ],
        "",
        "",
    )
}

#[test]
fn declarations_and_statements(rt: HostRuntime) -> Result<(), Fail> {
    accepts(
        &rt,
        rt.alloc(),
        &[
            "gint a; const gchar *const b; void *c; a = 1;",
            "gint a; a = 1; { gchar *a; a = \"x\"; } { }",
            "gint a; a = 0; if (a) { a = 1; }",
            "gint a; a = 0; if (a) { a = 1; } else { a = 2; }",
            "if (1) goto L; L: ;",
            "goto L; L: ;",
            "switch (1) { case 1: goto L; case -2: goto L; default: goto L; } L: ;",
            "gint *p; p = NULL; *p = 1; p[1] = 2;",
            "g_print (\"a\"); g_print (\"%d\", 1);",
        ],
        FRONT,
        RETURN,
    )
}

#[test]
fn statements_that_are_none(rt: HostRuntime) -> Result<(), Fail> {
    refuses(
        &rt,
        rt.alloc(),
        &[
            (2, "void @x;"),
            (2, "gint a @= 1;"),
            (2, "gint a@, b;"),
            (2, "L: ; gint @b;"),
            (2, "if @1 { }"),
            (2, "if (1) @return 0;"),
            (2, "if (1) goto L; @else { } L: ;"),
            (2, "goto @1;"),
            (2, "switch (1) { @}"),
            (2, "switch (1) { case 1: @return 0; }"),
            (2, "switch (1) { case @A: goto L; }"),
            (2, "switch (1) { default: goto L; @case 1: goto L; } L: ;"),
            (2, "@for (;;) { }"),
            (2, "@while (1) { }"),
            (2, "1 @= 2;"),
            (2, "x@;"),
            (2, "L: @}"),
            (2, "gint a; (a + 1) @= 1;"),
            (2, "g_print @= 1;"),
            (2, "@#include <glib.h>\n"),
        ],
        FRONT,
        RETURN,
    )
}

#[test]
fn values(rt: HostRuntime) -> Result<(), Fail> {
    accepts(
        &rt,
        rt.alloc(),
        &[
            "gint a; a = 1 ? 2 : 3 ? 4 : 5;",
            "gint a; a = 1 || 2 && 3 | 4 ^ 5 & 6 == 7 < 8 << 9 + 10 * 11;",
            "gint a; a = - - 1 + ~ 2 - ! 3;",
            "gint a; gint b; a = 1; b = a- -a;",
            "gint a; a = (gint) (guchar) 'x';",
            "gint *p; gint a; a = 1; p = &a; a = *p;",
            "gulong n; n = sizeof (gint) + sizeof (gint *);",
            "glong n; n = G_STRUCT_OFFSET (GError, message);",
            "gchar *s; s = \"a\\n\\000\"; s[1] = 'b';",
            "gboolean b; b = TRUE; b = FALSE;",
        ],
        FRONT,
        RETURN,
    )
}

#[test]
fn values_that_are_none(rt: HostRuntime) -> Result<(), Fail> {
    refuses(
        &rt,
        rt.alloc(),
        &[
            (2, "gint a; a = @;"),
            (2, "gint a; a = 1 @2;"),
            (2, "gint a; a = 1 ? 2@;"),
            (2, "gint a; a = (1@;"),
            (2, "gint a; a = @gint;"),
            (2, "gint a; a = a @--a;"),
            (2, "gint a; a = a@++;"),
            (2, "gint a; a = (void@) 1;"),
            (2, "gint a; a = sizeof @a;"),
            (2, "gint a; a = sizeof (void@);"),
            (2, "g_print (\"a\" @\"b\");"),
            (2, "gint a; a = NULL @NULL;"),
            (2, "gint a; gint b; a = b @= 1;"),
            (2, "gint a; a = G_STRUCT_OFFSET (GError@);"),
            (2, "gint f; return f @(1);"),
        ],
        FRONT,
        RETURN,
    )
}
