// What is read, printed and read again.

use c_printer::print;
use c_text_reader::read;
use std::test::Fail;

#[test]
fn printed_texts_are_read(rt: HostRuntime) -> Result<(), Fail> {
    let alloc = rt.alloc();
    for text in [
        "#include <glib.h>\n#include \"own.h\"\nint main (int argc, char **argv) { g_print (\"%d\\n\", 1); return 0; }",
        "typedef struct _P P; struct _P { gint x; P *next; }; gint f (P *p) { return p->next->x; } int main (int argc, char **argv) { P p; gint i; p.x = 1; i = f (&p); return 0; }",
        "typedef enum { A = -1, B = 2 } E; static E v = B; int main (int argc, char **argv) { v = A; return 0; }",
        "int main (int argc, char **argv) { gint a; a = (gint) 5U << 2 | ~1 & - - 3; a = a ? 1 : a > 2 ? 3 : 4; return 0; }",
        "int main (int argc, char **argv) { gint a; a = 1; L: ; if (a > 0) { a = a - 1; } else { goto K; } if (a) goto L; K: ; return 0; }",
        "typedef gint (*F) (void); gint h (void) { return 1; } int main (int argc, char **argv) { F f; f = h; f (); return 0; }",
        "int main (int argc, char **argv) { switch (1) { case -1: goto A; default: goto A; } A: ; return 0; }",
    ] {
        let Ok(unit) = read(alloc, text.as_bytes(), 1000) else {
            assert!(rt; false, "not read: {text}");
            return Ok(());
        };
        let first = print(alloc, &unit)?;
        let Ok(again) = read(alloc, first.as_slice(), 10_000) else {
            assert!(rt; false, "not read again: {text}");
            return Ok(());
        };
        let second = print(alloc, &again)?;
        assert!(rt; first.as_slice() == second.as_slice(), "{text}");
    }
    Ok(())
}
