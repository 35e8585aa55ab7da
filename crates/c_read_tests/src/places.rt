// Which refusal is first, where a text stops and where two would do.

use crate::answers::{Answered, FRONT, answer_of, refuses};
use std::test::Fail;

const RETURN: &str = " return 0; }";

#[test]
fn bad_tokens(rt: HostRuntime) -> Result<(), Fail> {
    refuses(
        &rt,
        rt.alloc(),
        &[
            (1, "@$"),
            (1, "@/* open"),
            (1, "@\"open"),
            (1, " // a comment\n @`"),
            (1, "gint f (void); @\\"),
            (1, "static gint v = @010;"),
            (1, "static gint v = @1l;"),
            (1, "static gint v = @12ab;"),
            (1, "static gchar *v = @\"\\400\";"),
        ],
        "",
        "",
    )
}

// What is known in front of the place where a text stops counts, and nothing else does.
#[test]
fn texts_that_stop(rt: HostRuntime) -> Result<(), Fail> {
    refuses(
        &rt,
        rt.alloc(),
        &[
            (1, "x @$"),
            (3, "@zz = $"),
            (3, "@zz = 1 $"),
            (3, "gint a; a = @zz $"),
            (1, "gint a; a = 1; @$ zz = 1;"),
            (1, "gint b; b = \"x\" @$"),
            (4, "gint b; b = @\"x\" ; $"),
            (4, "gint b; b = 1 + (@\"a\" * 2) $"),
            (1, "goto L; @$"),
            (1, "L: ; L @$"),
            (5, "L: ; @L: $"),
            (1, "gint a; gint @$"),
            (5, "gint a; gint @a $"),
            (3, "@Foo x $"),
            (2, "gchar *s; s = 1@"),
            (4, "gchar *s; s = @1;"),
            (2, "gint f; return f @(1);"),
            (1, "return 1 @$"),
            (1, "g_print (1 @$"),
            (4, "g_print (@1, $"),
        ],
        FRONT,
        "",
    )
}

#[test]
fn the_first_by_place(rt: HostRuntime) -> Result<(), Fail> {
    refuses(
        &rt,
        rt.alloc(),
        &[
            (4, "gint i; i = @\"x\"; zz = 1;"),
            (3, "@zz = 1; L: ; L: ;"),
            (4, "gint i; i = @1 - \"x\" + zz;"),
            (2, "goto L; gint @gint;"),
        ],
        FRONT,
        RETURN,
    )
}

// At one place the earlier cause counts.
#[test]
fn ties(rt: HostRuntime) -> Result<(), Fail> {
    refuses(
        &rt,
        rt.alloc(),
        &[(
            4,
            "typedef struct _P P; int main (int argc, char **argv) { gint a; P @a; return 0; }",
        )],
        "",
        "",
    )
}

// The 65th bracket that is open is where a text stops.
#[test]
fn brackets(rt: HostRuntime) -> Result<(), Fail> {
    let alloc = rt.alloc();
    for (open, expected) in [(63, None), (64, Some(63))] {
        let front = format!(in alloc; "{FRONT}gint a; a = ")?;
        let mut text = Vec::from_slice(alloc, front.as_bytes())?;
        for _ in 0..open {
            text.push(b'(')?;
        }
        text.push(b'1')?;
        for _ in 0..open {
            text.push(b')')?;
        }
        text.extend_from_slice(b"; return 0; }")?;
        let found = answer_of(alloc, text.as_slice(), 1000);
        match expected {
            None => assert_eq!(rt; found, Answered::Accepted),
            Some(behind) => {
                let place = (front.len() as u64).saturating_add(behind);
                assert_eq!(rt; found, Answered::Refused(2, place));
            }
        }
    }
    Ok(())
}
