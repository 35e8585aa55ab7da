// What a text answers, as the tables write it. A `@` in a text marks the place of its refusal, and is no part of it.

use c_text_reader::read;
use c_tree::Cause;
use std::alloc::Global;
use std::process::Abort;
use std::test::Fail;
use vg_base::Fault;

#[derive(Clone, Copy, Debug, PartialEq, Eq)]
pub enum Answered {
    Accepted,
    /// By the cause with that number, at that place.
    Refused(u8, u64),
    Memory,
}

/// What stands in front of the statements of a case.
pub const FRONT: &str = "int main (int argc, char **argv) { ";

fn number(cause: Cause) -> u8 {
    match cause {
        Cause::Token => 1,
        Cause::Syntax => 2,
        Cause::Undeclared => 3,
        Cause::Misfit => 4,
        Cause::Twice => 5,
        Cause::Large => 6,
    }
}

/// What a text answers.
pub fn answer_of(alloc: Global, text: &[u8], limit: u64) -> Answered {
    match read(alloc, text, limit) {
        Ok(_unit) => Answered::Accepted,
        Err(Fault::Refused(refusal)) => Answered::Refused(number(refusal.cause), refusal.at),
        Err(Fault::Memory) => Answered::Memory,
    }
}

/// A text without its mark, and where that stands.
pub fn unmarked(alloc: Global, marked: &str) -> Result<(Vec<u8>, u64), Fail> {
    let mut text = Vec::new(alloc);
    let mut place = 0;
    for (index, byte) in marked.as_bytes().iter().enumerate() {
        if *byte == b'@' {
            place = index as u64;
        } else {
            text.push(*byte)?;
        }
    }
    Ok((text, place))
}

/// Each text is that of a unit.
pub fn accepts(
    rt: &impl Abort,
    alloc: Global,
    texts: &[&str],
    front: &str,
    behind: &str,
) -> Result<(), Fail> {
    for case in texts {
        let text = format!(in alloc; "{front}{case}{behind}")?;
        let found = answer_of(alloc, text.as_bytes(), 100_000);
        assert_eq!(rt; found, Answered::Accepted, "{case}");
    }
    Ok(())
}

/// Each text is refused by its cause at its mark.
pub fn refuses(
    rt: &impl Abort,
    alloc: Global,
    cases: &[(u8, &str)],
    front: &str,
    behind: &str,
) -> Result<(), Fail> {
    for (cause, case) in cases {
        let marked = format!(in alloc; "{front}{case}{behind}")?;
        let (text, place) = unmarked(alloc, marked.as_str())?;
        let found = answer_of(alloc, text.as_slice(), 100_000);
        assert_eq!(rt; found, Answered::Refused(*cause, place), "{case}");
    }
    Ok(())
}
