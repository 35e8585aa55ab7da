// A whole text.

ghost use Rattle.std.specs.Prelude.{◌≡◌, ◌<◌, ◌^◌, IfOk, length};
ghost use Rattle.c_lexer.specs.Tokens.{all_of};
ghost use Rattle.c_tree.specs.Words.{words};
ghost use Rattle.c_parser.specs.Parsing as parsing;
ghost use Rattle.c_parser.specs.Parsing.{Parses, StopIs, stop_fault};
ghost use Rattle.c_cursor.specs.Rest.{tokens_of};
ghost use Rattle.c_cursor.specs.State.{bad, rest};

use crate::items::items;
use c_cursor::{Cursor, NoMemory, Parser};
use c_lexer::Lexer;
use c_tree::{Cause, Fault, Unit};
use std::alloc::Global;

/// Where a text stops being one of the dialect.
#[derive(Clone, Copy)]
pub struct Stop {
    /// What is no token, or the token or the end with which no text goes on.
    pub fault: Fault,
    /// Where the last token in front of it begins.
    pub last: u32,
}

/// The tree of a text, and where it stops. Behind that place the tree is made up.
#[derive(Drop)]
pub struct Parsed {
    pub unit: Unit,
    pub stop: Option<Stop>,
}

fn fault(at: u32, cause: Cause) -> Fault
    ensures { result ≡ record { place = at; cause = cause; since = at } }
{
    Fault {
        place: at,
        cause,
        since: at,
    }
}

// The fault where a text stops. Where all is read and the reader goes on, there is none.
fn fault_ahead(parser: &Parser<'_>) -> Option<Fault>
    ensures { result ≡ stop_fault parser.now.end parser.now.is_stopped (rest parser.now.cursor) (bad parser.now.cursor) }
{
    match parser.cursor.ahead() {
        Ok(Some(token)) => Some(fault(token.start, Cause::Syntax)),
        Ok(None) => {
            if parser.is_stopped {
                Some(fault(parser.end, Cause::Syntax))
            } else {
                None
            }
        }
        Err(bad) => Some(fault(bad.at, Cause::Token)),
    }
}

// Where the last token begins that stands in front of a place.
#[tactic(auto, using(crate::proofs::UnitLaws::last_laws))]
fn last_before(bytes: &[u8], place: u32) -> u32
    requires { length bytes.now < 2 ^ 32 }
    ensures { result ≡ parsing.last_before 0 place (words (tokens_of (all_of bytes.now))) }
{
    let mut cursor = Cursor::new(Lexer::new(bytes));
    let mut last = 0;
    'tokens: while let Some(token) = cursor.take() {
        if token.start >= place {
            return last;
        }
        last = token.start;
    }
    last
}

// Where a text stops that was read so far.
fn stop_of(parser: &Parser<'_>, bytes: &[u8]) -> Option<Stop>
    requires { length bytes.now < 2 ^ 32 }
    ensures { StopIs (words (tokens_of (all_of bytes.now))) result (stop_fault parser.now.end parser.now.is_stopped (rest parser.now.cursor) (bad parser.now.cursor)) }
{
    match fault_ahead(parser) {
        Some(fault) => Some(Stop {
            fault,
            last: last_before(bytes, fault.place),
        }),
        None => None,
    }
}

/// Reads a text. One of 2^32 - 1 bytes or more is want of memory.
#[tactic(auto, using(crate::proofs::UnitLaws::parsed_by))]
pub fn parse(alloc: Global, bytes: &[u8]) -> Result<Parsed, NoMemory>
    ensures { IfOk result (λ p. Parses bytes.now p.unit.items p.stop) }
{
    if bytes.len() >= u32::MAX as usize {
        return Err(NoMemory);
    }
    let mut parser = Parser::new(alloc, bytes)?;
    let items = items(&mut parser, 0)?;
    let stop = stop_of(&parser, bytes);
    Ok(Parsed {
        unit: Unit { items },
        stop,
    })
}
