// Reads all files by the grammar.

ghost use Rattle.std.specs.Prelude.{◌≡◌, map};
ghost use Rattle.vala_compile.specs.Correct.{Checks};
ghost use Rattle.vala_compile.specs.Program.{behind_most};

use static_rules::{Refusal, Rule};
use std::alloc::Global;
use vala_parse::parse_file;
use vg_base::{Fault, Span};

// The most files that are read.
const MOST_FILES: usize = 64;

// The most bytes that a file may have.
const MOST_BYTES: usize = 1_048_576;

// The refusal of a file behind the last that is read.
fn over_the_limit(bytes: &[u8]) -> Refusal
    ensures { result ≡ behind_most bytes.now }
{
    let rule = if bytes.len() > MOST_BYTES {
        Rule::M1
    } else {
        Rule::M2
    };
    Refusal {
        rule,
        phase: 1,
        span: Span {
            file: MOST_FILES as u32,
            start: 0,
            end: 0,
        },
    }
}

/// Ok where each file is one of the grammar and they are 64 at most, else the first rule that is broken.
/// `strict_null` has no effect yet: the rules on null come with nullable types.
pub fn check(alloc: Global, files: &[Vec<u8>], strict_null: bool) -> Result<(), Fault<Refusal>>
    ensures { Checks (map (λ f. f.items) files.now) strict_null result }
{
    for (number, bytes) in files.iter().enumerate() {
        if number >= MOST_FILES {
            return Err(Fault::Refused(over_the_limit(bytes)));
        }
        parse_file(alloc, bytes, number as u32)?;
    }
    Ok(())
}
