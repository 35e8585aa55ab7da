// The parser of files, over their bytes.

ghost use Rattle.std.specs.Prelude.{◌≡◌, ◌≤◌, suc, length, if◌then◌else◌};
ghost use Rattle.vala_lexer.specs.Tokens.{left};
ghost use Rattle.vala_cursor.specs.Rest.{tokens_of};
ghost use Rattle.vala_file_grammar.specs.FileAnswer.{AnswersFile, most_bytes, too_large};
ghost use Rattle.vala_parse.specs.Files.{ahead, is_end};

use crate::files::file as read_file;
use static_rules::{Refusal, Rule};
use std::alloc::Global;
use vala_cursor::{Cursor, Flaw, Stop};
use vala_lexer::Lexer;
use vala_tree::FileTree;
use vg_base::{Fault, Span};

/// The most bytes that a file may have.
const MOST_BYTES: usize = 1_048_576;

/// Takes a token, where one is left.
#[tactic(auto, using(crate::proofs::Counts::taken_laws))]
fn takes(lexer: &mut Lexer<'_>) -> bool
    ensures { length (tokens_of (left lexer.old)) ≡ (if result then suc (length (tokens_of (left lexer.new))) else 0) }
{
    matches!(lexer.next(), Ok(Some(_)))
}

/// How many tokens are left.
#[tactic(auto, using(crate::proofs::Counts::few_tokens))]
fn count(lexer: Lexer<'_>) -> u64
    ensures { result ≡ length (tokens_of (left lexer.entry)) }
{
    let mut lexer = lexer;
    let mut tokens = 0;
    'tokens: while takes(&mut lexer) {
        tokens += 1;
    }
    tokens
}

/// Whether no token is left, and nothing that is broken.
fn is_at_end(cursor: &Cursor<'_>) -> bool
    ensures { result ≡ is_end (ahead cursor.now) }
{
    matches!(cursor.lexer().peek(), Ok(None))
}

/// The same of a file that is not too large.
fn parse_small(alloc: Global, bytes: &[u8], file: u32) -> Result<FileTree, Fault<Refusal>>
    requires small { length bytes.now ≤ most_bytes }
    ensures { AnswersFile bytes.now file result }
{
    let lexer = Lexer::new(bytes, file);
    let end = lexer.end();
    let mut cursor = Cursor::new(lexer);
    let text = match read_file(alloc, &mut cursor) {
        Ok(text) => text,
        Err(stop) => return Err(cursor.fault(stop, end)),
    };
    if is_at_end(&cursor) {
        return Ok(FileTree {
            usings: text.usings,
            members: text.members,
            tokens: count(lexer),
        });
    }
    Err(cursor.fault(Stop::Flawed(Flaw::Syntax), end))
}

fn too_large(file: u32) -> Refusal
    ensures { result ≡ too_large file }
{
    Refusal {
        rule: Rule::M1,
        phase: 1,
        span: Span {
            file,
            start: 0,
            end: 0,
        },
    }
}

/// The tree of a file with the number `file`, or its first fault: what no file goes on with, or what is broken in front of that. A file over
/// 1,048,576 bytes is refused.
#[tactic(auto, using(crate::proofs::Answered::answers_many))]
pub fn parse_file(alloc: Global, bytes: &[u8], file: u32) -> Result<FileTree, Fault<Refusal>>
    ensures { AnswersFile bytes.now file result }
{
    if bytes.len() > MOST_BYTES {
        return Err(Fault::Refused(too_large(file)));
    }
    parse_small(alloc, bytes, file)
}
