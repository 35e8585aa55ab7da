// The refusal that a fault is.

ghost use Rattle.std.specs.Prelude.{◌≡◌};
ghost use Rattle.vala_lexer.specs.Tokens.{shown};
ghost use Rattle.vala_grammar.specs.Answer.{rule_of};
ghost use Rattle.vala_cursor.specs.Gets.{fault_of, seen};
ghost use Rattle.vala_cursor.specs.Parsed.{refused, refused_by, refused_next};

use crate::cursor::same_sort;
use crate::stop::{Flaw, Stop};
use static_rules::{Refusal, Rule};
use vala_grammar::{Sort, sort_of};
use vala_lexer::Token;
use vg_base::{Fault, Span};

/// The rule that the token breaks.
fn rule_of(flaw: Flaw, token: Token<'_>) -> Rule
    ensures { result ≡ rule_of (fault_of flaw) (seen token.entry) }
{
    match flaw {
        Flaw::Syntax => {
            if same_sort(sort_of(token.kind), Sort::LeftOut) {
                Rule::U1
            } else {
                Rule::S1
            }
        }
        Flaw::LeftOut => Rule::U1,
        Flaw::Earlier(rule, _) => rule,
        Flaw::Nesting => Rule::S2,
        Flaw::Number => Rule::M5,
    }
}

fn refusal_at_next(answer: Result<Option<Token<'_>>, Refusal>, flaw: Flaw, end: Span) -> Refusal
    ensures { result ≡ refused_next flaw end (shown answer.entry) }
{
    match answer {
        Ok(Some(token)) => Refusal {
            rule: rule_of(flaw, token),
            phase: 1,
            span: token.span,
        },
        Ok(None) => Refusal {
            rule: Rule::S1,
            phase: 1,
            span: end,
        },
        Err(refusal) => refusal,
    }
}

fn refusal_of(answer: Result<Option<Token<'_>>, Refusal>, flaw: Flaw, end: Span) -> Refusal
    ensures { result ≡ refused_by flaw end (shown answer.entry) }
{
    match flaw {
        Flaw::Earlier(rule, span) => Refusal {
            rule,
            phase: 1,
            span,
        },
        Flaw::Syntax | Flaw::LeftOut | Flaw::Nesting | Flaw::Number => {
            refusal_at_next(answer, flaw, end)
        }
    }
}

/// What is wrong in front of an answer of the lexer: an earlier word, the next token, or what stops the tokens there. The file ends at `end`.
pub fn fault_at(answer: Result<Option<Token<'_>>, Refusal>, stop: Stop, end: Span) -> Fault<Refusal>
    ensures { result ≡ refused stop end (shown answer.entry) }
{
    match stop {
        Stop::Memory => Fault::Memory,
        Stop::Flawed(flaw) => Fault::Refused(refusal_of(answer, flaw, end)),
    }
}
