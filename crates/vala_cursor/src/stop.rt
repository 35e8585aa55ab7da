// Why a part could not be read.

ghost use Rattle.std.specs.Prelude.{◌≡◌};
ghost use Rattle.vala_cursor.specs.declared.stop.Stop.TheVariants.{Memory};

use static_rules::Rule;
use std::alloc::{AllocError, AllocFailed};
use vg_base::Span;

/// What is wrong with the next token.
#[derive(Clone, Copy)]
pub enum Flaw {
    /// No text goes on with it.
    Syntax,
    /// It would begin what the profile leaves out.
    LeftOut,
    /// With it it is known that this earlier word breaks this rule.
    Earlier(Rule, Span),
    /// Its level is too high.
    Nesting,
    /// It begins one item too many.
    Number,
}

#[derive(Drop)]
pub enum Stop {
    Memory,
    Flawed(Flaw),
}

impl From<AllocError> for Stop {
    ghost from_gives = { λ _ e. e ≡ Memory };

    fn from(_e: AllocError) -> Stop {
        Stop::Memory
    }
}

impl<T: Drop> From<AllocFailed<T>> for Stop {
    ghost from_gives = { λ _ e. e ≡ Memory };

    fn from(_e: AllocFailed<T>) -> Stop {
        Stop::Memory
    }
}
