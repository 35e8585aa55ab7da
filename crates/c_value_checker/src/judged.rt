// What is kept of a value that was checked.

ghost use Rattle.std.specs.Prelude.{◌≡◌};
ghost use Rattle.c_value_checker.specs.Judgements.{is_null_told, operand_told};

use c_lexer::Constant;
use c_tree::{Kind, Operand, Span};

/// A literal that an argument may have to be.
#[derive(Clone, Copy)]
pub enum Literal {
    Word(Constant),
    /// A number, and whether `-` stands before it.
    Figure(bool, u64),
}

/// Which literal a value is, if it is one, and its kind, if it has one.
#[derive(Clone, Copy)]
pub struct Judged {
    pub literal: Option<Literal>,
    pub kind: Option<Kind>,
}

/// A choice: where its condition stands, the kind of that, and the value behind it.
#[derive(Clone, Copy)]
pub struct JudgedChoice {
    pub span: Span,
    pub test: Option<Kind>,
    pub yes: Option<Operand>,
}

impl Judged {
    /// Whether it is the word `NULL`.
    pub fn is_null(&self) -> bool
        ensures { result ≡ is_null_told self.now.literal }
    {
        matches!(self.literal, Some(Literal::Word(Constant::Null)))
    }

    /// As an operand.
    pub fn operand(&self) -> Option<Operand>
        ensures { result ≡ operand_told self.now }
    {
        match self.kind {
            None => None,
            Some(kind) => Some(Operand {
                kind,
                null: self.is_null(),
            }),
        }
    }
}
