// The bytes that a node stands on.

ghost use Rattle.std.specs.Prelude.{◌≡◌};
ghost use Rattle.vala_tree.specs.Spans.{expr_span, stmt_span};
ghost use Rattle.vala_tree.specs.declared.member.Member.{out-Member};

use crate::code::{Expr, Stmt};
use crate::member::Member;
use crate::names::{NameTree, TypeTree};
use vg_base::Span;

impl NameTree {
    pub fn span(&self) -> Span
        ensures { result ≡ self.now.span }
    {
        self.span
    }
}

impl TypeTree {
    pub fn span(&self) -> Span
        ensures { result ≡ self.now.span }
    {
        self.span
    }
}

impl Expr {
    #[tactic(auto, unfolding(crate::specs::Spans::expr_span))]
    pub fn span(&self) -> Span
        ensures { result ≡ expr_span self.now }
    {
        match self {
            Expr::Literal(_, span)
            | Expr::Name(_, span)
            | Expr::This(span)
            | Expr::Base(span)
            | Expr::Primary(_, span)
            | Expr::Postfix(_, span)
            | Expr::Operation(_, span)
            | Expr::Lambda(_, _, span) => *span,
        }
    }
}

impl Stmt {
    #[tactic(auto, unfolding(crate::specs::Spans::stmt_span))]
    pub fn span(&self) -> Span
        ensures { result ≡ stmt_span self.now }
    {
        match self {
            Stmt::Block(block) => block.span,
            Stmt::Empty(span)
            | Stmt::Local(_, span)
            | Stmt::Expression(_, span)
            | Stmt::Selection(_, span)
            | Stmt::Iteration(_, span)
            | Stmt::Jump(_, span)
            | Stmt::Try(_, span) => *span,
        }
    }
}

impl Member {
    pub fn span(&self) -> Span
        ensures { result ≡ (out-Member self.now).span }
    {
        self.span
    }
}
