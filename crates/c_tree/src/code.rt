// Values and statements.

use crate::names::{CType, Name, Number, SignedNumber, Span};
use crate::operators::{BinaryOperator, PrefixOperator};
use c_lexer::Constant;
use sqlite_items::{Boxed, Items};

/// A value, and where it stands with the brackets around it. The brackets themselves are not kept.
#[cycle(code)]
pub struct Expr {
    pub shape: Shape,
    pub span: Span,
}

impl Drop for Expr {
    #[cycle(dropped)]
    fn drop(self) {
        let Expr { shape, span: _ } = self;
        drop(shape);
    }
}

#[cycle(code)]
pub enum Shape {
    Number(Number),
    /// By its byte.
    Character(u8),
    /// The bytes that its escapes stand for.
    Text(Items<u8>),
    /// `NULL`, `TRUE`, `FALSE` and the capital names that are numbers.
    Constant(Constant),
    Variable(Name),
    /// The name of a function of the unit.
    Function(Name),
    /// A member of an enum.
    Member(Name),
    /// `sizeof (X)`, and where it stands without brackets around it.
    SizeOf(CType, Span),
    /// `G_STRUCT_OFFSET (X, f)`, and the same.
    Offset(CType, Name, Span),
    /// One operator or more, the outermost first.
    Prefix(Items<PrefixOperator>, Boxed<Expr>),
    /// One suffix or more, the innermost first.
    Postfix(Boxed<Expr>, Items<Suffix>),
    /// `a + b - c`: one link or more, all of one level.
    Chain(Boxed<Expr>, Items<Link>),
    /// `a ? b : c ? d : e`: one choice or more, and the value behind the last `:`.
    Conditional(Items<Choice>, Boxed<Expr>),
}

impl Drop for Shape {
    #[cycle(dropped)]
    fn drop(self) {
        match self {
            Shape::Text(it) => drop(it),
            Shape::Variable(it) => drop(it),
            Shape::Function(it) => drop(it),
            Shape::Member(it) => drop(it),
            Shape::SizeOf(it, _) => drop(it),
            Shape::Offset(first, second, _) => {
                drop(first);
                drop(second);
            }
            Shape::Prefix(first, second) => {
                drop(first);
                drop(second);
            }
            Shape::Postfix(first, second) => {
                drop(first);
                drop(second);
            }
            Shape::Chain(first, second) => {
                drop(first);
                drop(second);
            }
            Shape::Conditional(first, second) => {
                drop(first);
                drop(second);
            }
            Shape::Number(_) | Shape::Character(_) | Shape::Constant(_) => {}
        }
    }
}

/// What stands behind a value.
#[cycle(code)]
pub enum Suffix {
    /// `.f`
    Field(Name),
    /// `->f`
    Arrow(Name),
    /// `[i]`, and where the brackets stand.
    Index(Expr, Span),
}

impl Drop for Suffix {
    #[cycle(dropped)]
    fn drop(self) {
        match self {
            Suffix::Field(it) => drop(it),
            Suffix::Arrow(it) => drop(it),
            Suffix::Index(it, _) => drop(it),
        }
    }
}

/// An operator and the operand behind it.
#[cycle(code)]
pub struct Link {
    pub operator: BinaryOperator,
    pub operand: Expr,
}

impl Drop for Link {
    #[cycle(dropped)]
    fn drop(self) {
        let Link {
            operator: _,
            operand,
        } = self;
        drop(operand);
    }
}

/// `test ? yes :`
#[cycle(code)]
pub struct Choice {
    pub test: Expr,
    pub yes: Expr,
}

impl Drop for Choice {
    #[cycle(dropped)]
    fn drop(self) {
        let Choice { test, yes } = self;
        drop(test);
        drop(yes);
    }
}

/// A declaration of a variable or a field.
pub struct Local {
    pub declared: CType,
    pub name: Name,
}

impl Drop for Local {
    fn drop(self) {
        let Local { declared, name } = self;
        drop(declared);
        drop(name);
    }
}

/// What is called: a value, or a function of the library, which is no value.
pub enum Callee {
    Value(Expr),
    Row(Name),
}

impl Drop for Callee {
    fn drop(self) {
        match self {
            Callee::Value(it) => drop(it),
            Callee::Row(it) => drop(it),
        }
    }
}

/// A call. Some functions of the library take a type before their values.
pub struct Call {
    pub callee: Callee,
    pub type_argument: Option<CType>,
    pub arguments: Items<Expr>,
    pub span: Span,
}

impl Drop for Call {
    fn drop(self) {
        let Call {
            callee,
            type_argument,
            arguments,
            span: _,
        } = self;
        drop(callee);
        drop(type_argument);
        drop(arguments);
    }
}

/// `case n: goto L;`
pub struct Case {
    pub number: SignedNumber,
    pub label: Name,
}

impl Drop for Case {
    fn drop(self) {
        let Case { number: _, label } = self;
        drop(label);
    }
}

#[cycle(statement)]
pub enum Stmt {
    /// `place = value;`
    Assign(Expr, Expr),
    /// `call;`
    Call(Call),
    /// `place = call;`
    Store(Expr, Call),
    /// `if (value) block else block`
    If(Expr, Block, Option<Block>),
    /// `if (value) goto L;`
    IfGoto(Expr, Name),
    /// `goto L;`
    Goto(Name),
    /// `L: ;`
    Label(Name),
    /// `switch (value) { case n: goto L; default: goto L; }`
    Switch(Expr, Items<Case>, Name),
    /// The word `return`, and the value.
    Return(Span, Option<Expr>),
    Block(Block),
}

impl Drop for Stmt {
    #[cycle(statement_dropped)]
    fn drop(self) {
        match self {
            Stmt::Assign(first, second) => {
                drop(first);
                drop(second);
            }
            Stmt::Call(it) => drop(it),
            Stmt::Store(first, second) => {
                drop(first);
                drop(second);
            }
            Stmt::If(first, second, third) => {
                drop(first);
                drop(second);
                drop(third);
            }
            Stmt::IfGoto(first, second) => {
                drop(first);
                drop(second);
            }
            Stmt::Goto(it) => drop(it),
            Stmt::Label(it) => drop(it),
            Stmt::Switch(first, second, third) => {
                drop(first);
                drop(second);
                drop(third);
            }
            Stmt::Return(_, it) => drop(it),
            Stmt::Block(it) => drop(it),
        }
    }
}

#[cycle(statement)]
pub struct Block {
    pub locals: Items<Local>,
    pub body: Items<Stmt>,
    pub span: Span,
}

impl Drop for Block {
    #[cycle(statement_dropped)]
    fn drop(self) {
        let Block {
            locals,
            body,
            span: _,
        } = self;
        drop(locals);
        drop(body);
    }
}
