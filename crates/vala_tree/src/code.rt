// Expressions and statements. A lambda may hold a block, so they lead back to each other.

use crate::names::{Element, Identifier, NameTree, TypeTree};
use crate::operators::{
    AssignOperator, BinaryOperator, IntegerKind, PostfixOperator, PrefixOperator, TypeOperator,
};
use sqlite_items::{Boxed, Items};
use vg_base::Span;

/// A literal by its value.
pub enum Literal {
    Integer(u64, IntegerKind),
    /// The bytes that its escapes stand for.
    Text(Items<u8>),
    Character(u8),
    Boolean(bool),
    Null,
}

impl Drop for Literal {
    fn drop(self) {
        match self {
            Literal::Text(it) => drop(it),
            Literal::Integer(_, _) | Literal::Character(_) | Literal::Boolean(_) | Literal::Null =>
                {}
        }
    }
}

#[cycle(code)]
pub enum Expr {
    Literal(Literal, Span),
    Name(Items<u8>, Span),
    This(Span),
    Base(Span),
    Primary(Primary, Span),
    Postfix(Postfix, Span),
    Operation(Operation, Span),
    /// The parameters and what it gives or does.
    Lambda(Items<Identifier>, LambdaBody, Span),
}

impl Drop for Expr {
    #[cycle(dropped)]
    fn drop(self) {
        match self {
            Expr::Literal(it, _) => drop(it),
            Expr::Name(it, _) => drop(it),
            Expr::Primary(it, _) => drop(it),
            Expr::Postfix(it, _) => drop(it),
            Expr::Operation(it, _) => drop(it),
            Expr::Lambda(first, second, _) => {
                drop(first);
                drop(second);
            }
            Expr::This(_) | Expr::Base(_) => {}
        }
    }
}

/// What needs no operator and has parts.
#[cycle(code)]
pub enum Primary {
    Parenthesized(Boxed<Expr>),
    /// The call whose end is waited for.
    YieldCall(Boxed<Expr>),
    New(NameTree, Items<Argument>),
    NewArray(NewArray),
    /// `{ .. }`, which only an initialiser is.
    List(Items<Expr>),
}

impl Drop for Primary {
    #[cycle(dropped)]
    fn drop(self) {
        match self {
            Primary::Parenthesized(it) => drop(it),
            Primary::YieldCall(it) => drop(it),
            Primary::New(first, second) => {
                drop(first);
                drop(second);
            }
            Primary::NewArray(it) => drop(it),
            Primary::List(it) => drop(it),
        }
    }
}

/// The length in the brackets and the list in braces, where they are written.
#[cycle(code)]
pub struct NewArray {
    pub element: Element,
    pub length: Option<Boxed<Expr>>,
    pub list: Option<Items<Expr>>,
}

impl Drop for NewArray {
    #[cycle(dropped)]
    fn drop(self) {
        let NewArray {
            element,
            length,
            list,
        } = self;
        drop(element);
        drop(length);
        drop(list);
    }
}

#[cycle(code)]
pub enum Postfix {
    Member(Boxed<Expr>, Identifier),
    Call(Boxed<Expr>, Items<Argument>),
    Index(Boxed<Expr>, Boxed<Expr>),
    Step(Boxed<Expr>, PostfixOperator),
}

impl Drop for Postfix {
    #[cycle(dropped)]
    fn drop(self) {
        match self {
            Postfix::Member(first, second) => {
                drop(first);
                drop(second);
            }
            Postfix::Call(first, second) => {
                drop(first);
                drop(second);
            }
            Postfix::Index(first, second) => {
                drop(first);
                drop(second);
            }
            Postfix::Step(it, _) => drop(it),
        }
    }
}

#[cycle(code)]
pub enum Operation {
    Prefix(PrefixOperator, Boxed<Expr>),
    Cast(TypeTree, Boxed<Expr>),
    Binary(BinaryOperator, Boxed<Expr>, Boxed<Expr>),
    Typed(TypeOperator, Boxed<Expr>, TypeTree),
    Conditional(Boxed<Expr>, Boxed<Expr>, Boxed<Expr>),
    Assign(AssignOperator, Boxed<Expr>, Boxed<Expr>),
}

impl Drop for Operation {
    #[cycle(dropped)]
    fn drop(self) {
        match self {
            Operation::Prefix(_, it) => drop(it),
            Operation::Cast(first, second) => {
                drop(first);
                drop(second);
            }
            Operation::Binary(_, first, second) => {
                drop(first);
                drop(second);
            }
            Operation::Typed(_, first, second) => {
                drop(first);
                drop(second);
            }
            Operation::Conditional(first, second, third) => {
                drop(first);
                drop(second);
                drop(third);
            }
            Operation::Assign(_, first, second) => {
                drop(first);
                drop(second);
            }
        }
    }
}

#[cycle(code)]
pub enum LambdaBody {
    Value(Boxed<Expr>),
    Code(Block),
}

impl Drop for LambdaBody {
    #[cycle(dropped)]
    fn drop(self) {
        match self {
            LambdaBody::Value(it) => drop(it),
            LambdaBody::Code(it) => drop(it),
        }
    }
}

/// What stands before the expression of an argument.
pub enum ArgumentMark {
    Plain,
    Named(Identifier),
    Out,
    Ref,
}

impl Drop for ArgumentMark {
    fn drop(self) {
        match self {
            ArgumentMark::Named(it) => drop(it),
            ArgumentMark::Plain | ArgumentMark::Out | ArgumentMark::Ref => {}
        }
    }
}

#[cycle(code)]
pub struct Argument {
    pub mark: ArgumentMark,
    pub value: Expr,
    pub span: Span,
}

impl Drop for Argument {
    #[cycle(dropped)]
    fn drop(self) {
        let Argument {
            mark,
            value,
            span: _,
        } = self;
        drop(mark);
        drop(value);
    }
}

#[cycle(code)]
pub struct Block {
    pub statements: Items<Stmt>,
    pub span: Span,
}

impl Drop for Block {
    #[cycle(dropped)]
    fn drop(self) {
        let Block {
            statements,
            span: _,
        } = self;
        drop(statements);
    }
}

#[cycle(code)]
pub enum Stmt {
    Block(Block),
    Empty(Span),
    Local(Local, Span),
    Expression(Expr, Span),
    Selection(Selection, Span),
    Iteration(Iteration, Span),
    Jump(Jump, Span),
    Try(Try, Span),
}

impl Drop for Stmt {
    #[cycle(dropped)]
    fn drop(self) {
        match self {
            Stmt::Block(it) => drop(it),
            Stmt::Local(it, _) => drop(it),
            Stmt::Expression(it, _) => drop(it),
            Stmt::Selection(it, _) => drop(it),
            Stmt::Iteration(it, _) => drop(it),
            Stmt::Jump(it, _) => drop(it),
            Stmt::Try(it, _) => drop(it),
            Stmt::Empty(_) => {}
        }
    }
}

#[cycle(code)]
pub enum Selection {
    If(If),
    Switch(Expr, Items<Section>),
}

impl Drop for Selection {
    #[cycle(dropped)]
    fn drop(self) {
        match self {
            Selection::If(it) => drop(it),
            Selection::Switch(first, second) => {
                drop(first);
                drop(second);
            }
        }
    }
}

/// `if` with the `else if` behind it: an arm for each, in their order, and what stands behind a last `else`. That is no
/// `if` without braces. A chain may be as long as a file is, so it is a list: the tree is no deeper for it.
#[cycle(code)]
pub struct If {
    pub arms: Items<Arm>,
    pub no: Option<Boxed<Stmt>>,
}

impl Drop for If {
    #[cycle(dropped)]
    fn drop(self) {
        let If { arms, no } = self;
        drop(arms);
        drop(no);
    }
}

/// A condition, and what is done where it is the first that holds.
#[cycle(code)]
pub struct Arm {
    pub test: Expr,
    pub body: Stmt,
}

impl Drop for Arm {
    #[cycle(dropped)]
    fn drop(self) {
        let Arm { test, body } = self;
        drop(test);
        drop(body);
    }
}

#[cycle(code)]
pub enum Iteration {
    While(Expr, Boxed<Stmt>),
    Do(Boxed<Stmt>, Expr),
    For(For),
    Foreach(Foreach),
}

impl Drop for Iteration {
    #[cycle(dropped)]
    fn drop(self) {
        match self {
            Iteration::While(first, second) => {
                drop(first);
                drop(second);
            }
            Iteration::Do(first, second) => {
                drop(first);
                drop(second);
            }
            Iteration::For(it) => drop(it),
            Iteration::Foreach(it) => drop(it),
        }
    }
}

/// What begins it, the condition, the expressions after each turn, and the body.
#[cycle(code)]
pub struct For {
    pub start: ForStart,
    pub test: Option<Boxed<Expr>>,
    pub steps: Items<Expr>,
    pub body: Boxed<Stmt>,
}

impl Drop for For {
    #[cycle(dropped)]
    fn drop(self) {
        let For {
            start,
            test,
            steps,
            body,
        } = self;
        drop(start);
        drop(test);
        drop(steps);
        drop(body);
    }
}

#[cycle(code)]
pub struct Foreach {
    pub declared: DeclaredType,
    pub name: Identifier,
    pub over: Expr,
    pub body: Boxed<Stmt>,
}

impl Drop for Foreach {
    #[cycle(dropped)]
    fn drop(self) {
        let Foreach {
            declared,
            name,
            over,
            body,
        } = self;
        drop(declared);
        drop(name);
        drop(over);
        drop(body);
    }
}

#[cycle(code)]
pub enum Jump {
    Break,
    Continue,
    Return(Option<Expr>),
    Throw(Expr),
    Yield,
}

impl Drop for Jump {
    #[cycle(dropped)]
    fn drop(self) {
        match self {
            Jump::Return(it) => drop(it),
            Jump::Throw(it) => drop(it),
            Jump::Break | Jump::Continue | Jump::Yield => {}
        }
    }
}

/// The type of a local, or `var`.
pub enum DeclaredType {
    Var,
    Written(TypeTree),
}

impl Drop for DeclaredType {
    fn drop(self) {
        match self {
            DeclaredType::Written(it) => drop(it),
            DeclaredType::Var => {}
        }
    }
}

#[cycle(code)]
pub struct Local {
    pub declared: DeclaredType,
    pub names: Items<Declarator>,
}

impl Drop for Local {
    #[cycle(dropped)]
    fn drop(self) {
        let Local { declared, names } = self;
        drop(declared);
        drop(names);
    }
}

#[cycle(code)]
pub struct Declarator {
    pub name: Identifier,
    pub value: Option<Expr>,
    pub span: Span,
}

impl Drop for Declarator {
    #[cycle(dropped)]
    fn drop(self) {
        let Declarator {
            name,
            value,
            span: _,
        } = self;
        drop(name);
        drop(value);
    }
}

#[cycle(code)]
pub enum ForStart {
    Declared(Local),
    Exprs(Items<Expr>),
}

impl Drop for ForStart {
    #[cycle(dropped)]
    fn drop(self) {
        match self {
            ForStart::Declared(it) => drop(it),
            ForStart::Exprs(it) => drop(it),
        }
    }
}

/// The labels of a part of a `switch`, and the statements behind them.
#[cycle(code)]
pub struct Section {
    pub labels: Items<Label>,
    pub statements: Items<Stmt>,
    pub span: Span,
}

impl Drop for Section {
    #[cycle(dropped)]
    fn drop(self) {
        let Section {
            labels,
            statements,
            span: _,
        } = self;
        drop(labels);
        drop(statements);
    }
}

#[cycle(code)]
pub enum Label {
    Case(Expr, Span),
    Default(Span),
}

impl Drop for Label {
    #[cycle(dropped)]
    fn drop(self) {
        match self {
            Label::Case(it, _) => drop(it),
            Label::Default(_) => {}
        }
    }
}

/// The type and the name of the error that is caught.
pub struct Caught {
    pub declared: TypeTree,
    pub name: Identifier,
}

impl Drop for Caught {
    fn drop(self) {
        let Caught { declared, name } = self;
        drop(declared);
        drop(name);
    }
}

/// The body, the clauses that catch, and what stands behind `finally`.
#[cycle(code)]
pub struct Try {
    pub body: Block,
    pub clauses: Items<Catch>,
    pub last: Option<Block>,
}

impl Drop for Try {
    #[cycle(dropped)]
    fn drop(self) {
        let Try {
            body,
            clauses,
            last,
        } = self;
        drop(body);
        drop(clauses);
        drop(last);
    }
}

#[cycle(code)]
pub struct Catch {
    pub caught: Option<Caught>,
    pub body: Block,
    pub span: Span,
}

impl Drop for Catch {
    #[cycle(dropped)]
    fn drop(self) {
        let Catch {
            caught,
            body,
            span: _,
        } = self;
        drop(caught);
        drop(body);
    }
}
