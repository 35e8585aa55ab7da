// What is read on the way to a tree. The trees in it are boxed, so that it is small to hand on. How it is dropped is written
// out, so that crates above take it as a call.

ghost use Rattle.std.specs.Prelude.{◌≡◌};

use sqlite_items::{Boxed, Items};
use vala_tree::{Argument, Arm, Expr, ForStart, Local, NameTree, Stmt, TypeTree};
use vg_base::Span;

/// What a chain of operands ends with, where that decides what may follow it.
#[derive(Drop)]
pub enum Last {
    /// Nothing of the following.
    Plain,
    /// A name in brackets. It is no callee, since `(a) (b)` is a cast.
    Names,
    /// The name of an integer type in brackets. No `-` follows it, since `(int) - b` is a cast.
    Integer,
    /// A type behind `is` or `as` without a mark. A `?` behind it is read with the type.
    Unmarked,
    /// `? b` behind a type that is tested for, of which `: c` is to come.
    Asked(Boxed<Expr>),
    /// Names with nothing behind them, which may still be a type. A `?` behind them is read with the names.
    Alone,
}

/// An operand, or operands with operators between them.
pub struct Chain {
    pub value: Boxed<Expr>,
    pub last: Last,
}

impl Drop for Chain {
    fn drop(self) {
        let Chain { value, last } = self;
        drop(value);
        drop(last);
    }
}

impl Chain {
    /// What it stands for alone.
    pub fn into_value(self) -> Boxed<Expr>
        ensures { result ≡ self.value }
    {
        let Chain { value, last } = self;
        drop(last);
        value
    }

    /// What it stands for, and what it ends with.
    pub fn into_parts(self) -> (Boxed<Expr>, Last)
        ensures value { result.0 ≡ self.value }
        ensures last { result.1 ≡ self.last }
    {
        let Chain { value, last } = self;
        (value, last)
    }
}

/// The name of a type, and whether `[]` follows it, by the place of `]`.
#[derive(Drop)]
pub enum TypeName {
    Single(NameTree),
    Array(NameTree, Span),
}

/// Where a type or an expression may begin with a name: names with dots between, these with `[]` behind them, or an operand.
#[derive(Drop)]
pub enum Lead {
    Names(NameTree),
    Array(NameTree, Span),
    Value(Chain),
}

/// The same read further: a type, names that may still be one, or an expression.
#[derive(Drop)]
pub enum Opening {
    Type(TypeTree),
    Names(NameTree),
    Value(Boxed<Expr>),
}

/// What begins with a bracket: a lambda, or an operand.
#[derive(Drop)]
pub enum Bracketed {
    Lambda(Boxed<Expr>),
    Operand(Chain),
}

/// The type behind `is` or `as`, and what it ends with: a mark or none, or a `?` and an expression.
pub struct Tested {
    pub tree: TypeTree,
    pub last: Last,
}

impl Drop for Tested {
    fn drop(self) {
        let Tested { tree, last } = self;
        drop(tree);
        drop(last);
    }
}

impl Tested {
    /// The type, and what it ends with.
    pub fn into_parts(self) -> (TypeTree, Last)
        ensures tree { result.0 ≡ self.tree }
        ensures last { result.1 ≡ self.last }
    {
        let Tested { tree, last } = self;
        (tree, last)
    }
}

/// What a statement or a `for` begins with that no word tells: a declaration with its place, or an expression.
#[derive(Drop)]
pub enum Beginning {
    Declared(Boxed<Local>, Span),
    Expression(Boxed<Expr>),
}

/// A statement, and whether an `else` could go on with it.
pub struct Ended {
    pub statement: Boxed<Stmt>,
    pub is_open: bool,
}

impl Drop for Ended {
    fn drop(self) {
        let Ended {
            statement,
            is_open: _,
        } = self;
        drop(statement);
    }
}

impl Ended {
    /// The statement alone.
    pub fn into_statement(self) -> Boxed<Stmt>
        ensures { result ≡ self.statement }
    {
        let Ended {
            statement,
            is_open: _,
        } = self;
        statement
    }
}

/// What stands behind an `if`, or behind its `else`: the arms in their order and what stands behind a last `else`, whether a
/// further `else` could go on with it, and the place of its last statement.
pub struct Branches {
    pub arms: Items<Arm>,
    pub no: Option<Boxed<Stmt>>,
    pub is_open: bool,
    pub end: Span,
}

impl Drop for Branches {
    fn drop(self) {
        let Branches {
            arms,
            no,
            is_open: _,
            end: _,
        } = self;
        drop(arms);
        drop(no);
    }
}

impl Branches {
    /// The arms, and what stands behind a last `else`.
    pub fn into_parts(self) -> (Items<Arm>, Option<Boxed<Stmt>>)
        ensures arms { result.0 ≡ self.arms }
        ensures no { result.1 ≡ self.no }
    {
        let Branches {
            arms,
            no,
            is_open: _,
            end: _,
        } = self;
        (arms, no)
    }
}

/// What stands in the brackets of a `for`.
pub struct ForHead {
    pub start: Boxed<ForStart>,
    pub test: Option<Boxed<Expr>>,
    pub steps: Items<Expr>,
}

impl Drop for ForHead {
    fn drop(self) {
        let ForHead { start, test, steps } = self;
        drop(start);
        drop(test);
        drop(steps);
    }
}

impl ForHead {
    /// Its parts in their order.
    pub fn into_parts(self) -> (Boxed<ForStart>, Option<Boxed<Expr>>, Items<Expr>)
        ensures start { result.0 ≡ self.start }
        ensures test { result.1 ≡ self.test }
        ensures steps { result.2 ≡ self.steps }
    {
        let ForHead { start, test, steps } = self;
        (start, test, steps)
    }
}

/// Arguments, and the place of the bracket behind them.
pub struct Arguments {
    pub list: Items<Argument>,
    pub close: Span,
}

impl Drop for Arguments {
    fn drop(self) {
        let Arguments { list, close: _ } = self;
        drop(list);
    }
}

impl Arguments {
    /// The arguments alone.
    pub fn into_list(self) -> Items<Argument>
        ensures { result ≡ self.list }
    {
        let Arguments { list, close: _ } = self;
        list
    }
}

/// Expressions, and the place of the bracket or brace behind them.
pub struct Listed {
    pub list: Items<Expr>,
    pub close: Span,
}

impl Drop for Listed {
    fn drop(self) {
        let Listed { list, close: _ } = self;
        drop(list);
    }
}

impl Listed {
    /// The expressions alone.
    pub fn into_list(self) -> Items<Expr>
        ensures { result ≡ self.list }
    {
        let Listed { list, close: _ } = self;
        list
    }
}

/// Which signs may begin an operand: all, those behind a cast, or those and `-`.
#[derive(Clone, Copy)]
pub enum Signs {
    All,
    Cast,
    IntegerCast,
}

/// Where a name may begin a type or an expression: at the start of a statement, or behind a bracket.
#[derive(Clone, Copy)]
pub enum Context {
    Statement,
    Bracket,
}

/// How tightly an operator binds that binds to the left, the tightest first.
#[derive(Clone, Copy)]
pub enum Tier {
    Product,
    Sum,
    Shift,
    /// Also `is` and `as`.
    Relation,
    Equality,
    BitAnd,
    BitXor,
    BitOr,
    And,
    Or,
}
