// Expressions and statements.

use crate::lambda::{BlockLocal, Lambda, Scope};
use crate::operation::Operation;
use sqlite_items::{Boxed, Items};
use vala_types::{Change, Item, VType};
use vg_base::Span;

/// A type that is written for an error, behind `throws` or in a `catch`.
#[derive(Clone, Copy)]
pub struct ErrorType {
    /// The type, which may be that of no error. Such a program is refused.
    pub kind: VType,
    /// The span of the type.
    pub at: Span,
}

/// A label of a section. The values of those with `case` stand beside them.
#[derive(Clone, Copy)]
pub struct SectionLabel {
    /// Whether it is `default`, else `case`.
    pub is_default: bool,
    /// The span of the label, its colon with it.
    pub at: Span,
}

/// An expression. It gives a value, or an owned temporary, or nothing where its type is `void`.
#[derive(Drop)]
#[cycle(core)]
pub enum CoreExpr {
    /// Evaluates the parts from left to right, and then does the operation.
    Apply(Operation, Items<CoreExpr>, Span),
    /// A target: evaluates the parts of what stands in it, and gives the place, which the user of the place finds.
    PlaceOf(Boxed<CoreExpr>, Span),
    /// A target that is also read: gives the place, and then its value.
    PlaceAndValue(Boxed<CoreExpr>, Span),
    /// `a && b`: the second is evaluated where the first is true.
    And(Boxed<CoreExpr>, Boxed<CoreExpr>, Span),
    /// `a || b`: the second is evaluated where the first is false.
    Or(Boxed<CoreExpr>, Boxed<CoreExpr>, Span),
    /// `a ? b : c`: one of the last two is evaluated.
    Choice(Boxed<CoreExpr>, Boxed<CoreExpr>, Boxed<CoreExpr>, Span),
    /// `a ?? b`: the second is evaluated where the first is null.
    Coalesce(Boxed<CoreExpr>, Boxed<CoreExpr>, Span),
    /// A lambda: gives a delegate to its body and target. It is fresh where it owns its target.
    Lambda(Lambda, Boxed<CoreStmt>, Span),
}

/// A statement.
#[derive(Drop)]
#[cycle(core)]
pub enum CoreStmt {
    /// Nothing.
    Empty(Span),
    /// Evaluates, and gives up the temporaries in the order of their making.
    Expression(CoreExpr, Span),
    /// Puts the value of the initialiser into the place, which is a target, and gives up the other temporaries.
    Local(CoreExpr, CoreExpr, Span),
    /// Makes its scope, does the statements, gives up its locals (these) in reverse order, and its scope last.
    Block {
        locals: Items<BlockLocal>,
        scope: Items<Scope>,
        body: Items<CoreStmt>,
        at: Span,
    },
    /// Evaluates, gives up the temporaries, and does one of the two.
    If(CoreExpr, Boxed<CoreStmt>, Boxed<CoreStmt>, Span),
    /// Does the body as long as the condition holds, which is tested before each turn.
    While(CoreExpr, Boxed<CoreStmt>, Span),
    /// The same, tested after each turn.
    Do(Boxed<CoreStmt>, CoreExpr, Span),
    /// A `for` behind its first part: condition, steps, body. Each step is an expression statement.
    For(CoreExpr, Items<CoreStmt>, Boxed<CoreStmt>, Span),
    /// Evaluates the array once and reads its length once. Each turn reads an element and does the body, a block.
    /// The element goes into the target, by the change.
    Foreach {
        array: CoreExpr,
        item: Item,
        variable: CoreExpr,
        change: Change,
        body: Boxed<CoreStmt>,
        at: Span,
    },
    /// Evaluates, compares with the labels in order, gives up the temporaries, and does the section that is chosen, alone.
    Switch(CoreExpr, Items<CoreStmt>, Span),
    /// A section of a `switch`: the values of its labels, all its labels in order, and its block.
    /// A label with `case` has one of the values, in their order, and `default` has none.
    Section(Items<CoreExpr>, Items<SectionLabel>, Boxed<CoreStmt>, Span),
    /// Leaves the innermost loop or `switch`.
    Break(Span),
    /// Goes on with the next turn of the innermost loop.
    Continue(Span),
    /// Puts the value, if there is one, into the place of the result, and leaves the method.
    Return(Items<CoreExpr>, Span),
    /// Throws the error, which is fresh.
    Throw(CoreExpr, Span),
    /// Does the block; a thrown error goes to the first `catch` that takes it; then the last block, on every way out.
    Try(Boxed<CoreStmt>, Items<CoreStmt>, Items<CoreStmt>, Span),
    /// A `catch`: the domain, where it names one, and a block whose first place gets the error, which is a target.
    Catch {
        /// The domain whose errors it takes alone.
        domain: Option<u32>,
        /// The type that is written, if one is.
        caught: Option<ErrorType>,
        variable: Items<CoreExpr>,
        body: Boxed<CoreStmt>,
        at: Span,
    },
    /// Parks the activation until its callback is called.
    Yield(Span),
    /// The trap `assert` where the condition does not hold.
    Assert(CoreExpr, Span),
    /// The trap `assert`.
    AssertNotReached(Span),
}
