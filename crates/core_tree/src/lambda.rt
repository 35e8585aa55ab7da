// Frames, scopes and the ways to what a lambda captures.

use sqlite_items::Items;
use vala_types::{Change, VType};
use vg_base::Span;

/// How a parameter gets what its argument gives.
#[derive(Clone, Copy)]
pub enum Mode {
    /// The parameter is a place of its own that gets the value.
    Value,
    /// The parameter is the argument's place itself.
    Ref,
    /// The same, and the call empties the place before the body begins.
    Out,
}

/// A parameter. The first locals of a frame are its parameters.
#[derive(Clone, Copy)]
pub struct CoreParameter {
    /// The type of the place. In an async method it owns, however it is written.
    pub kind: VType,
    pub mode: Mode,
    /// The span of its name.
    pub at: Span,
}

/// The places of a frame: its parameters, and then its locals, which are numbered on from them.
#[derive(Drop)]
pub struct Locals {
    pub parameters: Items<CoreParameter>,
    pub others: Items<VType>,
    pub result: VType,
}

/// Where the way to a scope begins.
#[derive(Clone, Copy)]
pub enum Via {
    /// At the scope of a block of this frame; the local with this number is the block's hold on it.
    Hold(u32),
    /// At the lambda's target.
    Target,
}

/// A scope that code can reach: from a first scope, so many outer scopes on. Each scope on the way is used.
#[derive(Clone, Copy)]
pub struct ScopeAt {
    pub via: Via,
    pub outward: u32,
}

/// Where `this` comes from.
#[derive(Clone, Copy)]
pub enum ThisAt {
    /// The frame's own: a method's receiver, or the target of a lambda that uses `this` alone.
    Own,
    /// The place `this` of a scope. Each scope on the way is used.
    Through(ScopeAt),
}

/// What a lambda is bound to.
#[derive(Clone, Copy)]
pub enum Target {
    /// It uses nothing of what is around it.
    Nothing,
    /// It uses `this` alone.
    This(ThisAt),
    /// It uses a captured variable; this is the innermost scope with one.
    Captures(ScopeAt),
}

/// A parameter that a lambda captures. The method's entry puts it into the scope.
#[derive(Clone, Copy)]
pub struct CapturedParameter {
    /// The parameter, by its number among the locals.
    pub local: u32,
    /// The first cell of the scope that it goes into. A variable of struct type has a cell for each of that struct's.
    pub variable: u32,
    pub kind: VType,
    /// Move where the parameter owns, else the copy for its type.
    pub change: Change,
}

/// A local of a block, and its type.
#[derive(Clone, Copy)]
pub struct BlockLocal {
    pub local: u32,
    pub kind: VType,
}

/// The scope that a block with captured variables makes when it is entered.
#[derive(Drop)]
pub struct Scope {
    /// The local that is the block's hold on it.
    pub hold: u32,
    /// The types of its variables. Its cells are theirs, one behind another.
    pub variables: Items<VType>,
    /// The next scope outward in the same method or lambda, or the lambda's target; the scope owns it. None or one.
    pub outer: Option<ScopeAt>,
    /// `this`, where the scope has no outer one and a lambda in it uses both; the scope owns it.
    pub this: Option<ThisAt>,
    pub parameters: Items<CapturedParameter>,
}

/// The frame and the target of a lambda.
#[derive(Drop)]
pub struct Lambda {
    /// The delegate type that it is of, which says what errors it may throw. None of a lambda that is connected.
    pub delegate: Option<u32>,
    pub locals: Locals,
    pub target: Target,
    /// Whether a place that holds it owns the target. A handler that uses `this` alone does not.
    pub is_owning: bool,
}
