// The typed core of a program: what the front makes of the sources, and what a run of the program means.
#![tactic(auto)]

mod decl;
mod lambda;
mod laws;
mod operation;
mod program;
mod tree;
mod types;
mod values;

pub use decl::{Access, CoreDecl, DeclKind, Modifiers};
pub use lambda::{
    BlockLocal, CapturedParameter, CoreParameter, Lambda, Locals, Mode, Scope, ScopeAt, Target,
    ThisAt, Via,
};
pub use laws::{
    ids_are_given_once, live_things_are_owned, makings_are_numbered, one_place_is_given_up,
    only_things_are_owned, ready_sources_are_dispatched, runs_go_on, things_are_numbered,
    things_go_once,
};
pub use operation::Operation;
pub use program::Core;
pub use tree::{CoreExpr, CoreStmt, ErrorType, SectionLabel};
pub use types::{
    Accessor, ClassInfo, CoreMethod, CorePlace, CoreProperty, CoreSignal, CoreType, DelegateInfo,
    DomainInfo, Given, InterfaceInfo, Making, Slot, SlotInfo, SlotKind, StructInfo, TypeOrigin,
};
pub use values::{Arithmetic, Callee, Comparison, LoopCall, Part, TextCall};
