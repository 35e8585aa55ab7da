// A whole program.

use crate::decl::CoreDecl;
use crate::types::{
    CoreMethod, CorePlace, CoreProperty, CoreSignal, CoreType, SlotInfo, TypeOrigin,
};
use sqlite_items::Items;

/// The typed core of a program.
#[derive(Drop)]
pub struct Core {
    pub decls: Items<CoreDecl>,
    pub types: Items<CoreType>,
    /// Where each type comes from, by its number.
    pub origins: Items<TypeOrigin>,
    pub methods: Items<CoreMethod>,
    pub properties: Items<CoreProperty>,
    pub signals: Items<CoreSignal>,
    /// The slots of all classes and interfaces.
    pub slots: Items<SlotInfo>,
    pub statics: Items<CorePlace>,
    /// The number of `main`.
    pub start: u32,
    /// How many tokens the sources have.
    pub tokens: u64,
}
