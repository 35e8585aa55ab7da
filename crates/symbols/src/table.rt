// The table in which names are looked up.

use crate::kinds::{Access, SymbolKind};
use sqlite_items::Items;
use std::marker::Model;
use vg_base::Span;

/// The most declarations that a table has: those that a program may have, and the built-in names.
pub const MOST_SYMBOLS: usize = 131_072;

/// A declaration, with what is known of it when all are known.
pub struct Symbol {
    pub(crate) kind: SymbolKind,
    pub(crate) name: Items<u8>,
    pub(crate) span: Span,
    /// The declaration around it.
    pub(crate) owner: Option<u32>,
    /// The scope in which it stands.
    pub(crate) scope: u32,
    /// The scope that it opens, if it opens one.
    pub(crate) opened: Option<u32>,
    /// The place from which it counts.
    pub(crate) since: u32,
    pub(crate) access: Access,
    /// The declarations in it, in order.
    pub(crate) members: Items<u32>,
}

impl Drop for Symbol {
    fn drop(self) {
        let Symbol {
            kind: _,
            name,
            span: _,
            owner: _,
            scope: _,
            opened: _,
            since: _,
            access: _,
            members,
        } = self;
        drop(name);
        drop(members);
    }
}

/// A scope: the one around it, the declaration that opens it, and where that is a class or interface the scopes of its bases,
/// the nearest first.
pub struct Scope {
    pub(crate) outer: u32,
    pub(crate) symbol: Option<u32>,
    pub(crate) bases: Items<u32>,
}

impl Drop for Scope {
    fn drop(self) {
        let Scope {
            outer: _,
            symbol: _,
            bases,
        } = self;
        drop(bases);
    }
}

/// All declarations, `MOST_SYMBOLS` at most.
#[derive(Drop)]
pub struct Symbols {
    pub(crate) list: Vec<Symbol>,
}

impl Model for Symbols {
    ghost use Rattle.std.specs.Prelude.{List, ◌≤◌, length};
    ghost use Rattle.symbols.specs.declared.table.Symbol.{Symbol};

    ghost Value = { List Symbol };

    ghost view = { λ s. s.list.items };

    ghost invariant = { λ s. length s.list.items ≤ 131072 };
}

/// What is declared in the files of a program: the declarations and the scopes by their numbers, and for each file the scopes of
/// the namespaces in use in it.
pub struct Names {
    pub(crate) symbols: Symbols,
    pub(crate) scopes: Items<Scope>,
    pub(crate) uses: Items<Items<u32>>,
}

impl Drop for Names {
    fn drop(self) {
        let Names {
            symbols,
            scopes,
            uses,
        } = self;
        drop(symbols);
        drop(scopes);
        drop(uses);
    }
}
