// What is told of a declaration by its number.

ghost use Rattle.std.specs.Prelude.{◌≡◌, ◌<◌, length, slice_get, Some};
ghost use Rattle.std.specs.Option.{option_map};
ghost use Rattle.symbols.specs.Search as spec;

use crate::kinds::Decl;
use crate::table::{Names, Symbol, Symbols};

impl Symbols {
    fn at(&self, number: u32) -> &Symbol
        requires { number < length self.now }
        ensures { slice_get self.now number ≡ Some result.now }
    {
        &self.list[number as usize]
    }
}

impl Names {
    /// How many declarations there are, the built-in names among them.
    pub fn count(&self) -> u32
        ensures { result ≡ length self.now.symbols }
    {
        self.symbols.count() as u32
    }

    /// The kind of a declaration, the place of its name, and the declaration around it.
    pub fn decl(&self, symbol: u32) -> Decl
        requires { symbol < length self.now.symbols }
        ensures { option_map spec.decl_of (slice_get self.now.symbols symbol) ≡ Some result }
    {
        let found = self.symbols.at(symbol);
        Decl {
            kind: found.kind,
            span: found.span,
            owner: found.owner,
        }
    }

    /// The declarations in a declaration, in order.
    pub fn members(&self, symbol: u32) -> &[u32]
        requires { symbol < length self.now.symbols }
        ensures { option_map spec.members_of (slice_get self.now.symbols symbol) ≡ Some result.now }
    {
        self.symbols.at(symbol).members.as_slice()
    }

    /// The scope that a declaration opens or, where it opens none, the scope in which it stands.
    pub fn scope_of(&self, symbol: u32) -> u32
        requires { symbol < length self.now.symbols }
        ensures { option_map spec.scope_of (slice_get self.now.symbols symbol) ≡ Some result }
    {
        let found = self.symbols.at(symbol);
        match found.opened {
            Some(scope) => scope,
            None => found.scope,
        }
    }
}
