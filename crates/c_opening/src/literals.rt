// The blocks of text literals.

ghost use Rattle.std.specs.Prelude.{[], ◌∷◌, map, OnOk};
ghost use Rattle.c_meaning.specs.Runs.{with_literals};
ghost use Rattle.c_resolver.specs.Shown.{literal_seen};
ghost use Rattle.c_opening.specs.Opens.{Becomes};

use crate::opening::Opening;
use c_resolver::{Literal, Standing};
use std::alloc::Global;
use vg_base::Memory;

impl Opening<'_> {
    // A text literal has a block.
    fn add_literal(&mut self, alloc: Global, literal: &Literal) -> Result<(), Memory>
        ensures { OnOk result (Becomes (λ s. with_literals s (literal_seen literal.now ∷ [])) self.old self.new) }
    {
        let block = self.make_text(alloc, literal.bytes.as_slice())?;
        let standing = Standing {
            start: literal.start,
            block,
        };
        let tables = &mut self.tables;
        match tables.literals.push(standing) {
            Ok(()) => Ok(()),
            Err(_) => Err(Memory),
        }
    }

    /// Each of some text literals has a block.
    pub fn add_literals(&mut self, alloc: Global, literals: &[Literal]) -> Result<(), Memory>
        ensures { OnOk result (Becomes (λ s. with_literals s (map literal_seen literals.now)) self.old self.new) }
    {
        for literal in literals {
            self.add_literal(alloc, literal)?;
        }
        Ok(())
    }
}
