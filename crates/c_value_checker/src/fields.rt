// Fields, sizes and places in structs.

ghost use Rattle.std.specs.Prelude.{◌≡◌, map};
ghost use Rattle.c_tree.specs.Checks as value;
ghost use Rattle.c_tree.specs.Checks.{arrow_of, field_by, field_found, field_of, index_of, offset_outcome, size_outcome, suffix_outcome};
ghost use Rattle.c_tree.specs.Env.{field_named};
ghost use Rattle.c_tree.specs.Faults.{on, Gives};
ghost use Rattle.c_value_checker.specs.Outcomes.{told};
ghost use Rattle.c_value_checker.specs.Seen.{seen};
ghost use Rattle.c_value_checker.specs.Structures.{field_seen};

use crate::environment::Environment;
use crate::kinds::{LONG, ULONG, is_integer, is_pointer};
use crate::layout::target;
use crate::outcome::{Outcome, given_if};
use crate::structures::Field;
use c_tree::{Kind, KindBase, Name};

fn known(kind: Option<Kind>) -> Outcome
    ensures { result ≡ told (on kind Gives) }
{
    match kind {
        None => Outcome::Silent,
        Some(kind) => Outcome::Gives(kind),
    }
}

fn find_field(fields: &[Field], name: &Name) -> Outcome
    ensures { result ≡ told (field_found (field_named (map field_seen fields.now) name.now.text) name.now) }
{
    for field in fields {
        if field.name.as_slice() == name.text.as_slice() {
            return known(field.kind);
        }
    }
    Outcome::Lacks(name.span.start)
}

impl<'n> Environment<'n> {
    fn field_by(&self, base: KindBase, name: &Name) -> Outcome
        ensures { result ≡ told (field_by (seen self.now) base name.now) }
    {
        match base {
            KindBase::Struct(number) => match self.fields(number) {
                None => Outcome::Wrong,
                Some(fields) => find_field(fields, name),
            },
            _ => Outcome::Wrong,
        }
    }

    fn field_of(&self, kind: Kind, name: &Name) -> Outcome
        ensures { result ≡ told (field_of (seen self.now) kind name.now) }
    {
        if kind.stars == 0 {
            self.field_by(kind.base, name)
        } else {
            Outcome::Wrong
        }
    }

    fn arrow_of(&self, kind: Kind, name: &Name) -> Outcome
        ensures { result ≡ told (arrow_of (seen self.now) kind name.now) }
    {
        if is_pointer(kind) {
            self.field_of(target(kind), name)
        } else {
            Outcome::Wrong
        }
    }

    fn place_in(&self, kind: Kind, name: &Name) -> Outcome
        ensures { result ≡ told (offset_outcome (seen self.now) name.now kind) }
    {
        if !self.is_laid_out(kind) {
            return Outcome::Wrong;
        }
        match self.field_of(kind, name) {
            Outcome::Gives(_) => Outcome::Gives(LONG),
            other => other,
        }
    }

    /// `.f` behind a value of a kind.
    pub fn field(&self, kind: Option<Kind>, name: &Name) -> Outcome
        ensures { result ≡ told (suffix_outcome (seen self.now) kind (value.Field name.now)) }
    {
        match kind {
            None => Outcome::Silent,
            Some(kind) => self.field_of(kind, name),
        }
    }

    /// `->f` behind a value of a kind.
    pub fn arrow(&self, kind: Option<Kind>, name: &Name) -> Outcome
        ensures { result ≡ told (suffix_outcome (seen self.now) kind (value.Arrow name.now)) }
    {
        match kind {
            None => Outcome::Silent,
            Some(kind) => self.arrow_of(kind, name),
        }
    }

    /// `[i]` behind a value of a kind.
    pub fn index(&self, kind: Option<Kind>, index: Option<Kind>) -> Outcome
        ensures { result ≡ told (on kind (λ k. on index (index_of (seen self.now) k))) }
    {
        match (kind, index) {
            (Some(kind), Some(index)) => given_if(
                self.reaches(kind) && is_integer(index),
                target(kind),
            ),
            _ => Outcome::Silent,
        }
    }

    /// The size of what is laid out.
    pub fn size(&self, kind: Option<Kind>) -> Outcome
        ensures { result ≡ told (on kind (size_outcome (seen self.now))) }
    {
        match kind {
            None => Outcome::Silent,
            Some(kind) => given_if(self.is_laid_out(kind), ULONG),
        }
    }

    /// The place of a field of a struct.
    pub fn offset(&self, kind: Option<Kind>, name: &Name) -> Outcome
        ensures { result ≡ told (on kind (offset_outcome (seen self.now) name.now)) }
    {
        match kind {
            None => Outcome::Silent,
            Some(kind) => self.place_in(kind, name),
        }
    }
}
