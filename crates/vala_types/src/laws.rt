// The laws on fits and changes. The bodies do nothing: the clauses are theorems.

ghost use Rattle.std.specs.Prelude.{◌≡◌, ◌<◌, ◌↔◌, ℕ, Bool, IsTrue, Option, Some, None, true, false};
ghost use Rattle.std.specs.Bool.{Decides};
ghost use Rattle.vala_types.specs.declared.types.IntKind.{IntKind};
ghost use Rattle.vala_types.specs.declared.types.Shape.{Shape};
ghost use Rattle.vala_types.specs.declared.types.Shape.TheVariants.{Class, Error, Int, Interface, Null, Struct};
ghost use Rattle.vala_types.specs.declared.types.VType.{VType};
ghost use Rattle.vala_types.specs.declared.ties.Ties.{Ties};
ghost use Rattle.vala_types.specs.declared.owners.Change.{Change};
ghost use Rattle.vala_types.specs.declared.owners.Change.TheVariants.{Keep, Move};
ghost use Rattle.vala_types.specs.Changes.{Changes, is_plain, made_by, owns, thing_made};
ghost use Rattle.vala_types.specs.Fits.{Fits, ShapeFits};
ghost use Rattle.vala_types.specs.Laws.{Breaks, IsObject, ObjectIsOnTop};
ghost use Rattle.vala_types.specs.Ranks.{rank};
ghost use Rattle.vala_types.specs.Tests.{has_base};
ghost use Rattle.vala_types.specs.Ties.{HasBase};

/// A walk of as many steps as there are rows finds each base, also where the bases go in a circle. Chains can be joined.
pub fn bases_are_found()
    ensures found { (ties : Ties) (number base : ℕ) → Decides (has_base ties number base) (HasBase ties number base) }
    ensures joined { (ties : Ties) (a b c : ℕ) → HasBase ties a b → HasBase ties b c → HasBase ties a c }
{}

/// What `fits` promises leaves it one answer.
pub fn one_answer()
    ensures { (ties : Ties) (from to : VType) (a b : Bool) → (IsTrue a ↔ Fits ties from to) → (IsTrue b ↔ Fits ties from to) → a ≡ b }
{}

/// A value of each type fits a place of that type, and the marks do not count.
pub fn each_type_fits_itself()
    ensures itself { (ties : Ties) (a : VType) → Fits ties a a }
    ensures unmarked { (ties : Ties) (a b c d : VType) → a.shape ≡ c.shape → b.shape ≡ d.shape → Fits ties a b → Fits ties c d }
{}

/// What fits a type fits what that type fits, if `Object` has no bases and a class with an interface has `Object` among its bases.
pub fn fits_go_on()
    ensures { (ties : Ties) (a b c : VType) → ObjectIsOnTop ties → IsObject ties a.shape → Fits ties a b → Fits ties b c → Fits ties a c }
{}

/// Both conditions are needed. A class that lists an interface alone does not fit `Object`, which the interface fits; and where
/// `Object` has a base, an interface does not fit it.
pub fn fits_do_not_always_go_on()
    ensures class { (ties : Ties) × (a b : ℕ) × Breaks ties (Class a) (Interface b) (Class ties.object) }
    ensures top { (ties : Ties) × (a c : ℕ) × Breaks ties (Interface a) (Class ties.object) (Class c) }
{}

/// What the table leaves out: an earlier integer type, another interface, a domain for an error of any domain, and null
/// for a number or a struct.
pub fn nothing_else_fits()
    ensures narrower { (ties : Ties) (a b : IntKind) → rank b < rank a → ShapeFits ties (Int a) (Int b) → ⊥ }
    ensures interfaces { (ties : Ties) (a b : ℕ) → ShapeFits ties (Interface a) (Interface b) → a ≡ b }
    ensures errors { (ties : Ties) (a : ℕ) → ShapeFits ties (Error None) (Error (Some a)) → ⊥ }
    ensures numbers { (ties : Ties) (a : IntKind) → ShapeFits ties Null (Int a) → ⊥ }
    ensures structs { (ties : Ties) (a : ℕ) → ShapeFits ties Null (Struct a) → ⊥ }
{}

/// Of two types there is exactly one change.
pub fn one_change()
    ensures some { (from to : VType) → (c : Change) × Changes from to c }
    ensures one { (from to : VType) (c d : Change) → Changes from to c → Changes from to d → c ≡ d }
{}

/// A change makes a thing exactly where a text, an array or an error that is not fresh goes into a place that owns.
pub fn copies_are_things()
    ensures { (from to : VType) (c : Change) → Changes from to c → made_by c ≡ thing_made from to }
{}

/// What goes into a place that owns has that owner, unless it can have none. Only what is fresh is moved, and only into such a
/// place. Nothing changes where a value goes into a place that does not own.
pub fn owners_are_right()
    ensures kept { (from to : VType) → Changes from to Keep → owns to ≡ true → is_plain from.shape ≡ true }
    ensures moved { (from to : VType) → Changes from to Move → (from.owned ≡ true) × (owns to ≡ true) }
    ensures borrowed { (ties : Ties) (from to : VType) (c : Change) → Fits ties from to → owns to ≡ false → Changes from to c → c ≡ Keep }
{}
