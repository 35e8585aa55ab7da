// The laws on classes. The bodies do nothing: the clauses are theorems.

ghost use Rattle.std.specs.Prelude.{◌≡◌, ◌==◌, ◌∷◌, ℕ, List, [], Some, true, false};
ghost use Rattle.std.specs.List.{IsDistinct};
ghost use Rattle.vala_tree.specs.declared.member.FileTree.{FileTree};
ghost use Rattle.symbols.specs.declared.table.Names.{Names};
ghost use Rattle.symbols.specs.Laws.{IsIn};
ghost use Rattle.symbols.specs.Table.{names_of};
ghost use Rattle.class_table.specs.Trees.{Program, program_of, is_abstract};
ghost use Rattle.class_table.specs.Bases.{chain, is_class, lineage};
ghost use Rattle.class_table.specs.Slots.{slots, standing};
ghost use Rattle.class_table.specs.Faults.{class_faults};
ghost use Rattle.class_table.specs.Laws.{Chain, HasBody, HasNoCycle, IsOfClass, MostDerived};

/// Base classes that come to an end have no repetition, and are the ones that are computed. They come to an end where no class is among
/// its own base classes.
pub fn base_classes_end()
    ensures distinct { (p : Program) (n : ℕ) (cs : List ℕ) → Chain p n cs → IsDistinct (λ x y. x == y) (n ∷ cs) }
    ensures computed { (ns : Names) (files : List FileTree) (n : ℕ) (cs : List ℕ) → Chain (program_of ns files) n cs → chain (program_of ns files) n ≡ cs }
    ensures ended { (ns : Names) (files : List FileTree) → HasNoCycle (program_of ns files) → (n : ℕ) → Chain (program_of ns files) n (chain (program_of ns files) n) }
{}

/// What stands in a slot that a class introduced is its most derived override, and that alone.
pub fn most_derived_is_reached()
    ensures reached { (p : Program) (slot : ℕ) (cs : List ℕ) (m : ℕ) → IsOfClass p slot cs → standing p cs slot ≡ Some m → MostDerived p slot cs m }
    ensures stands { (p : Program) (slot : ℕ) (cs : List ℕ) (m : ℕ) → IsOfClass p slot cs → MostDerived p slot cs m → standing p cs slot ≡ Some m }
{}

/// A slot of a base class is a slot of the class.
pub fn slots_are_inherited()
    ensures { (ns : Names) (files : List FileTree) (c b s : ℕ) (cs : List ℕ) → Chain (program_of ns files) c cs → IsIn b cs → IsIn s (slots (program_of ns files) b) → IsIn s (slots (program_of ns files) c) }
{}

/// Where no rule of bases and overriding is broken, each slot of a class that is not abstract has a member that is not.
pub fn accepted_slots_have_bodies()
    ensures { (files : List FileTree) (c s : ℕ) → class_faults files ≡ [] → is_class (program_of (names_of files) files) c ≡ true → is_abstract (program_of (names_of files) files) c ≡ false
        → IsIn s (slots (program_of (names_of files) files) c) → HasBody (program_of (names_of files) files) c s }
{}
