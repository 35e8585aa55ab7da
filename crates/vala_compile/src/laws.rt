// The laws on the definitions. The bodies do nothing: the clauses are theorems.

ghost use Rattle.std.specs.Prelude.{◌≡◌, ℕ, Bool, List, ◌∷◌};
ghost use Rattle.static_rules.specs.declared.rules.Refusal.{Refusal};
ghost use Rattle.c_emit.specs.Program.{Program};
ghost use Rattle.vala_compile.specs.Program.{Reads, Breaks};
ghost use Rattle.vala_compile.specs.Correct.{IsCompiled};

/// Files are at most one program.
pub fn one_program()
    ensures { (files : List (List ℕ)) (p q : Program) → Reads files p → Reads files q → p ≡ q }
{}

/// Files break one list of rules, and what breaks a rule is never compiled.
pub fn breaks_are_determined()
    ensures same { (files : List (List ℕ)) (strict : Bool) (rs ss : List Refusal) → Breaks files strict rs → Breaks files strict ss → rs ≡ ss }
    ensures refused { (files : List (List ℕ)) (strict : Bool) (c : List ℕ) (r : Refusal) (rs : List Refusal) → IsCompiled files strict c → Breaks files strict (r ∷ rs) → ⊥ }
{}
