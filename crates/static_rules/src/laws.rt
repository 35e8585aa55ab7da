// What holds of the order of refusals.

ghost use Rattle.std.specs.Prelude.{◌≡◌, ◌⊎◌, IsTrue};
ghost use Rattle.static_rules.specs.Order.{is_earlier};
ghost use Rattle.static_rules.specs.declared.rules.Refusal.{Refusal};

/// No refusal stands before itself, what stands before an earlier one is earlier, and of two that differ one is earlier.
pub fn earlier_is_an_order()
    ensures irreflexive { (a : Refusal) → IsTrue (is_earlier a a) → ⊥ }
    ensures transitive { (a b c : Refusal) → IsTrue (is_earlier a b) → IsTrue (is_earlier b c) → IsTrue (is_earlier a c) }
    ensures total { (a b : Refusal) → (a ≡ b → ⊥) → IsTrue (is_earlier a b) ⊎ IsTrue (is_earlier b a) }
{}
