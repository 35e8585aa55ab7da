// The laws on refusals: the clauses are theorems. The bodies do nothing but recall the order of refusals.

ghost use Rattle.std.specs.Prelude.{◌≡◌, ◌∷◌, ℕ, Bool, List, false};
ghost use Rattle.static_rules.specs.declared.rules.Refusal.{Refusal};
ghost use Rattle.static_rules.specs.Order.{is_earlier};
ghost use Rattle.symbols.specs.Laws.{IsIn};
ghost use Rattle.breaks.specs.Order.{in_order};
ghost use Rattle.breaks.specs.Breaks.{Breaks};

use static_rules::earlier_is_an_order;

/// Refusals that are put in order are the same, and none is earlier than the first.
pub fn first_is_earliest()
    ensures kept { (r : Refusal) (rs : List Refusal) → IsIn r rs → IsIn r (in_order rs) }
    ensures none_made { (r : Refusal) (rs : List Refusal) → IsIn r (in_order rs) → IsIn r rs }
    ensures earliest { (q r : Refusal) (rs ordered : List Refusal) → in_order rs ≡ r ∷ ordered → IsIn q rs → is_earlier q r ≡ false }
{
    earlier_is_an_order();
}

/// Files break one list of rules.
pub fn one_list_is_broken()
    ensures { (files : List (List ℕ)) (strict : Bool) (rs qs : List Refusal) → Breaks files strict rs → Breaks files strict qs → rs ≡ qs }
{}
