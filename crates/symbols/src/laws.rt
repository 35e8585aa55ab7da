// The laws on names. The bodies do nothing: the clauses are theorems.

ghost use Rattle.std.specs.Prelude.{◌≡◌, ◌++◌, ◌==◌, ℕ, List, [], Some, codes, false};
ghost use Rattle.std.specs.List.{IsDistinct, list_any};
ghost use Rattle.vg_base.specs.declared.event.Span.{Span};
ghost use Rattle.symbols.specs.declared.table.Names.{Names};
ghost use Rattle.symbols.specs.declared.table.Symbol.{Symbol};
ghost use Rattle.symbols.specs.Faults.{faults_of, is_same_name, same_c_name};
ghost use Rattle.symbols.specs.Laws.{Means, with_symbol};
ghost use Rattle.symbols.specs.Outline.{Outline};
ghost use Rattle.symbols.specs.Search.{Meaning, meaning_of, nearest};
ghost use Rattle.symbols.specs.Spelling.{all_c_names, free_name, joined_words};

/// A name means a declaration exactly where no nearer one of that name stands, or none does and one is met in the namespaces in use;
/// it is unknown where there is none, and ambiguous where two are met there.
pub fn names_mean_the_nearest()
    ensures means { (ns : Names) (scope : ℕ) (name : List ℕ) (place : Span) (m : Meaning) → meaning_of ns scope name place ≡ m → Means ns scope name place m }
    ensures meant { (ns : Names) (scope : ℕ) (name : List ℕ) (place : Span) (m : Meaning) → Means ns scope name place m → meaning_of ns scope name place ≡ m }
{}

/// A declaration that is added to an outer scope changes no name that is found in the scopes inside it.
pub fn inner_names_stay()
    ensures { (ns : Names) (added : Symbol) (name : List ℕ) (place : ℕ) (inner outer : List ℕ) (s : ℕ) → list_any (λ scope. added.scope == scope) inner ≡ false → nearest ns name place inner ≡ Some s → nearest (with_symbol added ns) name place (inner ++ outer) ≡ Some s }
{}

/// Where no rule of declarations is broken, names in one scope differ, and so do all C names.
pub fn accepted_names_differ()
    ensures names { (o : Outline) → faults_of o ≡ [] → IsDistinct is_same_name o.declared }
    ensures c_names { (o : Outline) → faults_of o ≡ [] → IsDistinct same_c_name (all_c_names o) }
{}

/// How a name is cut into words, and which names are changed since C has them.
pub fn words_are_split()
    ensures small_and_capital { joined_words (codes "getValue") ≡ codes "get_value" }
    ensures capitals_and_word { joined_words (codes "HTTPServer") ≡ codes "http_server" }
    ensures one_capital { joined_words (codes "GObject") ≡ codes "g_object" }
    ensures digit { joined_words (codes "X2Y") ≡ codes "x2_y" }
    ensures capitals { joined_words (codes "LOAD") ≡ codes "load" }
    ensures keyword { free_name (codes "double") ≡ codes "_vala_double" }
    ensures function { free_name (codes "g_free") ≡ codes "_vala_g_free" }
    ensures free { free_name (codes "get_value") ≡ codes "get_value" }
{}
