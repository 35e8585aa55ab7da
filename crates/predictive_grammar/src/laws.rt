// The laws on the small grammar. The bodies do nothing: the clauses are theorems.

ghost use Rattle.predictive_grammar.specs.Small.{HasOneAnswer, HasOneTree, ReadsExactly};

/// Its readers answer what it says: the tree as far as a text goes, or the first fault.
pub fn small_texts_are_read_exactly()
    ensures { ReadsExactly }
{}

/// No text of it has two trees.
pub fn small_texts_have_one_tree()
    ensures { HasOneTree }
{}

/// Tokens have one answer: no two trees, and no tree and fault.
pub fn small_texts_have_one_answer()
    ensures { HasOneAnswer }
{}
