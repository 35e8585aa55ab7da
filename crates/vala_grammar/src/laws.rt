// The laws of the readers. The bodies do nothing: the clauses are theorems.

ghost use Rattle.vala_grammar.specs.Read.{HasOneTree, ReadsExactly};

/// The reader of each part answers what the grammar says: the tree as far as a text goes, or the first fault.
pub fn texts_are_read_exactly()
    ensures { ReadsExactly }
{}

/// No text of a part has two trees.
pub fn texts_have_one_tree()
    ensures { HasOneTree }
{}
