// The laws of the readers. The bodies do nothing: the clauses are theorems.

ghost use Rattle.vala_file_grammar.specs.FileAnswer.{HasAnswer, HasOneAnswer};
ghost use Rattle.vala_file_grammar.specs.Read.{HasOneTree, ReadsCode, ReadsExactly};

/// The reader of each part answers what the grammar says: the tree as far as a text goes, or the first fault.
pub fn files_are_read_exactly()
    ensures { ReadsExactly }
{}

/// No text of a part has two trees.
pub fn files_have_one_tree()
    ensures { HasOneTree }
{}

/// Of expressions, types and statements the readers are those of their own grammar.
pub fn code_is_read_as_before()
    ensures { ReadsCode }
{}

/// The bytes of each file have an answer: a tree or a refusal.
pub fn files_have_an_answer()
    ensures { HasAnswer }
{}

/// They have no other.
pub fn files_have_one_answer()
    ensures { HasOneAnswer }
{}
