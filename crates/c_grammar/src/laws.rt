// The laws of the grammar. The bodies do nothing: the clauses are theorems.

ghost use Rattle.c_grammar.specs.Fronts.{FrontsAreCompleted};
ghost use Rattle.c_grammar.specs.Laws.{BlocksAreTold, HasOneTree, ItemsAreTold, LevelsAreCounted, ReadsExactly, StatementsAreTold, TextsAreMended, TypesAreTold, ValuesAreTold};
ghost use Rattle.c_tree.specs.Laws.{OneAnswer, OneUnit};

use c_tree::one_answer;

/// The reader of each part answers what the grammar says: the tree as far as a text goes, or the first fault.
pub fn texts_are_read_exactly()
    ensures { ReadsExactly }
{}

/// No text of a part has two trees.
pub fn texts_have_one_tree()
    ensures { HasOneTree }
{}

/// The texts of types and values are those of c_tree, with the same trees.
pub fn values_are_told()
    ensures types { TypesAreTold }
    ensures values { ValuesAreTold }
{}

/// The same of statements and blocks.
pub fn statements_are_told()
    ensures statements { StatementsAreTold }
    ensures blocks { BlocksAreTold }
{}

/// The same of items.
pub fn items_are_told()
    ensures { ItemsAreTold }
{}

/// Tokens are one unit at most.
pub fn tokens_are_one_unit()
    ensures { OneUnit }
{}

/// The levels of a text of items are within the limits exactly where no more than 64 brackets are open anywhere.
pub fn levels_are_counted()
    ensures { LevelsAreCounted }
{}

/// Bytes have one answer at most: a unit or one refusal.
pub fn bytes_have_one_answer()
    ensures { OneAnswer }
{
    one_answer();
    tokens_are_one_unit();
}

/// Where the reader of a part finds a fault, the mending reader gives the tree of a text that goes on, else what is read.
pub fn texts_are_mended()
    ensures { TextsAreMended }
{}

/// The mending reader of items gives the items of a text, or what stops it and items that its front begins.
pub fn fronts_are_completed()
    ensures { FrontsAreCompleted }
{}
