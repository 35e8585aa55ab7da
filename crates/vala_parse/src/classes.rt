// The name of a class.

ghost use Rattle.std.specs.Prelude.{◌≡◌};
ghost use Rattle.vg_base.specs.declared.event.Span.{Span};
ghost use Rattle.vala_file_grammar.specs.Trees as tree;

use vala_file_grammar::same_letters;
use vala_tree::{Identifier, NameTree};

fn last_of(words: &[Identifier]) -> &[u8]
    ensures { (s : Span) → result.now ≡ tree.last_word (record { words = words.now; span = s }) }
{
    match words {
        [] => &[],
        [first, others @ ..] => match others {
            [] => first.text.as_slice(),
            [_, ..] => last_of(others),
        },
    }
}

/// The last word of a name.
pub fn last_word(name: &NameTree) -> &[u8]
    ensures { result.now ≡ tree.last_word name.now }
{
    last_of(name.words.as_slice())
}

/// Whether a creation method of the class whose name ends with the word has the name.
pub fn names_creation(class: &[u8], name: &NameTree) -> bool
    ensures { result ≡ tree.names_creation class.now name.now }
{
    match name.words.as_slice() {
        [first] | [first, _] => same_letters(class, first.text.as_slice()),
        _ => false,
    }
}
