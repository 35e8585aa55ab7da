// The law on the small grammar. The body does nothing: the clause is a theorem.

ghost use Rattle.mending_readers.specs.Small.{IsMendedSmall};

/// Its mending readers give the trees that its readers read, and where there is a fault the tree of a text that goes on.
pub fn small_texts_are_mended()
    ensures { IsMendedSmall }
{}
