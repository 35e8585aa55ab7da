// Names and types as they are written.

ghost use Rattle.std.specs.Prelude.{◌≡◌};

use crate::operators::Ownership;
use sqlite_items::Items;
use vg_base::Span;

/// One word, without the `@` that makes a keyword a word.
pub struct Identifier {
    pub text: Items<u8>,
    pub span: Span,
}

impl Drop for Identifier {
    fn drop(self) {
        let Identifier { text, span: _ } = self;
        drop(text);
    }
}

impl Identifier {
    /// The bytes alone.
    pub fn into_text(self) -> Items<u8>
        ensures { result ≡ self.text }
    {
        let Identifier { text, span: _ } = self;
        text
    }
}

/// Words with dots between.
pub struct NameTree {
    pub words: Items<Identifier>,
    pub span: Span,
}

impl Drop for NameTree {
    fn drop(self) {
        let NameTree { words, span: _ } = self;
        drop(words);
    }
}

impl NameTree {
    /// The words alone.
    pub fn into_words(self) -> Items<Identifier>
        ensures { result ≡ self.words }
    {
        let NameTree { words, span: _ } = self;
        words
    }
}

/// A name, and whether `?` follows it.
pub struct Element {
    pub name: NameTree,
    pub is_nullable: bool,
    pub span: Span,
}

impl Drop for Element {
    fn drop(self) {
        let Element {
            name,
            is_nullable: _,
            span: _,
        } = self;
        drop(name);
    }
}

pub enum TypeShape {
    Void,
    Single(Element),
    /// The element, and whether `?` follows `[]`.
    Array(Element, bool),
}

impl Drop for TypeShape {
    fn drop(self) {
        match self {
            TypeShape::Single(it) => drop(it),
            TypeShape::Array(it, _) => drop(it),
            TypeShape::Void => {}
        }
    }
}

pub struct TypeTree {
    pub ownership: Option<Ownership>,
    pub shape: TypeShape,
    pub span: Span,
}

impl Drop for TypeTree {
    fn drop(self) {
        let TypeTree {
            ownership: _,
            shape,
            span: _,
        } = self;
        drop(shape);
    }
}
