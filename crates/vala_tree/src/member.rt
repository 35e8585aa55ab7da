// What a file declares.

use crate::code::{Block, Expr};
use crate::names::{Identifier, NameTree, TypeTree};
use sqlite_items::Items;
use vg_base::Span;

/// The bytes of a text literal.
pub struct Text {
    pub bytes: Items<u8>,
    pub span: Span,
}

impl Drop for Text {
    fn drop(self) {
        let Text { bytes, span: _ } = self;
        drop(bytes);
    }
}

/// `name = "text"` in an attribute.
pub struct AttributeArgument {
    pub name: Identifier,
    pub value: Text,
}

impl Drop for AttributeArgument {
    fn drop(self) {
        let AttributeArgument { name, value } = self;
        drop(name);
        drop(value);
    }
}

/// `[CCode (..)]`
pub struct Attribute {
    pub arguments: Items<AttributeArgument>,
    pub span: Span,
}

impl Drop for Attribute {
    fn drop(self) {
        let Attribute { arguments, span: _ } = self;
        drop(arguments);
    }
}

#[derive(Clone, Copy)]
pub enum ModifierWord {
    Public,
    Protected,
    Internal,
    Private,
    Static,
    Abstract,
    Virtual,
    Override,
    Async,
    Inline,
}

#[derive(Clone, Copy)]
pub struct Modifier {
    pub word: ModifierWord,
    pub span: Span,
}

/// How a parameter is passed, where a word says so.
#[derive(Clone, Copy)]
pub enum Direction {
    Out,
    Ref,
}

pub struct Parameter {
    pub direction: Option<Direction>,
    pub declared: TypeTree,
    pub name: Identifier,
    pub default: Option<Expr>,
    pub span: Span,
}

impl Drop for Parameter {
    fn drop(self) {
        let Parameter {
            direction: _,
            declared,
            name,
            default,
            span: _,
        } = self;
        drop(declared);
        drop(name);
        drop(default);
    }
}

/// What a method and a delegate are called by.
pub struct Signature {
    pub result: TypeTree,
    pub name: Identifier,
    pub parameters: Items<Parameter>,
    pub throws: Items<TypeTree>,
}

impl Drop for Signature {
    fn drop(self) {
        let Signature {
            result,
            name,
            parameters,
            throws,
        } = self;
        drop(result);
        drop(name);
        drop(parameters);
        drop(throws);
    }
}

pub struct EnumMember {
    pub name: Identifier,
    pub value: Option<Expr>,
    pub span: Span,
}

impl Drop for EnumMember {
    fn drop(self) {
        let EnumMember {
            name,
            value,
            span: _,
        } = self;
        drop(name);
        drop(value);
    }
}

pub struct Enumeration {
    pub name: NameTree,
    pub members: Items<EnumMember>,
}

impl Drop for Enumeration {
    fn drop(self) {
        let Enumeration { name, members } = self;
        drop(name);
        drop(members);
    }
}

pub struct ErrorDomain {
    pub name: NameTree,
    pub codes: Items<Identifier>,
}

impl Drop for ErrorDomain {
    fn drop(self) {
        let ErrorDomain { name, codes } = self;
        drop(name);
        drop(codes);
    }
}

pub struct Constant {
    pub declared: TypeTree,
    pub name: Identifier,
    pub value: Expr,
}

impl Drop for Constant {
    fn drop(self) {
        let Constant {
            declared,
            name,
            value,
        } = self;
        drop(declared);
        drop(name);
        drop(value);
    }
}

pub struct Field {
    pub declared: TypeTree,
    pub name: Identifier,
    pub value: Option<Expr>,
}

impl Drop for Field {
    fn drop(self) {
        let Field {
            declared,
            name,
            value,
        } = self;
        drop(declared);
        drop(name);
        drop(value);
    }
}

/// Without a body where `;` stands in its place.
pub struct Method {
    pub signature: Signature,
    pub body: Option<Block>,
}

impl Drop for Method {
    fn drop(self) {
        let Method { signature, body } = self;
        drop(signature);
        drop(body);
    }
}

/// A creation method, by the class's name or by that, a dot and its own name.
pub struct Creation {
    pub name: NameTree,
    pub parameters: Items<Parameter>,
    pub throws: Items<TypeTree>,
    pub body: Option<Block>,
}

impl Drop for Creation {
    fn drop(self) {
        let Creation {
            name,
            parameters,
            throws,
            body,
        } = self;
        drop(name);
        drop(parameters);
        drop(throws);
        drop(body);
    }
}

/// The name is that behind `~`.
pub struct Destructor {
    pub name: Identifier,
    pub body: Block,
}

impl Drop for Destructor {
    fn drop(self) {
        let Destructor { name, body } = self;
        drop(name);
        drop(body);
    }
}

/// The place of the word `construct`, and the block behind it.
pub struct Construction {
    pub word: Span,
    pub body: Block,
}

impl Drop for Construction {
    fn drop(self) {
        let Construction { word: _, body } = self;
        drop(body);
    }
}

/// The words of an accessor that writes, in their order, by their places.
#[derive(Clone, Copy)]
pub enum SetterWords {
    Set(Span),
    Construct(Span),
    SetConstruct(Span, Span),
    ConstructSet(Span, Span),
}

pub struct Getter {
    pub modifier: Option<Modifier>,
    pub is_owned: bool,
    /// The place of the word `get`.
    pub word: Span,
    pub body: Option<Block>,
}

impl Drop for Getter {
    fn drop(self) {
        let Getter {
            modifier: _,
            is_owned: _,
            word: _,
            body,
        } = self;
        drop(body);
    }
}

pub struct Setter {
    pub modifier: Option<Modifier>,
    pub words: SetterWords,
    pub body: Option<Block>,
}

impl Drop for Setter {
    fn drop(self) {
        let Setter {
            modifier: _,
            words: _,
            body,
        } = self;
        drop(body);
    }
}

pub enum Accessor {
    Get(Getter, Span),
    Set(Setter, Span),
    /// The place of the word `default`, and the value.
    Default(Span, Expr, Span),
}

impl Drop for Accessor {
    fn drop(self) {
        match self {
            Accessor::Get(it, _) => drop(it),
            Accessor::Set(it, _) => drop(it),
            Accessor::Default(_, it, _) => drop(it),
        }
    }
}

pub struct Property {
    pub declared: TypeTree,
    pub name: Identifier,
    pub accessors: Items<Accessor>,
}

impl Drop for Property {
    fn drop(self) {
        let Property {
            declared,
            name,
            accessors,
        } = self;
        drop(declared);
        drop(name);
        drop(accessors);
    }
}

/// Without a handler of the class where `;` stands in its place.
pub struct Signal {
    pub name: Identifier,
    pub parameters: Items<Parameter>,
    pub body: Option<Block>,
}

impl Drop for Signal {
    fn drop(self) {
        let Signal {
            name,
            parameters,
            body,
        } = self;
        drop(name);
        drop(parameters);
        drop(body);
    }
}

#[cycle(member)]
pub struct Class {
    pub name: NameTree,
    pub bases: Items<TypeTree>,
    pub parts: Items<Member>,
}

impl Drop for Class {
    #[cycle(dropped)]
    fn drop(self) {
        let Class { name, bases, parts } = self;
        drop(name);
        drop(bases);
        drop(parts);
    }
}

#[cycle(member)]
pub enum Declaration {
    Namespace(NameTree, Items<Member>),
    Class(Class),
    Interface(Class),
    Struct(NameTree, Items<Member>),
    Enum(Enumeration),
    Errors(ErrorDomain),
    Delegate(Signature),
    Constant(Constant),
    Field(Field),
    Method(Method),
    Creation(Creation),
    Destructor(Destructor),
    Property(Property),
    Signal(Signal),
    Construct(Construction),
}

impl Drop for Declaration {
    #[cycle(dropped)]
    fn drop(self) {
        match self {
            Declaration::Namespace(first, second) => {
                drop(first);
                drop(second);
            }
            Declaration::Class(it) => drop(it),
            Declaration::Interface(it) => drop(it),
            Declaration::Struct(first, second) => {
                drop(first);
                drop(second);
            }
            Declaration::Enum(it) => drop(it),
            Declaration::Errors(it) => drop(it),
            Declaration::Delegate(it) => drop(it),
            Declaration::Constant(it) => drop(it),
            Declaration::Field(it) => drop(it),
            Declaration::Method(it) => drop(it),
            Declaration::Creation(it) => drop(it),
            Declaration::Destructor(it) => drop(it),
            Declaration::Property(it) => drop(it),
            Declaration::Signal(it) => drop(it),
            Declaration::Construct(it) => drop(it),
        }
    }
}

/// A declaration at the top of a file, in a namespace, or in a type.
#[cycle(member)]
pub struct Member {
    pub attributes: Items<Attribute>,
    pub modifiers: Items<Modifier>,
    pub declaration: Declaration,
    pub span: Span,
}

impl Drop for Member {
    #[cycle(dropped)]
    fn drop(self) {
        let Member {
            attributes,
            modifiers,
            declaration,
            span: _,
        } = self;
        drop(attributes);
        drop(modifiers);
        drop(declaration);
    }
}

/// One source file.
pub struct FileTree {
    pub usings: Items<NameTree>,
    pub members: Items<Member>,
    /// How many tokens it has.
    pub tokens: u64,
}

impl Drop for FileTree {
    fn drop(self) {
        let FileTree {
            usings,
            members,
            tokens: _,
        } = self;
        drop(usings);
        drop(members);
    }
}
