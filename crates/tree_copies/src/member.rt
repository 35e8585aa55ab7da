// Copies of declarations and of files.

ghost use Rattle.std.specs.Prelude.{◌≡◌, IfOk};

use crate::code::{block, expr, optional_block, optional_expr};
use crate::names::{identifier, identifiers, name, names, type_tree, type_trees};
use sqlite_items::Items;
use std::alloc::{AllocError, Global};
use vala_tree::{
    Accessor, Attribute, AttributeArgument, Class, Constant, Construction, Creation, Declaration,
    Destructor, EnumMember, Enumeration, ErrorDomain, Field, FileTree, Getter, Member, Method,
    Parameter, Property, Setter, Signal, Signature, Text,
};
use vg_base::Memory;

fn text(alloc: Global, tree: &Text) -> Result<Text, AllocError>
    ensures { IfOk result (λ it. it ≡ tree.now) }
{
    Ok(Text {
        bytes: Items::from_slice(alloc, tree.bytes.as_slice())?,
        span: tree.span,
    })
}

fn attribute_argument(
    alloc: Global,
    tree: &AttributeArgument,
) -> Result<AttributeArgument, AllocError>
    ensures { IfOk result (λ it. it ≡ tree.now) }
{
    Ok(AttributeArgument {
        name: identifier(alloc, &tree.name)?,
        value: text(alloc, &tree.value)?,
    })
}

fn attribute_arguments(
    alloc: Global,
    trees: &[AttributeArgument],
) -> Result<Items<AttributeArgument>, AllocError>
    ensures { IfOk result (λ it. it ≡ trees.now) }
{
    let mut copy = Items::new(alloc);
    for tree in trees {
        copy.push(attribute_argument(alloc, tree)?)?;
    }
    Ok(copy)
}

fn attribute(alloc: Global, tree: &Attribute) -> Result<Attribute, AllocError>
    ensures { IfOk result (λ it. it ≡ tree.now) }
{
    Ok(Attribute {
        arguments: attribute_arguments(alloc, tree.arguments.as_slice())?,
        span: tree.span,
    })
}

fn attributes(alloc: Global, trees: &[Attribute]) -> Result<Items<Attribute>, AllocError>
    ensures { IfOk result (λ it. it ≡ trees.now) }
{
    let mut copy = Items::new(alloc);
    for tree in trees {
        copy.push(attribute(alloc, tree)?)?;
    }
    Ok(copy)
}

fn parameter(alloc: Global, tree: &Parameter) -> Result<Parameter, AllocError>
    ensures { IfOk result (λ it. it ≡ tree.now) }
{
    Ok(Parameter {
        direction: tree.direction,
        declared: type_tree(alloc, &tree.declared)?,
        name: identifier(alloc, &tree.name)?,
        default: optional_expr(alloc, &tree.default)?,
        span: tree.span,
    })
}

fn parameters(alloc: Global, trees: &[Parameter]) -> Result<Items<Parameter>, AllocError>
    ensures { IfOk result (λ it. it ≡ trees.now) }
{
    let mut copy = Items::new(alloc);
    for tree in trees {
        copy.push(parameter(alloc, tree)?)?;
    }
    Ok(copy)
}

fn signature(alloc: Global, tree: &Signature) -> Result<Signature, AllocError>
    ensures { IfOk result (λ it. it ≡ tree.now) }
{
    Ok(Signature {
        result: type_tree(alloc, &tree.result)?,
        name: identifier(alloc, &tree.name)?,
        parameters: parameters(alloc, tree.parameters.as_slice())?,
        throws: type_trees(alloc, tree.throws.as_slice())?,
    })
}

fn enum_member(alloc: Global, tree: &EnumMember) -> Result<EnumMember, AllocError>
    ensures { IfOk result (λ it. it ≡ tree.now) }
{
    Ok(EnumMember {
        name: identifier(alloc, &tree.name)?,
        value: optional_expr(alloc, &tree.value)?,
        span: tree.span,
    })
}

fn enum_members(alloc: Global, trees: &[EnumMember]) -> Result<Items<EnumMember>, AllocError>
    ensures { IfOk result (λ it. it ≡ trees.now) }
{
    let mut copy = Items::new(alloc);
    for tree in trees {
        copy.push(enum_member(alloc, tree)?)?;
    }
    Ok(copy)
}

fn enumeration(alloc: Global, tree: &Enumeration) -> Result<Enumeration, AllocError>
    ensures { IfOk result (λ it. it ≡ tree.now) }
{
    Ok(Enumeration {
        name: name(alloc, &tree.name)?,
        members: enum_members(alloc, tree.members.as_slice())?,
    })
}

fn error_domain(alloc: Global, tree: &ErrorDomain) -> Result<ErrorDomain, AllocError>
    ensures { IfOk result (λ it. it ≡ tree.now) }
{
    Ok(ErrorDomain {
        name: name(alloc, &tree.name)?,
        codes: identifiers(alloc, tree.codes.as_slice())?,
    })
}

fn constant(alloc: Global, tree: &Constant) -> Result<Constant, AllocError>
    ensures { IfOk result (λ it. it ≡ tree.now) }
{
    Ok(Constant {
        declared: type_tree(alloc, &tree.declared)?,
        name: identifier(alloc, &tree.name)?,
        value: expr(alloc, &tree.value)?,
    })
}

fn field(alloc: Global, tree: &Field) -> Result<Field, AllocError>
    ensures { IfOk result (λ it. it ≡ tree.now) }
{
    Ok(Field {
        declared: type_tree(alloc, &tree.declared)?,
        name: identifier(alloc, &tree.name)?,
        value: optional_expr(alloc, &tree.value)?,
    })
}

fn method(alloc: Global, tree: &Method) -> Result<Method, AllocError>
    ensures { IfOk result (λ it. it ≡ tree.now) }
{
    Ok(Method {
        signature: signature(alloc, &tree.signature)?,
        body: optional_block(alloc, &tree.body)?,
    })
}

fn creation(alloc: Global, tree: &Creation) -> Result<Creation, AllocError>
    ensures { IfOk result (λ it. it ≡ tree.now) }
{
    Ok(Creation {
        name: name(alloc, &tree.name)?,
        parameters: parameters(alloc, tree.parameters.as_slice())?,
        throws: type_trees(alloc, tree.throws.as_slice())?,
        body: optional_block(alloc, &tree.body)?,
    })
}

fn destructor(alloc: Global, tree: &Destructor) -> Result<Destructor, AllocError>
    ensures { IfOk result (λ it. it ≡ tree.now) }
{
    Ok(Destructor {
        name: identifier(alloc, &tree.name)?,
        body: block(alloc, &tree.body)?,
    })
}

fn construction(alloc: Global, tree: &Construction) -> Result<Construction, AllocError>
    ensures { IfOk result (λ it. it ≡ tree.now) }
{
    Ok(Construction {
        word: tree.word,
        body: block(alloc, &tree.body)?,
    })
}

fn getter(alloc: Global, tree: &Getter) -> Result<Getter, AllocError>
    ensures { IfOk result (λ it. it ≡ tree.now) }
{
    Ok(Getter {
        modifier: tree.modifier,
        is_owned: tree.is_owned,
        word: tree.word,
        body: optional_block(alloc, &tree.body)?,
    })
}

fn setter(alloc: Global, tree: &Setter) -> Result<Setter, AllocError>
    ensures { IfOk result (λ it. it ≡ tree.now) }
{
    Ok(Setter {
        modifier: tree.modifier,
        words: tree.words,
        body: optional_block(alloc, &tree.body)?,
    })
}

fn accessor(alloc: Global, tree: &Accessor) -> Result<Accessor, AllocError>
    ensures { IfOk result (λ it. it ≡ tree.now) }
{
    match tree {
        Accessor::Get(part, span) => Ok(Accessor::Get(getter(alloc, part)?, *span)),
        Accessor::Set(part, span) => Ok(Accessor::Set(setter(alloc, part)?, *span)),
        Accessor::Default(word, value, span) => {
            Ok(Accessor::Default(*word, expr(alloc, value)?, *span))
        }
    }
}

fn accessors(alloc: Global, trees: &[Accessor]) -> Result<Items<Accessor>, AllocError>
    ensures { IfOk result (λ it. it ≡ trees.now) }
{
    let mut copy = Items::new(alloc);
    for tree in trees {
        copy.push(accessor(alloc, tree)?)?;
    }
    Ok(copy)
}

fn property(alloc: Global, tree: &Property) -> Result<Property, AllocError>
    ensures { IfOk result (λ it. it ≡ tree.now) }
{
    Ok(Property {
        declared: type_tree(alloc, &tree.declared)?,
        name: identifier(alloc, &tree.name)?,
        accessors: accessors(alloc, tree.accessors.as_slice())?,
    })
}

fn signal(alloc: Global, tree: &Signal) -> Result<Signal, AllocError>
    ensures { IfOk result (λ it. it ≡ tree.now) }
{
    Ok(Signal {
        name: identifier(alloc, &tree.name)?,
        parameters: parameters(alloc, tree.parameters.as_slice())?,
        body: optional_block(alloc, &tree.body)?,
    })
}

#[cycle(member)]
fn class(alloc: Global, tree: &Class) -> Result<Class, AllocError>
    ensures { IfOk result (λ it. it ≡ tree.now) }
{
    Ok(Class {
        name: name(alloc, &tree.name)?,
        bases: type_trees(alloc, tree.bases.as_slice())?,
        parts: members(alloc, tree.parts.as_slice())?,
    })
}

#[cycle(member)]
fn declaration(alloc: Global, tree: &Declaration) -> Result<Declaration, AllocError>
    ensures { IfOk result (λ it. it ≡ tree.now) }
{
    match tree {
        Declaration::Namespace(title, parts) => Ok(Declaration::Namespace(
            name(alloc, title)?,
            members(alloc, parts.as_slice())?,
        )),
        Declaration::Class(part) => Ok(Declaration::Class(class(alloc, part)?)),
        Declaration::Interface(part) => Ok(Declaration::Interface(class(alloc, part)?)),
        Declaration::Struct(title, fields) => Ok(Declaration::Struct(
            name(alloc, title)?,
            members(alloc, fields.as_slice())?,
        )),
        Declaration::Enum(part) => Ok(Declaration::Enum(enumeration(alloc, part)?)),
        Declaration::Errors(part) => Ok(Declaration::Errors(error_domain(alloc, part)?)),
        Declaration::Delegate(part) => Ok(Declaration::Delegate(signature(alloc, part)?)),
        Declaration::Constant(part) => Ok(Declaration::Constant(constant(alloc, part)?)),
        Declaration::Field(part) => Ok(Declaration::Field(field(alloc, part)?)),
        Declaration::Method(part) => Ok(Declaration::Method(method(alloc, part)?)),
        Declaration::Creation(part) => Ok(Declaration::Creation(creation(alloc, part)?)),
        Declaration::Destructor(part) => Ok(Declaration::Destructor(destructor(alloc, part)?)),
        Declaration::Property(part) => Ok(Declaration::Property(property(alloc, part)?)),
        Declaration::Signal(part) => Ok(Declaration::Signal(signal(alloc, part)?)),
        Declaration::Construct(part) => Ok(Declaration::Construct(construction(alloc, part)?)),
    }
}

#[cycle(member)]
fn member(alloc: Global, tree: &Member) -> Result<Member, AllocError>
    ensures { IfOk result (λ it. it ≡ tree.now) }
{
    Ok(Member {
        attributes: attributes(alloc, tree.attributes.as_slice())?,
        modifiers: Items::from_slice(alloc, tree.modifiers.as_slice())?,
        declaration: declaration(alloc, &tree.declaration)?,
        span: tree.span,
    })
}

#[cycle(member)]
fn members(alloc: Global, trees: &[Member]) -> Result<Items<Member>, AllocError>
    ensures { IfOk result (λ it. it ≡ trees.now) }
{
    let mut copy = Items::new(alloc);
    for tree in trees {
        copy.push(member(alloc, tree)?)?;
    }
    Ok(copy)
}

/// An equal tree.
pub fn clone_in(alloc: Global, tree: &FileTree) -> Result<FileTree, Memory>
    ensures { IfOk result (λ it. it ≡ tree.now) }
{
    file(alloc, tree).map_err(|_| Memory)
}

fn file(alloc: Global, tree: &FileTree) -> Result<FileTree, AllocError>
    ensures { IfOk result (λ it. it ≡ tree.now) }
{
    Ok(FileTree {
        usings: names(alloc, tree.usings.as_slice())?,
        members: members(alloc, tree.members.as_slice())?,
        tokens: tree.tokens,
    })
}
