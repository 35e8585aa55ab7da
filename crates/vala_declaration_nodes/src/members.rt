// Members of types, constants and delegates.

ghost use Rattle.std.specs.Prelude.{◌≡◌, IfOk};
ghost use Rattle.vala_declaration_nodes.specs.Views.{closed_of, declared_of, ending_of};
ghost use Rattle.vala_file_grammar.specs.Trees as tree;
ghost use Rattle.vala_nodes.specs.Seen.{seen};

use crate::parameters::signature;
use crate::parts::{Closed, Declared, Ending, spanning, unboxed};
use sqlite_items::{Boxed, Items};
use std::alloc::{AllocError, Global};
use vala_lexer::Token;
use vala_nodes::names::identifier;
use vala_nodes::operands;
use vala_tree::{
    Accessor, Block, Constant, Construction, Creation, Declaration, Destructor, Expr, Field,
    Method, NameTree, Parameter, Property, Signal, Signature, TypeTree,
};

pub fn delegate(token: Token<'_>, called: Signature, close: Token<'_>) -> Declared
    ensures { declared_of result ≡ tree.delegate (seen token.entry) called (seen close.entry) }
{
    spanning(Declaration::Delegate(called), token.span, close.span)
}

pub fn constant(
    alloc: Global,
    token: Token<'_>,
    declared_type: TypeTree,
    name: Token<'_>,
    value: Boxed<Expr>,
    close: Token<'_>,
) -> Result<Declared, AllocError>
    ensures { IfOk result (λ x. declared_of x ≡ tree.constant (seen token.entry) declared_type (seen name.entry) value (seen close.entry)) }
{
    let name = identifier(alloc, name)?;
    let constant = Constant {
        declared: declared_type,
        name,
        value: value.into_inner(),
    };
    Ok(spanning(Declaration::Constant(constant), token.span, close.span))
}

pub fn field(
    alloc: Global,
    declared_type: TypeTree,
    name: Token<'_>,
    value: Option<Boxed<Expr>>,
    close: Token<'_>,
) -> Result<Declared, AllocError>
    ensures { IfOk result (λ x. declared_of x ≡ tree.field declared_type (seen name.entry) value (seen close.entry)) }
{
    let first = declared_type.span;
    let name = identifier(alloc, name)?;
    let field = Field {
        declared: declared_type,
        name,
        value: operands::unboxed(value),
    };
    Ok(spanning(Declaration::Field(field), first, close.span))
}

pub fn method(
    alloc: Global,
    returned: TypeTree,
    name: Token<'_>,
    parameters: Items<Parameter>,
    throws: Items<TypeTree>,
    body: Ending,
) -> Result<Declared, AllocError>
    ensures { IfOk result (λ x. declared_of x ≡ tree.method returned (seen name.entry) parameters throws (ending_of body)) }
{
    let first = returned.span;
    let signature = signature(alloc, returned, name, parameters, throws)?;
    let method = Method {
        signature,
        body: unboxed(body.block),
    };
    Ok(spanning(Declaration::Method(method), first, body.last))
}

pub fn creation(
    name: NameTree,
    parameters: Items<Parameter>,
    throws: Items<TypeTree>,
    body: Ending,
) -> Declared
    ensures { declared_of result ≡ tree.creation name parameters throws (ending_of body) }
{
    let first = name.span;
    let creation = Creation {
        name,
        parameters,
        throws,
        body: unboxed(body.block),
    };
    spanning(Declaration::Creation(creation), first, body.last)
}

pub fn destructor(
    alloc: Global,
    token: Token<'_>,
    name: Token<'_>,
    body: Boxed<Block>,
) -> Result<Declared, AllocError>
    ensures { IfOk result (λ x. declared_of x ≡ tree.destructor (seen token.entry) (seen name.entry) body) }
{
    let last = body.get().span;
    let name = identifier(alloc, name)?;
    let destructor = Destructor {
        name,
        body: body.into_inner(),
    };
    Ok(spanning(Declaration::Destructor(destructor), token.span, last))
}

/// `construct` and its block.
pub fn construction(token: Token<'_>, body: Boxed<Block>) -> Declared
    ensures { declared_of result ≡ tree.construction (seen token.entry) body }
{
    let last = body.get().span;
    let construction = Construction {
        word: token.span,
        body: body.into_inner(),
    };
    spanning(Declaration::Construct(construction), token.span, last)
}

pub fn property(
    alloc: Global,
    declared_type: TypeTree,
    name: Token<'_>,
    accessors: Closed<Accessor>,
) -> Result<Declared, AllocError>
    ensures { IfOk result (λ x. declared_of x ≡ tree.property declared_type (seen name.entry) (closed_of accessors)) }
{
    let first = declared_type.span;
    let property = Property {
        declared: declared_type,
        name: identifier(alloc, name)?,
        accessors: accessors.list,
    };
    Ok(spanning(Declaration::Property(property), first, accessors.close))
}

pub fn signal(
    alloc: Global,
    token: Token<'_>,
    name: Token<'_>,
    parameters: Items<Parameter>,
    body: Ending,
) -> Result<Declared, AllocError>
    ensures { IfOk result (λ x. declared_of x ≡ tree.signal (seen token.entry) (seen name.entry) parameters (ending_of body)) }
{
    let name = identifier(alloc, name)?;
    let signal = Signal {
        name,
        parameters,
        body: unboxed(body.block),
    };
    Ok(spanning(Declaration::Signal(signal), token.span, body.last))
}
