// The unit that is written for a program. What is written has no places yet.

ghost use Rattle.std.specs.Prelude.{◌≡◌, ◌++◌, IfOk, OnOk, map};
ghost use Rattle.c_tree.specs.Bare.{nowhere as at_none};
ghost use Rattle.c_emit.specs.Emission as spec;

use c_lexer::NumberType;
use c_tree::{
    Base, Block, CType, Call, Callee, Expr, Function, Include, Item, Name, Number, Parameter,
    Shape, Signature, Span, Stmt, Unit,
};
use sqlite_items::Items;
use std::alloc::{AllocError, Global};
use vg_base::Bytes;

fn nowhere() -> Span
    ensures { result ≡ at_none }
{
    Span { start: 0, end: 0 }
}

fn name(alloc: Global, text: &[u8]) -> Result<Name, AllocError>
    ensures { IfOk result (λ name. name ≡ spec.name text.now) }
{
    let text = Items::from_slice(alloc, text)?;
    Ok(Name {
        text,
        span: nowhere(),
    })
}

fn declared(base: Base, stars: u32) -> CType
    ensures { result ≡ spec.type base stars }
{
    CType {
        base,
        is_const: false,
        stars,
        span: nowhere(),
    }
}

fn value(shape: Shape) -> Expr
    ensures { result ≡ spec.value shape }
{
    Expr {
        shape,
        span: nowhere(),
    }
}

fn parameter(alloc: Global, base: Base, stars: u32, text: &[u8]) -> Result<Parameter, AllocError>
    ensures { IfOk result (λ parameter. parameter ≡ spec.parameter (spec.type base stars) text.now) }
{
    let name = name(alloc, text)?;
    Ok(Parameter {
        declared: declared(base, stars),
        name: Some(name),
    })
}

fn main_parameters(alloc: Global) -> Result<Items<Parameter>, AllocError>
    ensures { IfOk result (λ parameters. parameters ≡ spec.main_signature.parameters) }
{
    let mut parameters = Items::new(alloc);
    parameters.push(parameter(alloc, Base::Int, 0, b"argc".as_slice())?)?;
    parameters.push(parameter(alloc, Base::Char, 2, b"argv".as_slice())?)?;
    Ok(parameters)
}

// `int main (int argc, char **argv)`
fn main_signature(alloc: Global) -> Result<Signature, AllocError>
    ensures { IfOk result (λ signature. signature ≡ spec.main_signature) }
{
    let parameters = main_parameters(alloc)?;
    let name = name(alloc, b"main".as_slice())?;
    Ok(Signature {
        is_static: false,
        result: declared(Base::Int, 0),
        name,
        parameters,
        span: nowhere(),
    })
}

fn push_byte(format: &mut Items<u8>, byte: u8) -> Result<(), AllocError>
    ensures { OnOk result (format.new ≡ format.old ++ spec.format_byte byte) }
{
    if byte == b'%' {
        format.push(b'%')?;
    }
    format.push(byte)
}

// A format of `g_print` that prints a text: each `%` stands twice in it.
fn format_of(alloc: Global, text: &[u8]) -> Result<Items<u8>, AllocError>
    ensures { IfOk result (λ format. format ≡ spec.format_of text.now) }
{
    let mut format = Items::new(alloc);
    for byte in text {
        push_byte(&mut format, *byte)?;
    }
    Ok(format)
}

// `g_print ("TEXT");`
fn print_statement(alloc: Global, text: &[u8]) -> Result<Stmt, AllocError>
    ensures { IfOk result (λ statement. statement ≡ spec.print_stmt text.now) }
{
    let row = name(alloc, b"g_print".as_slice())?;
    let literal = value(Shape::Text(format_of(alloc, text)?));
    let mut arguments = Items::new(alloc);
    arguments.push(literal)?;
    Ok(Stmt::Call(Call {
        callee: Callee::Row(row),
        type_argument: None,
        arguments,
        span: nowhere(),
    }))
}

// `return 0;`
fn return_zero() -> Stmt
    ensures { result ≡ spec.return_zero }
{
    let zero = Number {
        value: 0,
        kind: NumberType::Gint,
    };
    Stmt::Return(nowhere(), Some(value(Shape::Number(zero))))
}

fn statements(alloc: Global, texts: &[Bytes]) -> Result<Items<Stmt>, AllocError>
    ensures { IfOk result (λ body. body ≡ spec.statements texts.now) }
{
    let mut body = Items::new(alloc);
    for text in texts {
        body.push(print_statement(alloc, &text.list)?)?;
    }
    body.push(return_zero())?;
    Ok(body)
}

fn main_function(alloc: Global, texts: &[Bytes]) -> Result<Function, AllocError>
    ensures { IfOk result (λ main. main ≡ spec.main_function texts.now) }
{
    let signature = main_signature(alloc)?;
    let body = statements(alloc, texts)?;
    Ok(Function {
        signature,
        body: Block {
            locals: Items::new(alloc),
            body,
            span: nowhere(),
        },
    })
}

/// The unit whose `main` prints texts one after another and returns 0.
pub fn unit_of(alloc: Global, texts: &[Bytes]) -> Result<Unit, AllocError>
    ensures { IfOk result (λ unit. unit ≡ spec.unit_of texts.now) }
{
    let main = main_function(alloc, texts)?;
    let mut items = Items::new(alloc);
    items.push(Item::Include(Include::Glib))?;
    items.push(Item::Function(main))?;
    Ok(Unit { items })
}
