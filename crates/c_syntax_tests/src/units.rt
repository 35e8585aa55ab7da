// Units and the texts that are wanted of them.

use c_lexer::NumberType;
use c_printer::print;
use c_tree::{
    Base, BinaryOperator, Block, CType, Expr, Function, Include, Item, Link, Local, Name, Number,
    Parameter, Shape, Signature, Span, Stmt, Unit,
};
use sqlite_items::{Boxed, Items};
use std::alloc::{AllocError, Global};
use std::test::Fail;

const NOWHERE: Span = Span { start: 0, end: 0 };

fn name(alloc: Global, text: &[u8]) -> Result<Name, AllocError> {
    let text = Items::from_slice(alloc, text)?;
    Ok(Name {
        text,
        span: NOWHERE,
    })
}

fn typed(base: Base, stars: u32) -> CType {
    CType {
        base,
        is_const: false,
        stars,
        span: NOWHERE,
    }
}

fn parameter(alloc: Global, declared: CType, text: &[u8]) -> Result<Parameter, AllocError> {
    let name = name(alloc, text)?;
    Ok(Parameter {
        declared,
        name: Some(name),
    })
}

fn zero() -> Expr {
    let number = Number {
        value: 0,
        kind: NumberType::Gint,
    };
    Expr {
        shape: Shape::Number(number),
        span: NOWHERE,
    }
}

// `{ gchar *s; return 0; }`
fn body(alloc: Global) -> Result<Block, AllocError> {
    let mut locals = Items::new(alloc);
    locals.push(local(alloc)?)?;
    let mut body = Items::new(alloc);
    body.push(Stmt::Return(NOWHERE, Some(zero())))?;
    Ok(Block {
        locals,
        body,
        span: NOWHERE,
    })
}

fn local(alloc: Global) -> Result<Local, AllocError> {
    let base = Base::Named(name(alloc, b"gchar")?);
    let name = name(alloc, b"s")?;
    Ok(Local {
        declared: typed(base, 1),
        name,
    })
}

// `int main (int argc, char **argv)`
fn signature(alloc: Global) -> Result<Signature, AllocError> {
    let mut parameters = Items::new(alloc);
    parameters.push(parameter(alloc, typed(Base::Int, 0), b"argc")?)?;
    parameters.push(parameter(alloc, typed(Base::Char, 2), b"argv")?)?;
    let name = name(alloc, b"main")?;
    Ok(Signature {
        is_static: false,
        result: typed(Base::Int, 0),
        name,
        parameters,
        span: NOWHERE,
    })
}

fn unit(alloc: Global) -> Result<Unit, AllocError> {
    let signature = signature(alloc)?;
    let body = body(alloc)?;
    let mut items = Items::new(alloc);
    items.push(Item::Include(Include::Glib))?;
    items.push(Item::Function(Function { signature, body }))?;
    Ok(Unit { items })
}

const WANT: &[u8] = b"#include <glib.h>

int main (int argc, char **argv)
{
    gchar *s;
    return 0;
}
";

fn is_written(alloc: Global) -> bool {
    let Ok(unit) = unit(alloc) else {
        return false;
    };
    match print(alloc, &unit) {
        Ok(text) => text.as_slice() == WANT,
        Err(_) => false,
    }
}

#[test]
fn units(rt: HostRuntime) -> Result<(), Fail> {
    assert_eq!(rt; is_written(rt.alloc()), true);
    Ok(())
}

fn joined(
    alloc: Global,
    operator: BinaryOperator,
    first: Expr,
    operand: Expr,
) -> Result<Expr, AllocError> {
    let mut links = Items::new(alloc);
    links.push(Link { operator, operand })?;
    let shape = Shape::Chain(Boxed::new(alloc, first)?, links);
    Ok(Expr {
        shape,
        span: NOWHERE,
    })
}

fn block_of(alloc: Global, stmt: Stmt) -> Result<Block, AllocError> {
    let mut body = Items::new(alloc);
    body.push(stmt)?;
    Ok(Block {
        locals: Items::new(alloc),
        body,
        span: NOWHERE,
    })
}

// `return 0 || 0 && 0;` in so many blocks, and one more.
fn nested(alloc: Global, depth: usize) -> Result<Unit, AllocError> {
    let both = joined(alloc, BinaryOperator::And, zero(), zero())?;
    let value = joined(alloc, BinaryOperator::Or, zero(), both)?;
    let mut body = block_of(alloc, Stmt::Return(NOWHERE, Some(value)))?;
    for _ in 0..depth {
        body = block_of(alloc, Stmt::Block(body))?;
    }
    let signature = signature(alloc)?;
    let mut items = Items::new(alloc);
    items.push(Item::Function(Function { signature, body }))?;
    Ok(Unit { items })
}

fn count_open(text: &[u8]) -> u32 {
    let mut count: u32 = 0;
    for byte in text {
        if *byte == b'(' {
            count = count.saturating_add(1);
        }
    }
    count
}

// How many `(` are written of the unit.
fn open_brackets(alloc: Global, depth: usize) -> u32 {
    let Ok(unit) = nested(alloc, depth) else {
        return 0;
    };
    match print(alloc, &unit) {
        Ok(text) => count_open(&text),
        Err(_) => 0,
    }
}

#[test]
fn brackets_that_nest_too_deep(rt: HostRuntime) -> Result<(), Fail> {
    assert_eq!(rt; open_brackets(rt.alloc(), 62), 2);
    assert_eq!(rt; open_brackets(rt.alloc(), 63), 1);
    Ok(())
}
