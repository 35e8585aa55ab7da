// Copies of expressions and statements. An expression or statement by value is copied last, so that none is held where
// another copy may fail.

ghost use Rattle.std.specs.Prelude.{◌≡◌, IfOk};

use crate::names;
use crate::names::{identifier, identifiers, name, type_tree};
use sqlite_items::{Boxed, Items};
use std::alloc::{AllocError, Global};
use vala_tree::{
    Argument, ArgumentMark, Arm, Block, Catch, Caught, Declarator, DeclaredType, Expr, For,
    ForStart, Foreach, If, Iteration, Jump, Label, LambdaBody, Literal, Local, NewArray, Operation,
    Postfix, Primary, Section, Selection, Stmt, Try,
};

fn literal(alloc: Global, literal: &Literal) -> Result<Literal, AllocError>
    ensures { IfOk result (λ it. it ≡ literal.now) }
{
    match literal {
        Literal::Integer(value, kind) => Ok(Literal::Integer(*value, *kind)),
        Literal::Text(bytes) => Ok(Literal::Text(Items::from_slice(alloc, bytes.as_slice())?)),
        Literal::Character(byte) => Ok(Literal::Character(*byte)),
        Literal::Boolean(value) => Ok(Literal::Boolean(*value)),
        Literal::Null => Ok(Literal::Null),
    }
}

fn mark(alloc: Global, mark: &ArgumentMark) -> Result<ArgumentMark, AllocError>
    ensures { IfOk result (λ it. it ≡ mark.now) }
{
    match mark {
        ArgumentMark::Plain => Ok(ArgumentMark::Plain),
        ArgumentMark::Named(name) => Ok(ArgumentMark::Named(identifier(alloc, name)?)),
        ArgumentMark::Out => Ok(ArgumentMark::Out),
        ArgumentMark::Ref => Ok(ArgumentMark::Ref),
    }
}

fn declared_type(alloc: Global, declared: &DeclaredType) -> Result<DeclaredType, AllocError>
    ensures { IfOk result (λ it. it ≡ declared.now) }
{
    match declared {
        DeclaredType::Var => Ok(DeclaredType::Var),
        DeclaredType::Written(tree) => Ok(DeclaredType::Written(type_tree(alloc, tree)?)),
    }
}

fn caught(alloc: Global, caught: &Option<Caught>) -> Result<Option<Caught>, AllocError>
    ensures { IfOk result (λ it. it ≡ caught.now) }
{
    match caught {
        None => Ok(None),
        Some(Caught { declared, name }) => Ok(Some(Caught {
            declared: type_tree(alloc, declared)?,
            name: identifier(alloc, name)?,
        })),
    }
}

#[cycle(code)]
fn boxed_expr(alloc: Global, tree: &Boxed<Expr>) -> Result<Boxed<Expr>, AllocError>
    ensures { IfOk result (λ it. it ≡ tree.now) }
{
    Boxed::new(alloc, expr(alloc, tree.get())?)
}

#[cycle(code)]
fn exprs(alloc: Global, trees: &[Expr]) -> Result<Items<Expr>, AllocError>
    ensures { IfOk result (λ it. it ≡ trees.now) }
{
    let mut copy = Items::new(alloc);
    for tree in trees {
        copy.push(expr(alloc, tree)?)?;
    }
    Ok(copy)
}

pub(crate) fn optional_expr(alloc: Global, tree: &Option<Expr>) -> Result<Option<Expr>, AllocError>
    ensures { IfOk result (λ it. it ≡ tree.now) }
{
    match tree {
        None => Ok(None),
        Some(tree) => Ok(Some(expr(alloc, tree)?)),
    }
}

#[cycle(code)]
pub(crate) fn expr(alloc: Global, tree: &Expr) -> Result<Expr, AllocError>
    ensures { IfOk result (λ it. it ≡ tree.now) }
{
    match tree {
        Expr::Literal(value, span) => Ok(Expr::Literal(literal(alloc, value)?, *span)),
        Expr::Name(text, span) => Ok(Expr::Name(Items::from_slice(alloc, text.as_slice())?, *span)),
        Expr::This(span) => Ok(Expr::This(*span)),
        Expr::Base(span) => Ok(Expr::Base(*span)),
        Expr::Primary(part, span) => Ok(Expr::Primary(primary(alloc, part)?, *span)),
        Expr::Postfix(part, span) => Ok(Expr::Postfix(postfix(alloc, part)?, *span)),
        Expr::Operation(part, span) => Ok(Expr::Operation(operation(alloc, part)?, *span)),
        Expr::Lambda(parameters, body, span) => Ok(Expr::Lambda(
            identifiers(alloc, parameters.as_slice())?,
            lambda_body(alloc, body)?,
            *span,
        )),
    }
}

#[cycle(code)]
fn primary(alloc: Global, tree: &Primary) -> Result<Primary, AllocError>
    ensures { IfOk result (λ it. it ≡ tree.now) }
{
    match tree {
        Primary::Parenthesized(inner) => Ok(Primary::Parenthesized(boxed_expr(alloc, inner)?)),
        Primary::YieldCall(call) => Ok(Primary::YieldCall(boxed_expr(alloc, call)?)),
        Primary::New(made, given) => Ok(Primary::New(
            name(alloc, made)?,
            arguments(alloc, given.as_slice())?,
        )),
        Primary::NewArray(array) => Ok(Primary::NewArray(new_array(alloc, array)?)),
        Primary::List(list) => Ok(Primary::List(exprs(alloc, list.as_slice())?)),
    }
}

#[cycle(code)]
fn postfix(alloc: Global, tree: &Postfix) -> Result<Postfix, AllocError>
    ensures { IfOk result (λ it. it ≡ tree.now) }
{
    match tree {
        Postfix::Member(left, name) => Ok(Postfix::Member(
            boxed_expr(alloc, left)?,
            identifier(alloc, name)?,
        )),
        Postfix::Call(called, given) => Ok(Postfix::Call(
            boxed_expr(alloc, called)?,
            arguments(alloc, given.as_slice())?,
        )),
        Postfix::Index(left, at) => Ok(Postfix::Index(
            boxed_expr(alloc, left)?,
            boxed_expr(alloc, at)?,
        )),
        Postfix::Step(left, operator) => { Ok(Postfix::Step(boxed_expr(alloc, left)?, *operator)) }
    }
}

#[cycle(code)]
fn operation(alloc: Global, tree: &Operation) -> Result<Operation, AllocError>
    ensures { IfOk result (λ it. it ≡ tree.now) }
{
    match tree {
        Operation::Prefix(operator, operand) => Ok(Operation::Prefix(
            *operator,
            boxed_expr(alloc, operand)?,
        )),
        Operation::Cast(to, operand) => Ok(Operation::Cast(
            type_tree(alloc, to)?,
            boxed_expr(alloc, operand)?,
        )),
        Operation::Binary(operator, left, right) => Ok(Operation::Binary(
            *operator,
            boxed_expr(alloc, left)?,
            boxed_expr(alloc, right)?,
        )),
        Operation::Typed(operator, left, right) => Ok(Operation::Typed(
            *operator,
            boxed_expr(alloc, left)?,
            type_tree(alloc, right)?,
        )),
        Operation::Conditional(test, yes, no) => Ok(Operation::Conditional(
            boxed_expr(alloc, test)?,
            boxed_expr(alloc, yes)?,
            boxed_expr(alloc, no)?,
        )),
        Operation::Assign(operator, target, value) => Ok(Operation::Assign(
            *operator,
            boxed_expr(alloc, target)?,
            boxed_expr(alloc, value)?,
        )),
    }
}

#[cycle(code)]
fn lambda_body(alloc: Global, tree: &LambdaBody) -> Result<LambdaBody, AllocError>
    ensures { IfOk result (λ it. it ≡ tree.now) }
{
    match tree {
        LambdaBody::Value(value) => Ok(LambdaBody::Value(boxed_expr(alloc, value)?)),
        LambdaBody::Code(body) => Ok(LambdaBody::Code(block(alloc, body)?)),
    }
}

#[cycle(code)]
fn argument(alloc: Global, tree: &Argument) -> Result<Argument, AllocError>
    ensures { IfOk result (λ it. it ≡ tree.now) }
{
    Ok(Argument {
        mark: mark(alloc, &tree.mark)?,
        value: expr(alloc, &tree.value)?,
        span: tree.span,
    })
}

#[cycle(code)]
fn arguments(alloc: Global, trees: &[Argument]) -> Result<Items<Argument>, AllocError>
    ensures { IfOk result (λ it. it ≡ trees.now) }
{
    let mut copy = Items::new(alloc);
    for tree in trees {
        copy.push(argument(alloc, tree)?)?;
    }
    Ok(copy)
}

#[cycle(code)]
pub(crate) fn block(alloc: Global, tree: &Block) -> Result<Block, AllocError>
    ensures { IfOk result (λ it. it ≡ tree.now) }
{
    Ok(Block {
        statements: stmts(alloc, tree.statements.as_slice())?,
        span: tree.span,
    })
}

pub(crate) fn optional_block(
    alloc: Global,
    tree: &Option<Block>,
) -> Result<Option<Block>, AllocError>
    ensures { IfOk result (λ it. it ≡ tree.now) }
{
    match tree {
        None => Ok(None),
        Some(tree) => Ok(Some(block(alloc, tree)?)),
    }
}

#[cycle(code)]
fn stmts(alloc: Global, trees: &[Stmt]) -> Result<Items<Stmt>, AllocError>
    ensures { IfOk result (λ it. it ≡ trees.now) }
{
    let mut copy = Items::new(alloc);
    for tree in trees {
        copy.push(stmt(alloc, tree)?)?;
    }
    Ok(copy)
}

#[cycle(code)]
fn boxed_stmt(alloc: Global, tree: &Boxed<Stmt>) -> Result<Boxed<Stmt>, AllocError>
    ensures { IfOk result (λ it. it ≡ tree.now) }
{
    Boxed::new(alloc, stmt(alloc, tree.get())?)
}

#[cycle(code)]
fn stmt(alloc: Global, tree: &Stmt) -> Result<Stmt, AllocError>
    ensures { IfOk result (λ it. it ≡ tree.now) }
{
    match tree {
        Stmt::Block(inner) => Ok(Stmt::Block(block(alloc, inner)?)),
        Stmt::Empty(span) => Ok(Stmt::Empty(*span)),
        Stmt::Local(part, span) => Ok(Stmt::Local(local(alloc, part)?, *span)),
        Stmt::Expression(value, span) => Ok(Stmt::Expression(expr(alloc, value)?, *span)),
        Stmt::Selection(part, span) => Ok(Stmt::Selection(selection(alloc, part)?, *span)),
        Stmt::Iteration(part, span) => Ok(Stmt::Iteration(iteration(alloc, part)?, *span)),
        Stmt::Jump(part, span) => Ok(Stmt::Jump(jump(alloc, part)?, *span)),
        Stmt::Try(part, span) => Ok(Stmt::Try(attempt(alloc, part)?, *span)),
    }
}

#[cycle(code)]
fn selection(alloc: Global, tree: &Selection) -> Result<Selection, AllocError>
    ensures { IfOk result (λ it. it ≡ tree.now) }
{
    match tree {
        Selection::If(part) => Ok(Selection::If(branch(alloc, part)?)),
        Selection::Switch(value, parts) => {
            let parts = sections(alloc, parts.as_slice())?;
            Ok(Selection::Switch(expr(alloc, value)?, parts))
        }
    }
}

#[cycle(code)]
fn iteration(alloc: Global, tree: &Iteration) -> Result<Iteration, AllocError>
    ensures { IfOk result (λ it. it ≡ tree.now) }
{
    match tree {
        Iteration::While(test, body) => {
            let body = boxed_stmt(alloc, body)?;
            Ok(Iteration::While(expr(alloc, test)?, body))
        }
        Iteration::Do(body, test) => Ok(Iteration::Do(
            boxed_stmt(alloc, body)?,
            expr(alloc, test)?,
        )),
        Iteration::For(part) => Ok(Iteration::For(counted(alloc, part)?)),
        Iteration::Foreach(part) => Ok(Iteration::Foreach(foreach(alloc, part)?)),
    }
}

#[cycle(code)]
fn jump(alloc: Global, tree: &Jump) -> Result<Jump, AllocError>
    ensures { IfOk result (λ it. it ≡ tree.now) }
{
    match tree {
        Jump::Break => Ok(Jump::Break),
        Jump::Continue => Ok(Jump::Continue),
        Jump::Return(None) => Ok(Jump::Return(None)),
        Jump::Return(Some(value)) => Ok(Jump::Return(Some(expr(alloc, value)?))),
        Jump::Throw(value) => Ok(Jump::Throw(expr(alloc, value)?)),
        Jump::Yield => Ok(Jump::Yield),
    }
}

#[cycle(code)]
fn local(alloc: Global, tree: &Local) -> Result<Local, AllocError>
    ensures { IfOk result (λ it. it ≡ tree.now) }
{
    Ok(Local {
        declared: declared_type(alloc, &tree.declared)?,
        names: declarators(alloc, tree.names.as_slice())?,
    })
}

#[cycle(code)]
fn declarator(alloc: Global, tree: &Declarator) -> Result<Declarator, AllocError>
    ensures { IfOk result (λ it. it ≡ tree.now) }
{
    match tree {
        Declarator {
            name,
            value: None,
            span,
        } => Ok(Declarator {
            name: identifier(alloc, name)?,
            value: None,
            span: *span,
        }),
        Declarator {
            name,
            value: Some(value),
            span,
        } => Ok(Declarator {
            name: identifier(alloc, name)?,
            value: Some(expr(alloc, value)?),
            span: *span,
        }),
    }
}

#[cycle(code)]
fn declarators(alloc: Global, trees: &[Declarator]) -> Result<Items<Declarator>, AllocError>
    ensures { IfOk result (λ it. it ≡ trees.now) }
{
    let mut copy = Items::new(alloc);
    for tree in trees {
        copy.push(declarator(alloc, tree)?)?;
    }
    Ok(copy)
}

#[cycle(code)]
fn for_start(alloc: Global, tree: &ForStart) -> Result<ForStart, AllocError>
    ensures { IfOk result (λ it. it ≡ tree.now) }
{
    match tree {
        ForStart::Declared(part) => Ok(ForStart::Declared(local(alloc, part)?)),
        ForStart::Exprs(list) => Ok(ForStart::Exprs(exprs(alloc, list.as_slice())?)),
    }
}

#[cycle(code)]
fn section(alloc: Global, tree: &Section) -> Result<Section, AllocError>
    ensures { IfOk result (λ it. it ≡ tree.now) }
{
    Ok(Section {
        labels: labels(alloc, tree.labels.as_slice())?,
        statements: stmts(alloc, tree.statements.as_slice())?,
        span: tree.span,
    })
}

#[cycle(code)]
fn sections(alloc: Global, trees: &[Section]) -> Result<Items<Section>, AllocError>
    ensures { IfOk result (λ it. it ≡ trees.now) }
{
    let mut copy = Items::new(alloc);
    for tree in trees {
        copy.push(section(alloc, tree)?)?;
    }
    Ok(copy)
}

#[cycle(code)]
fn label(alloc: Global, tree: &Label) -> Result<Label, AllocError>
    ensures { IfOk result (λ it. it ≡ tree.now) }
{
    match tree {
        Label::Case(value, span) => Ok(Label::Case(expr(alloc, value)?, *span)),
        Label::Default(span) => Ok(Label::Default(*span)),
    }
}

#[cycle(code)]
fn labels(alloc: Global, trees: &[Label]) -> Result<Items<Label>, AllocError>
    ensures { IfOk result (λ it. it ≡ trees.now) }
{
    let mut copy = Items::new(alloc);
    for tree in trees {
        copy.push(label(alloc, tree)?)?;
    }
    Ok(copy)
}

#[cycle(code)]
fn catch(alloc: Global, tree: &Catch) -> Result<Catch, AllocError>
    ensures { IfOk result (λ it. it ≡ tree.now) }
{
    Ok(Catch {
        caught: caught(alloc, &tree.caught)?,
        body: block(alloc, &tree.body)?,
        span: tree.span,
    })
}

#[cycle(code)]
fn catches(alloc: Global, trees: &[Catch]) -> Result<Items<Catch>, AllocError>
    ensures { IfOk result (λ it. it ≡ trees.now) }
{
    let mut copy = Items::new(alloc);
    for tree in trees {
        copy.push(catch(alloc, tree)?)?;
    }
    Ok(copy)
}

#[cycle(code)]
fn new_array(alloc: Global, tree: &NewArray) -> Result<NewArray, AllocError>
    ensures { IfOk result (λ it. it ≡ tree.now) }
{
    match tree {
        NewArray {
            element,
            length: None,
            list: None,
        } => Ok(NewArray {
            element: names::element(alloc, element)?,
            length: None,
            list: None,
        }),
        NewArray {
            element,
            length: None,
            list: Some(list),
        } => Ok(NewArray {
            element: names::element(alloc, element)?,
            length: None,
            list: Some(exprs(alloc, list.as_slice())?),
        }),
        NewArray {
            element,
            length: Some(length),
            list: None,
        } => Ok(NewArray {
            element: names::element(alloc, element)?,
            length: Some(boxed_expr(alloc, length)?),
            list: None,
        }),
        NewArray {
            element,
            length: Some(length),
            list: Some(list),
        } => Ok(NewArray {
            element: names::element(alloc, element)?,
            length: Some(boxed_expr(alloc, length)?),
            list: Some(exprs(alloc, list.as_slice())?),
        }),
    }
}

#[cycle(code)]
fn branch(alloc: Global, tree: &If) -> Result<If, AllocError>
    ensures { IfOk result (λ it. it ≡ tree.now) }
{
    match tree {
        If {
            arms: list,
            no: None,
        } => Ok(If {
            arms: arms(alloc, list.as_slice())?,
            no: None,
        }),
        If {
            arms: list,
            no: Some(no),
        } => Ok(If {
            arms: arms(alloc, list.as_slice())?,
            no: Some(boxed_stmt(alloc, no)?),
        }),
    }
}

#[cycle(code)]
fn arm(alloc: Global, tree: &Arm) -> Result<Arm, AllocError>
    ensures { IfOk result (λ it. it ≡ tree.now) }
{
    let test = Boxed::new(alloc, expr(alloc, &tree.test)?)?;
    Ok(Arm {
        body: stmt(alloc, &tree.body)?,
        test: test.into_inner(),
    })
}

#[cycle(code)]
fn arms(alloc: Global, trees: &[Arm]) -> Result<Items<Arm>, AllocError>
    ensures { IfOk result (λ it. it ≡ trees.now) }
{
    let mut copy = Items::new(alloc);
    for tree in trees {
        copy.push(arm(alloc, tree)?)?;
    }
    Ok(copy)
}

#[cycle(code)]
fn counted(alloc: Global, tree: &For) -> Result<For, AllocError>
    ensures { IfOk result (λ it. it ≡ tree.now) }
{
    match tree {
        For {
            start,
            test: None,
            steps,
            body,
        } => {
            let steps = exprs(alloc, steps.as_slice())?;
            let body = boxed_stmt(alloc, body)?;
            Ok(For {
                start: for_start(alloc, start)?,
                test: None,
                steps,
                body,
            })
        }
        For {
            start,
            test: Some(test),
            steps,
            body,
        } => {
            let test = boxed_expr(alloc, test)?;
            let steps = exprs(alloc, steps.as_slice())?;
            let body = boxed_stmt(alloc, body)?;
            Ok(For {
                start: for_start(alloc, start)?,
                test: Some(test),
                steps,
                body,
            })
        }
    }
}

#[cycle(code)]
fn attempt(alloc: Global, tree: &Try) -> Result<Try, AllocError>
    ensures { IfOk result (λ it. it ≡ tree.now) }
{
    match tree {
        Try {
            body,
            clauses,
            last: None,
        } => Ok(Try {
            body: block(alloc, body)?,
            clauses: catches(alloc, clauses.as_slice())?,
            last: None,
        }),
        Try {
            body,
            clauses,
            last: Some(last),
        } => Ok(Try {
            body: block(alloc, body)?,
            clauses: catches(alloc, clauses.as_slice())?,
            last: Some(block(alloc, last)?),
        }),
    }
}

#[cycle(code)]
fn foreach(alloc: Global, tree: &Foreach) -> Result<Foreach, AllocError>
    ensures { IfOk result (λ it. it ≡ tree.now) }
{
    let declared = declared_type(alloc, &tree.declared)?;
    let name = identifier(alloc, &tree.name)?;
    let body = boxed_stmt(alloc, &tree.body)?;
    Ok(Foreach {
        declared,
        name,
        over: expr(alloc, &tree.over)?,
        body,
    })
}
