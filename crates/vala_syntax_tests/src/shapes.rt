// What a tree is, in a few words: its kind, and in brackets the kinds of its parts.

use static_rules::{Refusal, rule_name};
use std::alloc::{AllocError, Global};
use vala_tree::{
    Arm, Block, DeclaredType, Expr, For, ForStart, Iteration, Jump, LambdaBody, Local, Operation,
    Postfix, Primary, Section, Selection, Stmt, Try,
};
use vg_base::{Fault, Span};

const NONE: [&str; 4] = ["", "", "", ""];

fn kind_of(expr: &Expr) -> &'static str {
    match expr {
        Expr::Literal(_, _) => "literal",
        Expr::Name(_, _) => "name",
        Expr::This(_) => "this",
        Expr::Base(_) => "base",
        Expr::Primary(primary, _) => kind_of_primary(primary),
        Expr::Postfix(postfix, _) => kind_of_postfix(postfix),
        Expr::Operation(operation, _) => kind_of_operation(operation),
        Expr::Lambda(_, _, _) => "lambda",
    }
}

fn kind_of_primary(primary: &Primary) -> &'static str {
    match primary {
        Primary::Parenthesized(_) => "bracketed",
        Primary::YieldCall(_) => "yield",
        Primary::New(_, _) => "new",
        Primary::NewArray(_) => "new array",
        Primary::List(_) => "list",
    }
}

fn kind_of_postfix(postfix: &Postfix) -> &'static str {
    match postfix {
        Postfix::Member(_, _) => "member",
        Postfix::Call(_, _) => "call",
        Postfix::Index(_, _) => "index",
        Postfix::Step(_, _) => "step",
    }
}

fn kind_of_operation(operation: &Operation) -> &'static str {
    match operation {
        Operation::Prefix(_, _) => "prefix",
        Operation::Cast(_, _) => "cast",
        Operation::Binary(_, _, _) => "binary",
        Operation::Typed(_, _, _) => "typed",
        Operation::Conditional(_, _, _) => "conditional",
        Operation::Assign(_, _, _) => "assign",
    }
}

fn parts_of(expr: &Expr) -> [&'static str; 4] {
    match expr {
        Expr::Primary(Primary::Parenthesized(inner), _) => [kind_of(inner.get()), "", "", ""],
        Expr::Primary(Primary::YieldCall(call), _) => [kind_of(call.get()), "", "", ""],
        Expr::Postfix(postfix, _) => parts_of_postfix(postfix),
        Expr::Operation(operation, _) => parts_of_operation(operation),
        Expr::Lambda(_, LambdaBody::Value(value), _) => [kind_of(value.get()), "", "", ""],
        Expr::Lambda(_, LambdaBody::Code(_), _) => ["block", "", "", ""],
        _ => NONE,
    }
}

fn parts_of_postfix(postfix: &Postfix) -> [&'static str; 4] {
    match postfix {
        Postfix::Member(left, _) => [kind_of(left.get()), "", "", ""],
        Postfix::Call(left, _) => [kind_of(left.get()), "", "", ""],
        Postfix::Index(left, at) => [kind_of(left.get()), kind_of(at.get()), "", ""],
        Postfix::Step(left, _) => [kind_of(left.get()), "", "", ""],
    }
}

fn parts_of_operation(operation: &Operation) -> [&'static str; 4] {
    match operation {
        Operation::Prefix(_, value) => [kind_of(value.get()), "", "", ""],
        Operation::Cast(_, value) => [kind_of(value.get()), "", "", ""],
        Operation::Binary(_, left, right) => [kind_of(left.get()), kind_of(right.get()), "", ""],
        Operation::Typed(_, left, _) => [kind_of(left.get()), "", "", ""],
        Operation::Conditional(test, yes, no) => [
            kind_of(test.get()),
            kind_of(yes.get()),
            kind_of(no.get()),
            "",
        ],
        Operation::Assign(_, place, value) => [kind_of(place.get()), kind_of(value.get()), "", ""],
    }
}

fn count(items: usize) -> &'static str {
    match items {
        0 => "none",
        1 => "one",
        2 => "two",
        _ => "more",
    }
}

fn kind_of_statement(statement: &Stmt) -> &'static str {
    match statement {
        Stmt::Block(_) => "block",
        Stmt::Empty(_) => "empty",
        Stmt::Local(_, _) => "local",
        Stmt::Expression(_, _) => "expression",
        Stmt::Selection(selection, _) => kind_of_selection(selection),
        Stmt::Iteration(iteration, _) => kind_of_iteration(iteration),
        Stmt::Jump(jump, _) => kind_of_jump(jump),
        Stmt::Try(_, _) => "try",
    }
}

fn kind_of_selection(selection: &Selection) -> &'static str {
    match selection {
        Selection::If(choice) if choice.no.is_some() => "if else",
        Selection::If(_) => "if",
        Selection::Switch(_, _) => "switch",
    }
}

fn kind_of_iteration(iteration: &Iteration) -> &'static str {
    match iteration {
        Iteration::While(_, _) => "while",
        Iteration::Do(_, _) => "do",
        Iteration::For(_) => "for",
        Iteration::Foreach(_) => "foreach",
    }
}

fn kind_of_jump(jump: &Jump) -> &'static str {
    match jump {
        Jump::Break => "break",
        Jump::Continue => "continue",
        Jump::Return(_) => "return",
        Jump::Throw(_) => "throw",
        Jump::Yield => "yield",
    }
}

fn parts_of_statement(statement: &Stmt) -> [&'static str; 4] {
    match statement {
        Stmt::Local(local, _) => parts_of_local(local),
        Stmt::Expression(value, _) => [kind_of(value), "", "", ""],
        Stmt::Selection(selection, _) => parts_of_selection(selection),
        Stmt::Iteration(iteration, _) => parts_of_iteration(iteration),
        Stmt::Jump(Jump::Return(Some(value)), _) => [kind_of(value), "", "", ""],
        Stmt::Jump(Jump::Throw(value), _) => [kind_of(value), "", "", ""],
        Stmt::Try(clauses, _) => parts_of_try(clauses),
        _ => NONE,
    }
}

fn declared(declared: &DeclaredType) -> &'static str {
    match declared {
        DeclaredType::Var => "var",
        DeclaredType::Written(_) => "type",
    }
}

fn parts_of_local(local: &Local) -> [&'static str; 4] {
    let value = match local.names.as_slice() {
        [first, ..] => match &first.value {
            Some(value) => kind_of(value),
            None => "",
        },
        [] => "",
    };
    [
        declared(&local.declared),
        count(local.names.len()),
        value,
        "",
    ]
}

fn labels(sections: &[Section]) -> &'static str {
    match sections {
        [first, ..] => count(first.labels.len()),
        [] => "",
    }
}

fn kind_of_arm(arms: &[Arm], at: usize) -> &'static str {
    match arms.get(at) {
        Some(arm) => kind_of_statement(&arm.body),
        None => "",
    }
}

fn parts_of_selection(selection: &Selection) -> [&'static str; 4] {
    match selection {
        Selection::If(choice) => {
            let no = match &choice.no {
                Some(no) => kind_of_statement(no.get()),
                None => "",
            };
            let arms = choice.arms.as_slice();
            [
                kind_of_arm(arms, 0),
                kind_of_arm(arms, 1),
                kind_of_arm(arms, 2),
                no,
            ]
        }
        Selection::Switch(value, sections) => {
            let first = labels(sections.as_slice());
            [kind_of(value), count(sections.len()), first, ""]
        }
    }
}

fn parts_of_iteration(iteration: &Iteration) -> [&'static str; 4] {
    match iteration {
        Iteration::While(_, body) => [kind_of_statement(body.get()), "", "", ""],
        Iteration::Do(body, _) => [kind_of_statement(body.get()), "", "", ""],
        Iteration::For(parts) => parts_of_for(parts),
        Iteration::Foreach(parts) => {
            let body = kind_of_statement(parts.body.get());
            [declared(&parts.declared), kind_of(&parts.over), body, ""]
        }
    }
}

fn parts_of_for(parts: &For) -> [&'static str; 4] {
    let start = match &parts.start {
        ForStart::Declared(_) => "local",
        ForStart::Exprs(list) => count(list.len()),
    };
    let test = match &parts.test {
        Some(test) => kind_of(test.get()),
        None => "none",
    };
    let body = kind_of_statement(parts.body.get());
    [start, test, count(parts.steps.len()), body]
}

fn parts_of_try(parts: &Try) -> [&'static str; 4] {
    let last = if parts.last.is_some() { "finally" } else { "" };
    [count(parts.clauses.len()), last, "", ""]
}

/// The kind with its parts, and where it stands.
fn told(alloc: Global, kind: &str, parts: [&str; 4], span: Span) -> Result<String, AllocError> {
    let mut text = String::new(alloc);
    text.push_str(kind)?;
    let mut sign = "(";
    for part in parts {
        if !part.is_empty() {
            text.push_str(sign)?;
            text.push_str(part)?;
            sign = ",";
        }
    }
    if sign == "," {
        text.push_str(")")?;
    }
    text.push_str(place(alloc, span)?.as_str())?;
    Ok(text)
}

fn place(alloc: Global, span: Span) -> Result<String, AllocError> {
    let start = span.start;
    let end = span.end;
    format!(in alloc; " {start}-{end}")
}

fn told_fault(alloc: Global, fault: Fault<Refusal>) -> Result<String, AllocError> {
    match fault {
        Fault::Memory => format!(in alloc; "memory"),
        Fault::Refused(refusal) => told(alloc, rule_name(refusal.rule), NONE, refusal.span),
    }
}

pub fn told_expr(
    alloc: Global,
    answer: Result<Expr, Fault<Refusal>>,
) -> Result<String, AllocError> {
    match answer {
        Ok(expr) => told(alloc, kind_of(&expr), parts_of(&expr), expr.span()),
        Err(fault) => told_fault(alloc, fault),
    }
}

pub fn told_block(
    alloc: Global,
    answer: Result<Block, Fault<Refusal>>,
) -> Result<String, AllocError> {
    match answer {
        Ok(block) => told_statements(alloc, &block),
        Err(fault) => told_fault(alloc, fault),
    }
}

fn told_statements(alloc: Global, block: &Block) -> Result<String, AllocError> {
    let start = block.span.start;
    let end = block.span.end;
    let mut text = format!(in alloc; "{start}-{end}")?;
    for statement in block.statements.as_slice() {
        text.push_str(", ")?;
        let kind = kind_of_statement(statement);
        let one = told(alloc, kind, parts_of_statement(statement), statement.span())?;
        text.push_str(one.as_str())?;
    }
    Ok(text)
}
