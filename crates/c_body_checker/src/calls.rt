// Calls: their results, and their faults.

ghost use Rattle.std.specs.Prelude.{◌≡◌, ◌++◌, [], ◌∷◌, true, map, IfOk, OnOk};
ghost use Rattle.c_tree.specs.Checks as checks;
ghost use Rattle.c_tree.specs.Faults.{unless, misfit};
ghost use Rattle.c_tree.specs.Kinds as kinds;
ghost use Rattle.c_tree.specs.Rules as spec;
ghost use Rattle.c_value_checker.specs.Noted.{noted};
ghost use Rattle.std.specs.Option.{option_copied, option_map};
ghost use Rattle.c_tree.specs.declared.code.Callee.TheVariants as callee;
ghost use Rattle.c_tree.specs.Env.{found};
ghost use Rattle.c_value_checker.specs.Judgements.{is_null_told};
ghost use Rattle.c_body_checker.specs.Rows.{any_faults, argument, ends_at, fit_faults, literal_seen, one_fault, parameter_seen, part_fault, parts_faults, rest_faults, row_called, row_faults, row_seen, takes_rest, unit_called, value_called};
ghost use Rattle.c_value_checker.specs.Seen.{seen, takes_seen};

use crate::library::{LibraryRow, RowParameter, present_row};
use c_lexer::Constant;
use c_tree::{CType, Call, Callee, Expr, Kind, KindBase, Name, Sort, Span};
use c_value_checker::{
    Environment, Findings, Judged, Literal, Takes, check_value, fits, is_argument, is_integer,
    is_pointer_or_function, is_scalar,
};
use sqlite_items::at;
use std::alloc::Global;
use vg_base::Memory;

/// An argument: where it stands, and what is known of it.
#[derive(Drop)]
pub struct Argument {
    pub span: Span,
    pub found: Judged,
}

/// Notes a part that does not fit.
pub fn note_unless(findings: &mut Findings, test: bool, span: Span)
    ensures { findings.new ≡ noted findings.old (unless test (misfit span)) }
{
    if !test {
        findings.misfit(span);
    }
}

/// A value that goes to a place of a kind.
pub fn check_fit(findings: &mut Findings, place: Option<Kind>, value: &Argument)
    ensures { findings.new ≡ noted findings.old (spec.fit_by place value.now.found.kind (is_null_told value.now.found.literal) value.now.span) }
{
    if let (Some(place), Some(kind)) = (place, value.found.kind) {
        let fine = fits(place, kind, value.found.is_null());
        note_unless(findings, fine, value.span);
    }
}

/// An integer.
pub fn check_integer(findings: &mut Findings, value: &Argument)
    ensures { findings.new ≡ noted findings.old (spec.class_by kinds.is_integer value.now.found.kind value.now.span) }
{
    if let Some(kind) = value.found.kind {
        note_unless(findings, is_integer(kind), value.span);
    }
}

fn check_pointer(findings: &mut Findings, value: &Argument)
    ensures { findings.new ≡ noted findings.old (spec.class_by kinds.is_pointer_or_function value.now.found.kind value.now.span) }
{
    if let Some(kind) = value.found.kind {
        note_unless(findings, is_pointer_or_function(kind), value.span);
    }
}

/// A condition.
pub fn check_scalar(findings: &mut Findings, value: &Argument)
    ensures { findings.new ≡ noted findings.old (spec.class_by kinds.is_scalar value.now.found.kind value.now.span) }
{
    if let Some(kind) = value.found.kind {
        note_unless(findings, is_scalar(kind), value.span);
    }
}

fn check_argument(findings: &mut Findings, value: &Argument)
    ensures { findings.new ≡ noted findings.old (spec.class_by kinds.is_argument value.now.found.kind value.now.span) }
{
    if let Some(kind) = value.found.kind {
        note_unless(findings, is_argument(kind), value.span);
    }
}

fn same_word(a: Constant, b: Constant) -> bool
    ensures { result ≡ spec.same_word a b }
{
    matches!(
        (a, b),
        (Constant::Null, Constant::Null)
            | (Constant::False, Constant::False)
            | (Constant::SignalRunLast, Constant::SignalRunLast)
            | (Constant::TypeNone, Constant::TypeNone)
    )
}

fn same_literal(wanted: Literal, found: Option<Literal>) -> bool
    ensures { result ≡ spec.same_literal (literal_seen wanted) (option_map literal_seen found) }
{
    match (wanted, found) {
        (Literal::Word(a), Some(Literal::Word(b))) => same_word(a, b),
        (Literal::Figure(s, n), Some(Literal::Figure(t, m))) => s == t && n == m,
        _ => false,
    }
}

fn push(arguments: &mut Vec<Argument>, one: Argument) -> Result<(), Memory>
    ensures { OnOk result (arguments.new.items ≡ arguments.old.items ++ one ∷ []) }
{
    match arguments.push(one) {
        Ok(()) => Ok(()),
        Err(_) => Err(Memory),
    }
}

/// The arguments of a call, each with its own faults.
pub fn check_values(
    alloc: Global,
    environment: &Environment,
    findings: &mut Findings,
    values: &[Expr],
) -> Result<Vec<Argument>, Memory>
    ensures value { IfOk result (λ found. found.items ≡ map (argument (seen environment.now)) (spec.all_checked checks.checked values.now)) }
    ensures faults { OnOk result (findings.new ≡ noted findings.old (spec.own_faults (seen environment.now) (spec.all_checked checks.checked values.now))) }
{
    let mut found = Vec::new(alloc);
    for value in values {
        let one = check_value(alloc, environment, findings, value)?;
        push(
            &mut found,
            Argument {
                span: value.span,
                found: one,
            },
        )?;
    }
    Ok(found)
}

fn check_any(findings: &mut Findings, arguments: &[Argument])
    ensures { findings.new ≡ noted findings.old (any_faults arguments.now) }
{
    for argument in arguments {
        check_argument(findings, argument);
    }
}

// A name, a value, or the word `NULL` at the end.
fn check_pair_part(findings: &mut Findings, is_name: bool, is_last: bool, argument: &Argument)
    ensures { findings.new ≡ noted findings.old (part_fault is_name is_last argument.now) }
{
    if !is_name {
        check_argument(findings, argument);
    } else if is_last {
        note_unless(findings, argument.found.is_null(), argument.span);
    } else {
        check_pointer(findings, argument);
    }
}

// Names and values, and the word `NULL` behind them.
fn check_pairs(findings: &mut Findings, arguments: &[Argument])
    ensures { findings.new ≡ noted findings.old (parts_faults true arguments.now) }
{
    let mut is_name = true;
    let mut count = 0;
    for argument in arguments {
        count += 1;
        check_pair_part(findings, is_name, count == arguments.len(), argument);
        is_name = !is_name;
    }
}

fn check_one(findings: &mut Findings, parameter: &RowParameter, value: &Argument)
    ensures { findings.new ≡ noted findings.old (one_fault parameter.now value.now) }
{
    match parameter {
        RowParameter::Number(_) => check_integer(findings, value),
        RowParameter::Pointer => check_pointer(findings, value),
        RowParameter::Exactly(wanted) => {
            note_unless(
                findings,
                same_literal(*wanted, value.found.literal),
                value.span,
            );
        }
        RowParameter::Any | RowParameter::Pairs => {}
    }
}

fn takes_rest(parameter: &RowParameter) -> bool
    ensures { result ≡ takes_rest parameter.now }
{
    matches!(parameter, RowParameter::Any | RowParameter::Pairs)
}

// All arguments from one on.
fn check_rest(findings: &mut Findings, parameter: &RowParameter, arguments: &[Argument])
    ensures { findings.new ≡ noted findings.old (rest_faults parameter.now arguments.now) }
{
    match parameter {
        RowParameter::Any => check_any(findings, arguments),
        RowParameter::Pairs => check_pairs(findings, arguments),
        _ => {}
    }
}

// The arguments of a function of the library.
fn check_row_arguments(findings: &mut Findings, parameters: &[RowParameter], arguments: &[Argument])
    ensures { findings.new ≡ noted findings.old (row_faults parameters.now arguments.now) }
{
    let mut index = 0;
    for argument in arguments {
        let Some(parameter) = at(parameters, index) else {
            return;
        };
        if takes_rest(parameter) {
            check_rest(findings, parameter, &arguments[index..]);
            return;
        }
        check_one(findings, parameter, argument);
        index += 1;
    }
}

// The arguments of a function of the unit.
fn check_unit_arguments(
    findings: &mut Findings,
    parameters: &[Option<Kind>],
    arguments: &[Argument],
)
    ensures { findings.new ≡ noted findings.old (fit_faults parameters.now arguments.now) }
{
    let mut index = 0;
    for argument in arguments {
        let Some(parameter) = at(parameters, index) else {
            return;
        };
        check_fit(findings, *parameter, argument);
        index += 1;
    }
}

// What a parameter says of so many arguments, if none behind it does.
fn ends_at(parameter: &RowParameter, count: usize) -> Option<bool>
    ensures { result ≡ ends_at parameter.now count }
{
    match parameter {
        RowParameter::Any => Some(true),
        RowParameter::Pairs => Some(count % 2 == 1),
        _ => { if count == 0 { Some(false) } else { None } }
    }
}

fn takes_count(parameters: &[RowParameter], mut count: usize) -> bool
    ensures { result ≡ spec.takes_count (map parameter_seen parameters.now) count }
{
    for parameter in parameters {
        if let Some(fine) = ends_at(parameter, count) {
            return fine;
        }
        count = count.saturating_sub(1);
    }
    count == 0
}

// Notes a wrong number of arguments. What is called gives nothing then.
fn check_count(findings: &mut Findings, fine: bool, span: Span, kind: Option<Kind>) -> Option<Kind>
    ensures value { result ≡ (spec.called_if fine span kind []).result }
    ensures faults { findings.new ≡ noted findings.old (spec.called_if fine span kind []).faults }
{
    if fine {
        kind
    } else {
        findings.misfit(span);
        None
    }
}

// A call of a function of the library; `fine` says whether a type that it takes is laid out.
fn call_row(
    findings: &mut Findings,
    row: Option<LibraryRow>,
    span: Span,
    fine: bool,
    arguments: &[Argument],
) -> Option<Kind>
    ensures value { result ≡ (row_called row span fine arguments.now).result }
    ensures faults { findings.new ≡ noted findings.old (row_called row span fine arguments.now).faults }
{
    match row {
        None => None,
        Some(row) => {
            let counts = fine && takes_count(row.parameters, arguments.len());
            let kind = check_count(findings, counts, span, Some(row.result));
            check_row_arguments(findings, row.parameters, arguments);
            kind
        }
    }
}

fn call_unit(
    findings: &mut Findings,
    takes: Option<&Takes>,
    span: Span,
    arguments: &[Argument],
) -> Option<Kind>
    ensures value { result ≡ (unit_called (option_map takes_seen (option_copied takes.entry)) span arguments.now).result }
    ensures faults { findings.new ≡ noted findings.old (unit_called (option_map takes_seen (option_copied takes.entry)) span arguments.now).faults }
{
    match takes {
        None => {
            findings.misfit(span);
            None
        }
        Some(takes) => {
            let counts = takes.parameters.len() == arguments.len();
            let kind = check_count(findings, counts, span, takes.result);
            check_unit_arguments(findings, takes.parameters.as_slice(), arguments);
            kind
        }
    }
}

fn signature_of<'e>(environment: &'e Environment, kind: Kind) -> Option<&'e Takes>
    ensures { option_map takes_seen (option_copied result) ≡ spec.signature_of (seen environment.now) kind }
{
    match kind.base {
        KindBase::Function(number) if kind.stars == 0 => { environment.signature(number) }
        _ => None,
    }
}

fn call_value(
    environment: &Environment,
    findings: &mut Findings,
    kind: Option<Kind>,
    span: Span,
    arguments: &[Argument],
) -> Option<Kind>
    ensures value { result ≡ (value_called (seen environment.now) kind span arguments.now).result }
    ensures faults { findings.new ≡ noted findings.old (value_called (seen environment.now) kind span arguments.now).faults }
{
    match kind {
        None => None,
        Some(kind) => call_unit(findings, signature_of(environment, kind), span, arguments),
    }
}

// The function of the library that a name is.
fn find_row(environment: &Environment, findings: &mut Findings, name: &Name) -> Option<LibraryRow>
    ensures value { option_map row_seen result ≡ spec.row_number (found (seen environment.now).scopes name.now.text) }
    ensures faults { findings.new ≡ noted findings.old (checks.undeclared_if (found (seen environment.now).scopes name.now.text) name.now) }
{
    match environment.find(name) {
        None => {
            findings.undeclared(name);
            None
        }
        Some(Sort::Row(number)) => present_row(number),
        Some(_) => None,
    }
}

// A type that is taken: whether it is laid out.
fn check_type_argument(
    environment: &Environment,
    findings: &mut Findings,
    taken: &Option<CType>,
) -> Result<bool, Memory>
    ensures value { IfOk result (λ fine. fine ≡ spec.type_argument_fine (seen environment.now) taken.now) }
    ensures faults { OnOk result (findings.new ≡ noted findings.old (spec.type_argument_faults (seen environment.now) taken.now)) }
{
    match taken {
        None => Ok(true),
        Some(declared) => {
            environment.check_type(findings, declared);
            let kind = environment.kind_of(declared)?;
            Ok(environment.is_laid_out_if(kind))
        }
    }
}

fn check_value_call(
    alloc: Global,
    environment: &Environment,
    findings: &mut Findings,
    called: &Expr,
    arguments: &[Expr],
    span: Span,
) -> Result<Option<Kind>, Memory>
    ensures value { IfOk result (λ kind. kind ≡ (spec.value_call (seen environment.now) ((checks.checked called.now).value.kind (seen environment.now)) span (spec.all_checked checks.checked arguments.now)).result) }
    ensures faults { OnOk result (findings.new ≡ noted findings.old (((checks.checked called.now).value.faults (seen environment.now) ++ spec.own_faults (seen environment.now) (spec.all_checked checks.checked arguments.now))
        ++ (spec.value_call (seen environment.now) ((checks.checked called.now).value.kind (seen environment.now)) span (spec.all_checked checks.checked arguments.now)).faults)) }
{
    let found = check_value(alloc, environment, findings, called)?;
    let values = check_values(alloc, environment, findings, arguments)?;
    Ok(call_value(environment, findings, found.kind, span, &values))
}

fn check_row_call(
    alloc: Global,
    environment: &Environment,
    findings: &mut Findings,
    name: &Name,
    call: &Call,
) -> Result<Option<Kind>, Memory>
    ensures value { IfOk result (λ kind. kind ≡ (spec.call_by checks.checked (seen environment.now) (callee.Row name.now) call.now (spec.all_checked checks.checked call.now.arguments)).result) }
    ensures faults { OnOk result (findings.new ≡ noted findings.old (spec.call_by checks.checked (seen environment.now) (callee.Row name.now) call.now (spec.all_checked checks.checked call.now.arguments)).faults) }
{
    let row = find_row(environment, findings, name);
    let fine = check_type_argument(environment, findings, &call.type_argument)?;
    let values = check_values(alloc, environment, findings, call.arguments.as_slice())?;
    Ok(call_row(findings, row, call.span, fine, &values))
}

/// What a call gives. Its faults are noted.
pub fn check_call(
    alloc: Global,
    environment: &Environment,
    findings: &mut Findings,
    call: &Call,
) -> Result<Option<Kind>, Memory>
    ensures value { IfOk result (λ kind. kind ≡ (spec.call checks.checked (seen environment.now) call.now).result) }
    ensures faults { OnOk result (findings.new ≡ noted findings.old (spec.call checks.checked (seen environment.now) call.now).faults) }
{
    match &call.callee {
        Callee::Value(called) => check_value_call(
            alloc,
            environment,
            findings,
            called,
            call.arguments.as_slice(),
            call.span,
        ),
        Callee::Row(name) => check_row_call(alloc, environment, findings, name, call),
    }
}
