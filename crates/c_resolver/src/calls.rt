// Calls.

ghost use Rattle.std.specs.Prelude.{◌≡◌, ◌++◌, map, Some, IfOk};
ghost use Rattle.std.specs.Option.{option_copied};
ghost use Rattle.c_body_checker.specs.Rows.{parameter_seen};
ghost use Rattle.c_code.specs.declared.program.Callee.TheVariants as target;
ghost use Rattle.c_code.specs.Resolved as resolved;
ghost use Rattle.c_code.specs.Statements as spec;
ghost use Rattle.c_meaning.specs.Rows.{declared_row};
ghost use Rattle.c_meaning.specs.Steps as steps;
ghost use Rattle.c_value_checker.specs.Seen.{seen};
ghost use Rattle.c_value_checker.specs.Structures.{field_seen};
ghost use Rattle.c_resolver.specs.Library.{argument_code, takes_rest};
ghost use Rattle.c_resolver.specs.Shown.{looks};

use crate::chains::push;
use crate::found::{known, on, place_reached, value_reached};
use crate::library::{LibraryCode, library_code};
use crate::scope::Scope;
use crate::tables::Tables;
use crate::values::resolve;
use c_body_checker::RowParameter;
use c_code::{Call as CallCode, Callee as CalleeCode, Code, Move, Sliced, TypeArgument};
use c_tree::{CType, Call, Callee, Expr, Kind, KindBase, Name};
use c_value_checker::{Environment, Field, is_integer, is_struct, widened};
use sqlite_items::{Items, at};
use std::alloc::Global;
use vg_base::Memory;

// 1. Values

/// The code of a value.
pub fn value_of(alloc: Global, scope: &Scope, tables: &Tables, value: &Expr) -> Result<Code, Memory>
    ensures { IfOk result (λ code. code ≡ resolved.value_code (looks tables.now scope.now) value.now) }
{
    let found = resolve(alloc, scope, tables, value)?;
    value_reached(&scope.environment, found.kind, found.reached)
}

/// The code of a place, and its kind.
pub fn place_of(
    alloc: Global,
    scope: &Scope,
    tables: &Tables,
    place: &Expr,
) -> Result<(Code, Kind), Memory>
    ensures { IfOk result (λ found. found ≡ (resolved.place_code (looks tables.now scope.now) place.now, resolved.kind_at (looks tables.now scope.now) place.now)) }
{
    let found = resolve(alloc, scope, tables, place)?;
    let kind = known(found.kind);
    Ok((place_reached(alloc, found.reached), kind))
}

/// The code of a value, and its kind.
pub fn kind_and_value(
    alloc: Global,
    scope: &Scope,
    tables: &Tables,
    value: &Expr,
) -> Result<(Code, Kind), Memory>
    ensures { IfOk result (λ found. found ≡ (resolved.value_code (looks tables.now scope.now) value.now, resolved.kind_at (looks tables.now scope.now) value.now)) }
{
    let found = resolve(alloc, scope, tables, value)?;
    let kind = known(found.kind);
    let code = value_reached(&scope.environment, found.kind, found.reached)?;
    Ok((code, kind))
}

/// The code of a value in a kind.
pub fn value_in(
    alloc: Global,
    scope: &Scope,
    tables: &Tables,
    kind: Kind,
    value: &Expr,
) -> Result<Code, Memory>
    ensures { IfOk result (λ code. code ≡ resolved.in_kind kind (resolved.value_code (looks tables.now scope.now) value.now)) }
{
    let code = value_of(alloc, scope, tables, value)?;
    on(code, Move::Convert(kind))
}

// 2. Arguments

fn argument(
    alloc: Global,
    scope: &Scope,
    tables: &Tables,
    wanted: Option<&Option<Kind>>,
    value: &Expr,
) -> Result<Code, Memory>
    ensures { IfOk result (λ code. code ≡ argument_code (looks tables.now scope.now) (option_copied wanted.entry) value.now) }
{
    match wanted {
        None => value_of(alloc, scope, tables, value),
        Some(kind) => value_in(alloc, scope, tables, known(*kind), value),
    }
}

// Arguments of a function of the unit, each in its parameter's kind.
fn arguments(
    alloc: Global,
    scope: &Scope,
    tables: &Tables,
    wanted: &[Option<Kind>],
    values: &[Expr],
) -> Result<Items<Code>, Memory>
    ensures { IfOk result (λ codes. codes ≡ spec.argument_codes (looks tables.now scope.now) wanted.now values.now) }
{
    let mut codes = Items::new(alloc);
    for index in 0..values.len() {
        let code = argument(alloc, scope, tables, at(wanted, index), &values[index])?;
        push(&mut codes, code)?;
    }
    Ok(codes)
}

// A number that `..` takes is widened.
fn free(alloc: Global, scope: &Scope, tables: &Tables, value: &Expr) -> Result<Code, Memory>
    ensures { IfOk result (λ code. code ≡ spec.free_code (looks tables.now scope.now) value.now) }
{
    let (code, kind) = kind_and_value(alloc, scope, tables, value)?;
    if is_integer(kind) {
        on(code, Move::Convert(widened(kind)))
    } else {
        Ok(code)
    }
}

// All arguments from one on are those that `..` takes.
fn free_all(
    alloc: Global,
    scope: &Scope,
    tables: &Tables,
    mut codes: Items<Code>,
    values: &[Expr],
) -> Result<Items<Code>, Memory>
    ensures { IfOk result (λ all. all ≡ codes ++ map (spec.free_code (looks tables.now scope.now)) values.now) }
{
    for value in values {
        let code = free(alloc, scope, tables, value)?;
        push(&mut codes, code)?;
    }
    Ok(codes)
}

fn row_argument(
    alloc: Global,
    scope: &Scope,
    tables: &Tables,
    parameter: RowParameter,
    value: &Expr,
) -> Result<Code, Memory>
    ensures { IfOk result (λ code. code ≡ spec.row_code (looks tables.now scope.now) (parameter_seen parameter) value.now) }
{
    match parameter {
        RowParameter::Number(kind) => value_in(alloc, scope, tables, kind, value),
        _ => value_of(alloc, scope, tables, value),
    }
}

// Whether a parameter takes all arguments from one on.
fn takes_rest(parameter: RowParameter) -> bool
    ensures { result ≡ takes_rest parameter }
{
    matches!(parameter, RowParameter::Any | RowParameter::Pairs)
}

// Arguments of a function of the library.
fn row_arguments(
    alloc: Global,
    scope: &Scope,
    tables: &Tables,
    parameters: &[RowParameter],
    values: &[Expr],
) -> Result<Items<Code>, Memory>
    ensures { IfOk result (λ codes. codes ≡ spec.row_codes (looks tables.now scope.now) (map parameter_seen parameters.now) values.now) }
{
    let mut codes = Items::new(alloc);
    for index in 0..values.len() {
        let Some(parameter) = at(parameters, index) else {
            return Ok(codes);
        };
        if takes_rest(*parameter) {
            return free_all(alloc, scope, tables, codes, &values[index..]);
        }
        let code = row_argument(alloc, scope, tables, *parameter, &values[index])?;
        push(&mut codes, code)?;
    }
    Ok(codes)
}

// 3. Types before arguments

// What a struct is, where it is made, by the name of its first field.
fn sliced_by(name: &[u8]) -> Sliced
    ensures { result ≡ spec.sliced_by name.now }
{
    if name == b"_ref_count_".as_slice() {
        Sliced::Scope
    } else if name == b"_state_".as_slice() {
        Sliced::Activation
    } else {
        Sliced::Plain
    }
}

// What a struct with such fields is, where it is made.
fn sliced_fields(fields: &[Field]) -> Sliced
    ensures { result ≡ spec.sliced_by (steps.first_name (Some (map field_seen fields.now))) }
{
    match fields {
        [] => Sliced::Plain,
        [first, ..] => sliced_by(first.name.as_slice()),
    }
}

fn sliced(environment: &Environment, base: KindBase) -> Sliced
    ensures { result ≡ spec.sliced_by (steps.first_of (seen environment.now) base) }
{
    match base {
        KindBase::Struct(number) => match environment.fields(number) {
            None => Sliced::Plain,
            Some(fields) => sliced_fields(fields),
        },
        _ => Sliced::Plain,
    }
}

fn type_argument(
    environment: &Environment,
    declared: &Option<CType>,
) -> Result<TypeArgument, Memory>
    ensures { IfOk result (λ argument. argument ≡ spec.type_argument (seen environment.now) declared.now) }
{
    let Some(declared) = declared else {
        return Ok(TypeArgument {
            cells: 0,
            sliced: Sliced::Plain,
        });
    };
    let kind = known(environment.kind_of(declared)?);
    let sliced = if is_struct(kind) {
        sliced(environment, kind.base)
    } else {
        Sliced::Plain
    };
    Ok(TypeArgument {
        cells: environment.cells_of(kind),
        sliced,
    })
}

// 4. Calls

// A call of a function of the library.
fn library_call(
    alloc: Global,
    scope: &Scope,
    tables: &Tables,
    call: &Call,
    name: &Name,
) -> Result<CallCode, Memory>
    ensures { IfOk result (λ code. code ≡ spec.library_call (looks tables.now scope.now) call.now (declared_row name.now.text) (spec.function_named name.now.text)) }
{
    let Some(found) = library_code(name.text.as_slice()) else {
        return Ok(CallCode {
            callee: CalleeCode::Nothing,
            arguments: Items::new(alloc),
        });
    };
    let made = type_argument(&scope.environment, &call.type_argument)?;
    let arguments = row_arguments(
        alloc,
        scope,
        tables,
        found.parameters,
        call.arguments.as_slice(),
    )?;
    Ok(CallCode {
        callee: CalleeCode::Library(found.function, made),
        arguments,
    })
}

// The kinds of the parameters of what has a kind.
fn parameters_of<'a>(environment: &'a Environment, kind: Kind) -> &'a [Option<Kind>]
    ensures { result.now ≡ steps.parameters_of (steps.takes_by (seen environment.now) kind.base) }
{
    match kind.base {
        KindBase::Function(number) => match environment.signature(number) {
            None => &[],
            Some(takes) => takes.parameters.as_slice(),
        },
        _ => &[],
    }
}

// A call of a value.
fn value_call(
    alloc: Global,
    scope: &Scope,
    tables: &Tables,
    value: &Expr,
    values: &[Expr],
) -> Result<CallCode, Memory>
    ensures { IfOk result (λ code. code ≡ record {
      callee = target.Value (resolved.value_code (looks tables.now scope.now) value.now);
      arguments = spec.argument_codes (looks tables.now scope.now) (steps.parameters_of (steps.takes_by (seen scope.now.environment) (resolved.kind_at (looks tables.now scope.now) value.now).base)) values.now;
    }) }
{
    let (code, kind) = kind_and_value(alloc, scope, tables, value)?;
    let wanted = parameters_of(&scope.environment, kind);
    let arguments = arguments(alloc, scope, tables, wanted, values)?;
    Ok(CallCode {
        callee: CalleeCode::Value(code),
        arguments,
    })
}

/// A call.
pub fn call(alloc: Global, scope: &Scope, tables: &Tables, call: &Call) -> Result<CallCode, Memory>
    ensures { IfOk result (λ code. code ≡ spec.call_code (looks tables.now scope.now) call.now) }
{
    match &call.callee {
        Callee::Row(name) => library_call(alloc, scope, tables, call, name),
        Callee::Value(value) => {
            value_call(alloc, scope, tables, value, call.arguments.as_slice())
        }
    }
}
