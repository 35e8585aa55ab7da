// Values without values in them.

ghost use Rattle.std.specs.Prelude.{◌≡◌, false, IfOk};
ghost use Rattle.c_tree.specs.declared.code.Shape.TheOpen.{Shape-F};
ghost use Rattle.c_tree.specs.Env.{fields_of};
ghost use Rattle.c_meaning.specs.Layout as layout;
ghost use Rattle.c_value_checker.specs.Seen.{seen};
ghost use Rattle.c_code.specs.Resolved as spec;
ghost use Rattle.c_code.specs.Resolved.{resolve_shape};
ghost use Rattle.c_resolver.specs.declared.found.Reached.TheVariants as reached;
ghost use Rattle.c_resolver.specs.Shown.{found_seen, level_shown, looks};

use crate::constants::{character_cell, constant_cell, number_cell, place_cell, size_cell};
use crate::found::{Found, Reached, known};
use crate::kinds::{constant_kind, function_kind, number_kind, variable_kind};
use crate::lookups::{cell, code, literal_cell, nothing, routine_cell, static_place};
use crate::scope::Scope;
use crate::tables::Tables;
use c_code::{Code, Start};
use c_lexer::Constant;
use c_meaning::Cell;
use c_tree::{CType, Kind, KindBase, Name, Number, Sort, Span};
use c_value_checker::{Environment, INT, TEXT};
use std::alloc::Global;
use vg_base::Memory;

// A value of a kind that is no place.
fn plain(kind: Option<Kind>, value: Code) -> Found
    ensures { result ≡ record { kind = kind; null = false; reached = reached.Value value } }
{
    Found {
        kind,
        null: false,
        reached: Reached::Value(value),
    }
}

/// A number as it is written.
pub fn number(alloc: Global, scope: &Scope, tables: &Tables, written: Number, start: u32) -> Found
    ensures { found_seen (seen scope.now.environment) result ≡ level_shown (looks tables.now scope.now) start (resolve_shape (Shape-F.Number written)) }
{
    plain(
        Some(number_kind(written.kind)),
        cell(alloc, number_cell(written)),
    )
}

/// A character.
pub fn character(alloc: Global, scope: &Scope, tables: &Tables, byte: u8, start: u32) -> Found
    ensures { found_seen (seen scope.now.environment) result ≡ level_shown (looks tables.now scope.now) start (resolve_shape (Shape-F.Character byte)) }
{
    plain(Some(INT), cell(alloc, character_cell(byte)))
}

/// A text literal.
pub fn text(alloc: Global, scope: &Scope, tables: &Tables, bytes: &[u8], start: u32) -> Found
    ensures { found_seen (seen scope.now.environment) result ≡ level_shown (looks tables.now scope.now) start (resolve_shape (Shape-F.Text bytes.now)) }
{
    plain(
        Some(TEXT),
        literal_cell(alloc, tables.literals.as_slice(), start),
    )
}

/// A capital name.
pub fn constant(
    alloc: Global,
    scope: &Scope,
    tables: &Tables,
    constant: Constant,
    start: u32,
) -> Found
    ensures { found_seen (seen scope.now.environment) result ≡ level_shown (looks tables.now scope.now) start (resolve_shape (Shape-F.Constant constant)) }
{
    Found {
        kind: Some(constant_kind(constant)),
        null: matches!(constant, Constant::Null),
        reached: Reached::Value(cell(alloc, constant_cell(constant))),
    }
}

// The place of a variable: in the frame, or a block of its own.
fn variable_place(alloc: Global, scope: &Scope, tables: &Tables, name: &[u8]) -> Code
    ensures { result ≡ spec.variable (looks tables.now scope.now) name.now }
{
    match scope.variables.find(name) {
        Some(found) => code(alloc, Start::Local(found.meaning)),
        None => static_place(alloc, tables.statics.as_slice(), name),
    }
}

/// A variable.
pub fn variable(alloc: Global, scope: &Scope, tables: &Tables, name: &Name, start: u32) -> Found
    ensures { found_seen (seen scope.now.environment) result ≡ level_shown (looks tables.now scope.now) start (resolve_shape (Shape-F.Variable name.now)) }
{
    Found {
        kind: variable_kind(&scope.environment, name),
        null: false,
        reached: Reached::Place(variable_place(alloc, scope, tables, name.text.as_slice())),
    }
}

/// A function.
pub fn function(alloc: Global, scope: &Scope, tables: &Tables, name: &Name, start: u32) -> Found
    ensures { found_seen (seen scope.now.environment) result ≡ level_shown (looks tables.now scope.now) start (resolve_shape (Shape-F.Function name.now)) }
{
    plain(
        function_kind(&scope.environment, name),
        routine_cell(alloc, tables, name.text.as_slice()),
    )
}

/// A member of an enum.
pub fn member(alloc: Global, scope: &Scope, tables: &Tables, name: &Name, start: u32) -> Found
    ensures { found_seen (seen scope.now.environment) result ≡ level_shown (looks tables.now scope.now) start (resolve_shape (Shape-F.Member name.now)) }
{
    let value = match scope.environment.find(name) {
        Some(Sort::Member(number)) => cell(alloc, Cell::Int(number as i64)),
        _ => nothing(alloc),
    };
    plain(Some(INT), value)
}

/// `sizeof (X)`.
pub fn size(
    alloc: Global,
    scope: &Scope,
    tables: &Tables,
    declared: &CType,
    span: Span,
    start: u32,
) -> Result<Found, Memory>
    ensures { IfOk result (λ found. found_seen (seen scope.now.environment) found ≡ level_shown (looks tables.now scope.now) start (resolve_shape (Shape-F.SizeOf declared.now span))) }
{
    let kind = scope.environment.kind_of(declared)?;
    let cells = scope.environment.cells_of(known(kind));
    Ok(plain(
        scope.environment.size(kind).kind(),
        cell(alloc, size_cell(cells)),
    ))
}

// The cells in front of a field of a struct with a number.
fn offset_in(environment: &Environment, number: u32, name: &Name) -> Result<u64, Memory>
    ensures { IfOk result (λ cells. cells ≡ layout.offset_in (seen environment.now) (fields_of (seen environment.now) number) name.now.text) }
{
    match environment.fields(number) {
        None => Ok(0),
        Some(fields) => environment.cells_before(fields, name),
    }
}

/// The cells in front of a field of a kind.
pub fn offset(environment: &Environment, kind: Kind, name: &Name) -> Result<u64, Memory>
    ensures { IfOk result (λ cells. cells ≡ layout.offset (seen environment.now) kind name.now.text) }
{
    match kind.base {
        KindBase::Struct(number) => offset_in(environment, number, name),
        _ => Ok(0),
    }
}

/// `G_STRUCT_OFFSET (X, f)`.
pub fn place_in(
    alloc: Global,
    scope: &Scope,
    tables: &Tables,
    declared: &CType,
    name: &Name,
    span: Span,
    start: u32,
) -> Result<Found, Memory>
    ensures { IfOk result (λ found. found_seen (seen scope.now.environment) found ≡ level_shown (looks tables.now scope.now) start (resolve_shape (Shape-F.Offset declared.now name.now span))) }
{
    let kind = scope.environment.kind_of(declared)?;
    let cells = offset(&scope.environment, known(kind), name)?;
    Ok(plain(
        scope.environment.offset(kind, name).kind(),
        cell(alloc, place_cell(cells)),
    ))
}
