// Structs and signatures, as a unit declares them.

ghost use Rattle.std.specs.Prelude.{◌≡◌, ◌+◌, ◌++◌, [], ◌∷◌, map, IfOk, OnOk, Some};
ghost use Rattle.c_tree.specs.Env.{kind_of, number_of, with_signature};
ghost use Rattle.c_tree.specs.Kinds.{plain};
ghost use Rattle.c_tree.specs.Unit.{define_struct, fields_cells, fields_declared, kept_cells, known_cells, new_struct, parameter_kinds, takes_of};
ghost use Rattle.c_value_checker.specs.Seen.{seen, takes_seen};
ghost use Rattle.c_value_checker.specs.Structures.{field_seen};

use c_tree::{Kind, KindBase, Local, Name, Parameter, Signature, Sort};
use c_value_checker::{Environment, Field, Structure, Takes};
use sqlite_items::Items;
use std::alloc::Global;
use vg_base::Memory;

// 1. Structs

pub fn copy(alloc: Global, text: &[u8]) -> Result<Items<u8>, Memory>
    ensures { IfOk result (λ copy. copy ≡ text.now) }
{
    match Items::from_slice(alloc, text) {
        Ok(copy) => Ok(copy),
        Err(_) => Err(Memory),
    }
}

/// A number of a table, where it has 32 bits.
pub fn number_in(count: usize) -> Result<u32, Memory>
    ensures { IfOk result (λ number. number ≡ count) }
{
    match u32::try_from(count) {
        Ok(number) => Ok(number),
        Err(_) => Err(Memory),
    }
}

/// A kind without `*`.
pub fn plain(base: KindBase) -> Kind
    ensures { result ≡ plain base }
{
    Kind { base, stars: 0 }
}

/// `typedef struct _X X;`: a struct that is not defined yet.
#[tactic(auto, using(crate::proofs::TableLemmas::struct_declared))]
pub fn add_struct<'n>(environment: &mut Environment<'n>, name: &'n Name) -> Result<(), Memory>
    ensures { OnOk result (seen environment.new ≡ new_struct (seen environment.old) name.now) }
{
    let number = number_in(environment.structs.len())?;
    environment.structs.push(Structure {
        name: name.text.as_slice(),
        fields: None,
        cells: 0,
    })?;
    environment.declare(name, Sort::Type(plain(KindBase::Struct(number))))
}

pub fn push_field(fields: &mut Items<Field>, one: Field) -> Result<(), Memory>
    ensures { OnOk result (fields.new ≡ fields.old ++ one ∷ []) }
{
    match fields.push(one) {
        Ok(()) => Ok(()),
        Err(_) => Err(Memory),
    }
}

fn field_of(alloc: Global, environment: &Environment, local: &Local) -> Result<Field, Memory>
    ensures { IfOk result (λ field. field_seen field ≡ record { name = local.now.name.text; kind = kind_of (seen environment.now) local.now.declared }) }
{
    let kind = environment.kind_of(&local.declared)?;
    let name = copy(alloc, local.name.text.as_slice())?;
    Ok(Field { name, kind })
}

// The fields of a struct with their kinds.
fn fields_of(
    alloc: Global,
    environment: &Environment,
    locals: &[Local],
) -> Result<Items<Field>, Memory>
    ensures { IfOk result (λ fields. map field_seen fields ≡ fields_declared (seen environment.now) locals.now) }
{
    let mut fields = Items::new(alloc);
    for local in locals {
        let field = field_of(alloc, environment, local)?;
        push_field(&mut fields, field)?;
    }
    Ok(fields)
}

fn known_cells(environment: &Environment, kind: Option<Kind>) -> u64
    ensures { result ≡ known_cells (seen environment.now) kind }
{
    match kind {
        None => 0,
        Some(kind) => environment.cells_of(kind),
    }
}

// The most cells that are told apart: a struct of as many is never laid out.
const MOST_CELLS: u64 = 1 << 62;

// The cells of fields, as they are kept.
#[tactic(auto, using(crate::proofs::TableLemmas::more_cells))]
fn cells_of_fields(environment: &Environment, fields: &[Field]) -> u64
    ensures { result ≡ kept_cells (fields_cells (seen environment.now) (map field_seen fields.now)) }
{
    let mut cells = 0u64;
    for field in fields {
        cells = cells.saturating_add(known_cells(environment, field.kind));
    }
    if cells < MOST_CELLS {
        cells
    } else {
        MOST_CELLS
    }
}

/// `struct _X { fields };`: the struct with a number is defined.
pub fn define(
    alloc: Global,
    environment: &mut Environment,
    number: usize,
    locals: &[Local],
) -> Result<(), Memory>
    ensures { OnOk result (seen environment.new ≡ define_struct (seen environment.old) (Some number) locals.now) }
{
    let fields = fields_of(alloc, environment, locals)?;
    let cells = cells_of_fields(environment, fields.as_slice());
    environment.structs.define(number, fields, cells);
    Ok(())
}

// 2. Signatures

// A signature that has that number is kept, if it is new.
#[tactic(auto, using(crate::proofs::TableLemmas::signature_added, crate::proofs::TableLemmas::signature_kept))]
fn keep_signature(
    alloc: Global,
    environment: &mut Environment,
    number: usize,
    takes: Takes,
) -> Result<(), Memory>
    ensures { OnOk result (number ≡ number_of (seen environment.old) (takes_seen takes) → seen environment.new ≡ with_signature (seen environment.old) (takes_seen takes)) }
{
    if number < environment.signatures.len() {
        return Ok(());
    }
    environment.signatures.push(alloc, takes)
}

/// The number of a signature, which may be new.
pub fn add_signature(
    alloc: Global,
    environment: &mut Environment,
    takes: Takes,
) -> Result<u32, Memory>
    ensures number { IfOk result (λ number. number ≡ number_of (seen environment.old) (takes_seen takes)) }
    ensures names { OnOk result (seen environment.new ≡ with_signature (seen environment.old) (takes_seen takes)) }
{
    let number = environment.signatures.number(&takes);
    keep_signature(alloc, environment, number, takes)?;
    number_in(number)
}

pub fn push_kind(kinds: &mut Items<Option<Kind>>, one: Option<Kind>) -> Result<(), Memory>
    ensures { OnOk result (kinds.new ≡ kinds.old ++ one ∷ []) }
{
    match kinds.push(one) {
        Ok(()) => Ok(()),
        Err(_) => Err(Memory),
    }
}

fn parameter_kinds(
    alloc: Global,
    environment: &Environment,
    parameters: &[Parameter],
) -> Result<Items<Option<Kind>>, Memory>
    ensures { IfOk result (λ kinds. kinds ≡ parameter_kinds (seen environment.now) parameters.now) }
{
    let mut kinds = Items::new(alloc);
    for parameter in parameters {
        let kind = environment.kind_of(&parameter.declared)?;
        push_kind(&mut kinds, kind)?;
    }
    Ok(kinds)
}

/// What a function takes and gives.
pub fn takes_of(
    alloc: Global,
    environment: &Environment,
    signature: &Signature,
) -> Result<Takes, Memory>
    ensures { IfOk result (λ takes. takes_seen takes ≡ takes_of (seen environment.now) signature.now) }
{
    let result = environment.kind_of(&signature.result)?;
    let parameters = parameter_kinds(alloc, environment, signature.parameters.as_slice())?;
    Ok(Takes { result, parameters })
}
