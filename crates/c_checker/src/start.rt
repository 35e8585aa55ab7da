// What is declared in front of a unit.

ghost use Rattle.std.specs.Prelude.{◌≡◌, [], ◌∷◌, map, IfOk, OnOk};
ghost use Rattle.c_tree.specs.Env as env;
ghost use Rattle.c_tree.specs.Library.{all, library_signatures, library_structs};
ghost use Rattle.c_body_checker.specs.Rows.{row_seen};
ghost use Rattle.c_checker.specs.Tables.{field_row, kind_seen, named_seen, signature_seen, struct_seen, with_rows, with_types};
ghost use Rattle.c_value_checker.specs.Seen.{seen, takes_seen};
ghost use Rattle.c_value_checker.specs.Structures.{field_seen, structure_seen};

use crate::library_types::{
    KindRow, NamedKind, SignatureRow, StructRow, function_types, integer_types, signatures,
    struct_types, structs,
};
use crate::tables::{copy, number_in, push_field, push_kind};
use c_body_checker::{LibraryRow, present_rows};
use c_tree::{Kind, Sort};
use c_value_checker::{Environment, Field, Signatures, Structure, Structures, Takes};
use sqlite_items::Items;
use std::alloc::Global;
use vg_base::Memory;

// 1. Names

fn add_type(environment: &mut Environment, named: &NamedKind) -> Result<(), Memory>
    ensures { OnOk result (seen environment.new ≡ with_types (seen environment.old) (named_seen named.now ∷ [])) }
{
    let kind = Kind {
        base: named.1,
        stars: named.2,
    };
    environment.declare_text(named.0, Sort::Type(kind))
}

// The first of them is declared last.
fn add_types(environment: &mut Environment, mut types: &[NamedKind]) -> Result<(), Memory>
    ensures { OnOk result (seen environment.new ≡ with_types (seen environment.old) (map named_seen types.entry.now)) }
{
    while let [rest @ .., named] = types {
        add_type(environment, named)?;
        types = rest;
    }
    Ok(())
}

// 2. Structs

fn field_of(alloc: Global, row: &NamedKind) -> Result<Field, Memory>
    ensures { IfOk result (λ field. field_seen field ≡ field_row row.now) }
{
    let name = copy(alloc, row.0)?;
    Ok(Field {
        name,
        kind: Some(Kind {
            base: row.1,
            stars: row.2,
        }),
    })
}

fn fields_of(alloc: Global, rows: &[NamedKind]) -> Result<Items<Field>, Memory>
    ensures { IfOk result (λ fields. map field_seen fields ≡ map field_row rows.now) }
{
    let mut fields = Items::new(alloc);
    for row in rows {
        let field = field_of(alloc, row)?;
        push_field(&mut fields, field)?;
    }
    Ok(fields)
}

fn struct_of<'n>(alloc: Global, row: &StructRow) -> Result<Structure<'n>, Memory>
    ensures { IfOk result (λ found. structure_seen found ≡ struct_seen row.now) }
{
    let fields = fields_of(alloc, row.2)?;
    Ok(Structure {
        name: row.0,
        fields: Some(fields),
        cells: row.1,
    })
}

fn structs_of<'n>(alloc: Global, rows: &[StructRow]) -> Result<Structures<'n>, Memory>
    ensures { IfOk result (λ found. found ≡ map struct_seen rows.now) }
{
    let mut found = Structures::new(alloc);
    for row in rows {
        let one = struct_of(alloc, row)?;
        found.push(one)?;
    }
    Ok(found)
}

// 3. Signatures

fn kind_of(row: &KindRow) -> Kind
    ensures { result ≡ kind_seen row.now }
{
    Kind {
        base: row.0,
        stars: row.1,
    }
}

fn kinds_of(alloc: Global, rows: &[KindRow]) -> Result<Items<Option<Kind>>, Memory>
    ensures { IfOk result (λ kinds. kinds ≡ all (map kind_seen rows.now)) }
{
    let mut kinds = Items::new(alloc);
    for row in rows {
        push_kind(&mut kinds, Some(kind_of(row)))?;
    }
    Ok(kinds)
}

fn takes_of(alloc: Global, row: &SignatureRow) -> Result<Takes, Memory>
    ensures { IfOk result (λ takes. takes_seen takes ≡ signature_seen row.now) }
{
    let parameters = kinds_of(alloc, row.1)?;
    Ok(Takes {
        result: Some(kind_of(&row.0)),
        parameters,
    })
}

fn signatures_of(alloc: Global, rows: &[SignatureRow]) -> Result<Signatures, Memory>
    ensures { IfOk result (λ found. map takes_seen found ≡ map signature_seen rows.now) }
{
    let mut found = Signatures::new(alloc);
    for row in rows {
        let one = takes_of(alloc, row)?;
        found.push(alloc, one)?;
    }
    Ok(found)
}

// 4. The library

// The structs and the signatures, and no names.
fn without_names<'n>(alloc: Global) -> Result<Environment<'n>, Memory>
    ensures { IfOk result (λ found. seen found ≡ record { scopes = [] ∷ []; structs = library_structs; signatures = library_signatures }) }
{
    let structs = structs_of(alloc, structs())?;
    let signatures = signatures_of(alloc, signatures())?;
    Ok(Environment::new(alloc, structs, signatures))
}

// The functions, by their numbers in the table. The first of them is declared last.
fn add_rows(environment: &mut Environment, mut rows: &[LibraryRow]) -> Result<(), Memory>
    ensures { OnOk result (seen environment.new ≡ with_rows (seen environment.old) (env.row_entries 0 (map row_seen rows.entry.now))) }
{
    while let [rest @ .., row] = rows {
        let number = number_in(rest.len())?;
        environment.declare_text(row.name, Sort::Row(number))?;
        rows = rest;
    }
    Ok(())
}

/// The library stands in the same scope as the items of a unit.
pub fn library<'n>(alloc: Global) -> Result<Environment<'n>, Memory>
    ensures { IfOk result (λ found. seen found ≡ env.library) }
{
    let mut environment = without_names(alloc)?;
    add_rows(&mut environment, present_rows())?;
    add_types(&mut environment, struct_types())?;
    add_types(&mut environment, function_types())?;
    add_types(&mut environment, integer_types())?;
    Ok(environment)
}
