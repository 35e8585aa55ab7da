// Structs and enums: their faults, and what they declare.

ghost use Rattle.std.specs.Prelude.{◌≡◌, ◌++◌, [], ◌∷◌, is_some, not, OnOk};
ghost use Rattle.c_tree.specs.Checks.{type_faults};
ghost use Rattle.c_tree.specs.Env.{declare, kind_of, structure_named};
ghost use Rattle.c_tree.specs.Kinds.{int};
ghost use Rattle.c_tree.specs.declared.kinds.Sort.TheVariants as sort;
ghost use Rattle.c_tree.specs.Faults.{twice, unless};
ghost use Rattle.c_tree.specs.Rules.{not_laid_out, twice_here};
ghost use Rattle.c_tree.specs.Unit as spec;
ghost use Rattle.name_table.specs.Names.{latest};
ghost use Rattle.c_value_checker.specs.Noted.{noted};
ghost use Rattle.c_value_checker.specs.Seen.{seen};

use crate::tables::{define, number_in};
use c_constants::member_value;
use c_tree::{Enumeration, Local, Member, Name, Sort, Span, StructDefinition};
use c_value_checker::{Environment, Findings, INT};
use name_table::NameTable;
use std::alloc::Global;
use vg_base::Memory;

// 1. Structs

/// Fields by their names, and where each stands.
type FieldTable<'f> = NameTable<'f, Span>;

fn has_field(table: &FieldTable, name: &Name) -> bool
    ensures { result ≡ is_some (latest name.now.text table.now) }
{
    table.find(name.text.as_slice()).is_some()
}

fn check_field_name(findings: &mut Findings, before: &FieldTable, name: &Name)
    ensures { findings.new ≡ noted findings.old (unless (not (is_some (latest name.now.text before.now))) (twice name.now)) }
{
    if has_field(before, name) {
        findings.twice(name);
    }
}

// A field that stands behind others.
fn check_field(
    environment: &Environment,
    findings: &mut Findings,
    before: &FieldTable,
    field: &Local,
) -> Result<(), Memory>
    ensures { OnOk result (findings.new ≡ noted findings.old (type_faults (seen environment.now) field.now.declared
        ++ unless (not (is_some (latest field.now.name.text before.now))) (twice field.now.name) ++ not_laid_out (seen environment.now) (kind_of (seen environment.now) field.now.declared) field.now.name)) }
{
    let kind = environment.kind_of(&field.declared)?;
    environment.check_type(findings, &field.declared);
    check_field_name(findings, before, &field.name);
    environment.check_laid_out(findings, kind, &field.name);
    Ok(())
}

fn check_fields(
    alloc: Global,
    environment: &Environment,
    findings: &mut Findings,
    fields: &[Local],
) -> Result<(), Memory>
    ensures { OnOk result (findings.new ≡ noted findings.old (spec.field_faults (seen environment.now) [] fields.now)) }
{
    let mut before = NameTable::new(alloc);
    for field in fields {
        check_field(environment, findings, &before, field)?;
        before.push(field.name.text.as_slice(), field.name.span)?;
    }
    Ok(())
}

// `struct _X` stands behind `typedef struct _X X;`, and once.
fn check_struct_name(
    environment: &Environment,
    findings: &mut Findings,
    number: Option<usize>,
    name: &Name,
) -> Result<(), Memory>
    ensures { OnOk result (findings.new ≡ noted findings.old (spec.struct_faults (seen environment.now) number name.now)) }
{
    let Some(number) = number else {
        findings.undeclared(name);
        return Ok(());
    };
    let number = number_in(number)?;
    if environment.fields(number).is_some() {
        findings.twice(name);
    }
    Ok(())
}

// A struct that stands there is defined.
fn define_if(
    alloc: Global,
    environment: &mut Environment,
    number: Option<usize>,
    fields: &[Local],
) -> Result<(), Memory>
    ensures { OnOk result (seen environment.new ≡ spec.define_struct (seen environment.old) number fields.now) }
{
    match number {
        None => Ok(()),
        Some(number) => define(alloc, environment, number, fields),
    }
}

/// `struct _X { fields };`
pub fn check_struct(
    alloc: Global,
    environment: &mut Environment,
    findings: &mut Findings,
    definition: &StructDefinition,
) -> Result<(), Memory>
    ensures names { OnOk result (seen environment.new ≡ spec.define_struct (seen environment.old) (structure_named 0 (seen environment.old).structs definition.now.name.text) definition.now.fields) }
    ensures faults { OnOk result (findings.new ≡ noted findings.old (spec.struct_faults (seen environment.old) (structure_named 0 (seen environment.old).structs definition.now.name.text) definition.now.name
        ++ spec.field_faults (seen environment.old) [] definition.now.fields)) }
{
    let number = environment.structs.number(definition.name.text.as_slice());
    check_struct_name(environment, findings, number, &definition.name)?;
    check_fields(alloc, environment, findings, definition.fields.as_slice())?;
    define_if(alloc, environment, number, definition.fields.as_slice())
}

// 2. Enums

fn check_member<'n>(
    environment: &mut Environment<'n>,
    findings: &mut Findings,
    member: &'n Member,
) -> Result<(), Memory>
    ensures names { OnOk result (seen environment.new ≡ spec.with_members (seen environment.old) (member.now ∷ [])) }
    ensures faults { OnOk result (findings.new ≡ noted findings.old (twice_here (seen environment.old) member.now.name)) }
{
    environment.check_new(findings, &member.name);
    environment.declare(&member.name, Sort::Member(member_value(member.number)))
}

fn check_members<'n>(
    environment: &mut Environment<'n>,
    findings: &mut Findings,
    members: &'n [Member],
) -> Result<(), Memory>
    ensures names { OnOk result (seen environment.new ≡ spec.with_members (seen environment.old) members.now) }
    ensures faults { OnOk result (findings.new ≡ noted findings.old (spec.member_faults (seen environment.old) members.now)) }
{
    for member in members {
        check_member(environment, findings, member)?;
    }
    Ok(())
}

/// `typedef enum { members } X;`
pub fn check_enumeration<'n>(
    environment: &mut Environment<'n>,
    findings: &mut Findings,
    enumeration: &'n Enumeration,
) -> Result<(), Memory>
    ensures names { OnOk result (seen environment.new ≡ declare (spec.with_members (seen environment.old) enumeration.now.members) enumeration.now.name (sort.Type int)) }
    ensures faults { OnOk result (findings.new ≡ noted findings.old (spec.member_faults (seen environment.old) enumeration.now.members ++ twice_here (spec.with_members (seen environment.old) enumeration.now.members) enumeration.now.name)) }
{
    check_members(environment, findings, enumeration.members.as_slice())?;
    environment.check_new(findings, &enumeration.name);
    environment.declare(&enumeration.name, Sort::Type(INT))
}
