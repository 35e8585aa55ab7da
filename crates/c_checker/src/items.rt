// The items of a unit: their faults, and what they declare.

ghost use Rattle.std.specs.Prelude.{◌≡◌, ◌++◌, codes, IfOk, OnOk};
ghost use Rattle.c_tree.specs.Checks.{checked, type_faults};
ghost use Rattle.c_tree.specs.Env.{found, kind_of, opened};
ghost use Rattle.c_tree.specs.Rules.{checked_block, fit, not_laid_out};
ghost use Rattle.c_tree.specs.Unit as spec;
ghost use Rattle.c_tree.specs.declared.unit.Item.TheVariants as item;
ghost use Rattle.c_body_checker.specs.Bodies.{whole_body};
ghost use Rattle.c_checker.specs.Functions.{head_faults};
ghost use Rattle.c_constants.specs.Told.{worth_told};
ghost use Rattle.c_value_checker.specs.Noted.{noted};
ghost use Rattle.c_value_checker.specs.Seen.{seen};

use crate::signatures::{
    add_function, add_function_type, check_again, check_definition, check_signature,
    declare_parameters,
};
use crate::tables::add_struct;
use crate::types::{check_enumeration, check_struct};
use c_body_checker::{check_body, check_fit, judge};
use c_constants::{Worth, worth_of};
use c_tree::{
    Block, Cause, Expr, Function, InterfaceTable, Item, Kind, Name, Signature, Sort, Span,
    StaticVariable,
};
use c_value_checker::{Environment, Findings};
use std::alloc::Global;
use vg_base::Memory;

// 1. Names

// A variable that has the name of something else. That it is no prototype is known behind its name.
fn check_variable_name(environment: &Environment, findings: &mut Findings, name: &Name)
    ensures { findings.new ≡ noted findings.old (spec.variable_twice (found (seen environment.now).scopes name.now.text) name.now) }
{
    match environment.find(name) {
        None => {}
        Some(Sort::Function(_, _, _)) => {
            findings.note(name.span.start, Cause::Twice, name.span.end);
        }
        Some(_) => findings.twice(name),
    }
}

// A name that is no function.
fn check_function_name(environment: &Environment, findings: &mut Findings, name: &Name)
    ensures { findings.new ≡ noted findings.old (spec.function_faults (found (seen environment.now).scopes name.now.text) name.now) }
{
    match environment.find(name) {
        None => findings.undeclared(name),
        Some(Sort::Function(_, _, _)) => {}
        Some(_) => findings.misfit(name.span),
    }
}

// 2. Static variables

// A constant that would end the run.
fn check_worth(findings: &mut Findings, kind: Option<Kind>, worth: Worth, span: Span)
    ensures { findings.new ≡ noted findings.old (spec.ends_faults kind (worth_told worth.entry) span) }
{
    if let (Some(_), Worth::Ends) = (kind, worth) {
        findings.misfit(span);
    }
}

// What a variable of a kind begins with.
fn check_initial(
    alloc: Global,
    environment: &Environment,
    findings: &mut Findings,
    kind: Option<Kind>,
    value: &Expr,
) -> Result<(), Memory>
    ensures { OnOk result (findings.new ≡ noted findings.old ((checked value.now).value.faults (seen environment.now) ++ fit (seen environment.now) kind (checked value.now)
        ++ spec.ends_faults ((checked value.now).value.kind (seen environment.now)) ((checked value.now).value.worth (seen environment.now)) (checked value.now).span)) }
{
    let worth = worth_of(alloc, environment, value)?;
    let found = judge(alloc, environment, findings, value)?;
    check_fit(findings, kind, &found);
    check_worth(findings, found.found.kind, worth, found.span);
    Ok(())
}

// The faults in front of the value, and the kind of what is declared.
fn judge_variable(
    environment: &Environment,
    findings: &mut Findings,
    variable: &StaticVariable,
) -> Result<Option<Kind>, Memory>
    ensures kind { IfOk result (λ kind. kind ≡ kind_of (seen environment.now) variable.now.declared) }
    ensures faults { OnOk result (findings.new ≡ noted findings.old (type_faults (seen environment.now) variable.now.declared ++ spec.variable_twice (found (seen environment.now).scopes variable.now.name.text) variable.now.name
        ++ not_laid_out (seen environment.now) (kind_of (seen environment.now) variable.now.declared) variable.now.name)) }
{
    let kind = environment.kind_of(&variable.declared)?;
    environment.check_type(findings, &variable.declared);
    check_variable_name(environment, findings, &variable.name);
    environment.check_laid_out(findings, kind, &variable.name);
    Ok(kind)
}

fn check_variable<'n>(
    alloc: Global,
    environment: &mut Environment<'n>,
    findings: &mut Findings,
    variable: &'n StaticVariable,
) -> Result<(), Memory>
    ensures names { OnOk result (seen environment.new ≡ spec.with_item (seen environment.old) (item.Variable variable.now)) }
    ensures faults { OnOk result (findings.new ≡ noted findings.old (spec.item_faults checked (checked_block checked) (seen environment.old) (item.Variable variable.now))) }
{
    let kind = judge_variable(environment, findings, variable)?;
    check_initial(alloc, environment, findings, kind, &variable.value)?;
    environment.declare(&variable.name, Sort::Variable(kind))
}

// 3. Tables of interfaces

// What the type of a table means.
fn table_kind(environment: &Environment) -> Option<Kind>
    ensures { result ≡ spec.kind_named (seen environment.now) (codes "GInterfaceInfo") }
{
    match environment.find_text(b"GInterfaceInfo") {
        Some(Sort::Type(kind)) => Some(kind),
        _ => None,
    }
}

fn check_table<'n>(
    environment: &mut Environment<'n>,
    findings: &mut Findings,
    table: &'n InterfaceTable,
) -> Result<(), Memory>
    ensures names { OnOk result (seen environment.new ≡ spec.with_item (seen environment.old) (item.InterfaceTable table.now)) }
    ensures faults { OnOk result (findings.new ≡ noted findings.old (spec.item_faults checked (checked_block checked) (seen environment.old) (item.InterfaceTable table.now))) }
{
    let kind = table_kind(environment);
    check_variable_name(environment, findings, &table.name);
    environment.check_laid_out(findings, kind, &table.name);
    check_function_name(environment, findings, &table.init);
    environment.declare(&table.name, Sort::Variable(kind))
}

// 4. Functions

// The parameters and the outermost block of the body are one scope.
fn check_function_body<'n>(
    alloc: Global,
    environment: &mut Environment<'n>,
    findings: &mut Findings,
    signature: &'n Signature,
    body: &'n Block,
) -> Result<(), Memory>
    ensures names { OnOk result (seen environment.new ≡ seen environment.old) }
    ensures faults { OnOk result (findings.new ≡ noted findings.old (whole_body (spec.with_parameters (opened (seen environment.old)) signature.now.parameters) (kind_of (seen environment.old) signature.now.result) body.now)) }
{
    let gives = environment.kind_of(&signature.result)?;
    environment.open()?;
    declare_parameters(environment, signature.parameters.as_slice())?;
    check_body(alloc, environment, findings, gives, body)?;
    environment.close();
    Ok(())
}

// The faults in front of a body.
fn check_head<'n>(
    alloc: Global,
    environment: &mut Environment<'n>,
    findings: &mut Findings,
    signature: &'n Signature,
) -> Result<(), Memory>
    ensures names { OnOk result (seen environment.new ≡ seen environment.old) }
    ensures faults { OnOk result (findings.new ≡ noted findings.old (head_faults (seen environment.old) signature.now)) }
{
    check_again(alloc, environment, findings, signature, true)?;
    check_signature(environment, findings, signature)?;
    check_definition(environment, findings, signature)
}

fn check_function<'n>(
    alloc: Global,
    environment: &mut Environment<'n>,
    findings: &mut Findings,
    function: &'n Function,
) -> Result<(), Memory>
    ensures names { OnOk result (seen environment.new ≡ spec.with_item (seen environment.old) (item.Function function.now)) }
    ensures faults { OnOk result (findings.new ≡ noted findings.old (spec.item_faults checked (checked_block checked) (seen environment.old) (item.Function function.now))) }
{
    check_head(alloc, environment, findings, &function.signature)?;
    add_function(alloc, environment, &function.signature, true)?;
    check_function_body(
        alloc,
        environment,
        findings,
        &function.signature,
        &function.body,
    )
}

fn check_prototype<'n>(
    alloc: Global,
    environment: &mut Environment<'n>,
    findings: &mut Findings,
    signature: &'n Signature,
) -> Result<(), Memory>
    ensures names { OnOk result (seen environment.new ≡ spec.with_item (seen environment.old) (item.Prototype signature.now)) }
    ensures faults { OnOk result (findings.new ≡ noted findings.old (spec.item_faults checked (checked_block checked) (seen environment.old) (item.Prototype signature.now))) }
{
    check_again(alloc, environment, findings, signature, false)?;
    check_signature(environment, findings, signature)?;
    add_function(alloc, environment, signature, false)
}

// 5. Types

fn check_function_type<'n>(
    alloc: Global,
    environment: &mut Environment<'n>,
    findings: &mut Findings,
    signature: &'n Signature,
) -> Result<(), Memory>
    ensures names { OnOk result (seen environment.new ≡ spec.with_item (seen environment.old) (item.FunctionType signature.now)) }
    ensures faults { OnOk result (findings.new ≡ noted findings.old (spec.item_faults checked (checked_block checked) (seen environment.old) (item.FunctionType signature.now))) }
{
    environment.check_new(findings, &signature.name);
    check_signature(environment, findings, signature)?;
    add_function_type(alloc, environment, signature)
}

fn check_struct_type<'n>(
    environment: &mut Environment<'n>,
    findings: &mut Findings,
    name: &'n Name,
) -> Result<(), Memory>
    ensures names { OnOk result (seen environment.new ≡ spec.with_item (seen environment.old) (item.StructType name.now)) }
    ensures faults { OnOk result (findings.new ≡ noted findings.old (spec.item_faults checked (checked_block checked) (seen environment.old) (item.StructType name.now))) }
{
    environment.check_new(findings, name);
    add_struct(environment, name)
}

/// Notes the faults of an item, and declares what it does.
pub fn check_item<'n>(
    alloc: Global,
    environment: &mut Environment<'n>,
    findings: &mut Findings,
    item: &'n Item,
) -> Result<(), Memory>
    ensures names { OnOk result (seen environment.new ≡ spec.with_item (seen environment.old) item.now) }
    ensures faults { OnOk result (findings.new ≡ noted findings.old (spec.item_faults checked (checked_block checked) (seen environment.old) item.now)) }
{
    match item {
        Item::Include(_) => Ok(()),
        Item::StructType(name) => check_struct_type(environment, findings, name),
        Item::Struct(definition) => check_struct(alloc, environment, findings, definition),
        Item::Enumeration(enumeration) => { check_enumeration(environment, findings, enumeration) }
        Item::FunctionType(signature) => {
            check_function_type(alloc, environment, findings, signature)
        }
        Item::Prototype(signature) => check_prototype(alloc, environment, findings, signature),
        Item::Variable(variable) => check_variable(alloc, environment, findings, variable),
        Item::InterfaceTable(table) => check_table(environment, findings, table),
        Item::Function(function) => check_function(alloc, environment, findings, function),
    }
}
