// The code of bodies.

ghost use Rattle.std.specs.Prelude.{◌≡◌, [], ◌∷◌, ◌++◌, map, IfOk, OnOk};
ghost use Rattle.c_meaning.specs.Code as meaning;
ghost use Rattle.c_code.specs.Statements as spec;
ghost use Rattle.c_tree.specs.Env.{opened};
ghost use Rattle.c_tree.specs.Unit.{with_parameters};
ghost use Rattle.c_value_checker.specs.Seen.{seen};
ghost use Rattle.c_resolver.specs.Plans.{cells_in, code_at, labels_of, slot_seen};
ghost use Rattle.c_resolver.specs.Shown.{scope_seen, tables_seen, variable_seen};

use crate::blocks::block;
use crate::chains::push;
use crate::labels::add_block_labels;
use crate::locals::{Slot, add_block, kind_of, sum};
use crate::scope::Scope;
use crate::statements::{Plan, taken};
use crate::tables::Tables;
use c_checker::declare_parameters;
use c_code::{Body, Statement, Taken};
use c_tree::{Block, Function, Kind, Parameter};
use c_value_checker::Environment;
use name_table::NameTable;
use sqlite_items::Items;
use std::alloc::Global;
use vg_base::Memory;

// What parameters take.
fn parameters_taken(
    alloc: Global,
    environment: &Environment,
    parameters: &[Parameter],
) -> Result<Items<Taken>, Memory>
    ensures { IfOk result (λ found. found ≡ map (spec.taken (seen environment.now)) (meaning.parameter_kinds (seen environment.now) parameters.now)) }
{
    let mut found = Items::new(alloc);
    for parameter in parameters {
        let kind = kind_of(environment, &parameter.declared)?;
        push(&mut found, taken(environment, kind))?;
    }
    Ok(found)
}

// The cells of what is taken.
fn cells_taken(found: &[Taken]) -> Result<u64, Memory>
    ensures { IfOk result (λ cells. cells ≡ cells_in found.now) }
{
    let mut cells = 0;
    for taken in found {
        cells = sum(cells, taken.cells)?;
    }
    Ok(cells)
}

fn add_parameter<'n>(
    variables: &mut NameTable<'n, u64>,
    parameter: &'n Parameter,
    at: u64,
) -> Result<(), Memory>
    ensures { OnOk result (map variable_seen variables.new ≡ record { name = meaning.optional_name parameter.now.name; at = at } ∷ map variable_seen variables.old) }
{
    match &parameter.name {
        None => variables.push(b"", at),
        Some(name) => variables.push(name.text.as_slice(), at),
    }
}

// The parameters, the first of which is found first.
fn add_parameters<'n>(
    environment: &Environment,
    variables: &mut NameTable<'n, u64>,
    taken: &[Taken],
    parameters: &'n [Parameter],
) -> Result<(), Memory>
    requires { taken.now ≡ map (spec.taken (seen environment.now)) (meaning.parameter_kinds (seen environment.now) parameters.now) }
    ensures { OnOk result (map variable_seen variables.new ≡ meaning.parameter_variables (seen environment.now) 0 parameters.now ++ map variable_seen variables.old) }
{
    let mut index = parameters.len();
    while index > 0 {
        index -= 1;
        let at = cells_taken(&taken[..index])?;
        add_parameter(variables, &parameters[index], at)?;
    }
    Ok(())
}

// The places of the locals, behind the parameters, and of the labels.
fn plan(alloc: Global, gives: Kind, slots: Items<Slot>, inside: &Block) -> Result<Plan, Memory>
    ensures { IfOk result (λ plan. plan ≡ record { gives = gives; slots = slots; labels = labels_of inside.now }) }
{
    let mut labels = Items::new(alloc);
    add_block_labels(alloc, &mut labels, inside)?;
    Ok(Plan {
        gives,
        slots,
        labels,
    })
}

// The statements of a function, in a scope of its own.
fn statements<'n>(
    alloc: Global,
    scope: &mut Scope<'n>,
    tables: &Tables,
    plan: &Plan,
    taken: &[Taken],
    function: &'n Function,
) -> Result<Items<Statement>, Memory>
    requires { taken.now ≡ map (spec.taken (scope_seen scope.old).env) (meaning.parameter_kinds (scope_seen scope.old).env function.now.signature.parameters) }
    ensures code { IfOk result (λ row. row ≡ map (code_at plan.now.gives plan.now.labels (tables_seen tables.now)) (meaning.code_of function.now.body (map slot_seen plan.now.slots)
        (record { env = with_parameters (opened (scope_seen scope.old).env) function.now.signature.parameters; variables = meaning.parameter_variables (scope_seen scope.old).env 0 function.now.signature.parameters ++ (scope_seen scope.old).variables }))) }
    ensures names { OnOk result (scope_seen scope.new ≡ scope_seen scope.old) }
{
    let count = scope.variables.length();
    let parameters = function.signature.parameters.as_slice();
    add_parameters(&scope.environment, &mut scope.variables, taken, parameters)?;
    scope.environment.open()?;
    declare_parameters(&mut scope.environment, parameters)?;
    let row = block(alloc, scope, tables, plan, &function.body)?;
    scope.environment.close();
    scope.variables.truncate(count);
    Ok(row)
}

/// The code of a function that gives a kind, in a scope without variables.
pub fn body<'n>(
    alloc: Global,
    scope: &mut Scope<'n>,
    tables: &Tables,
    gives: Kind,
    function: &'n Function,
) -> Result<Body, Memory>
    ensures code { IfOk result (λ body. (scope_seen scope.old).variables ≡ [] → body ≡ spec.body_code (scope_seen scope.old).env (tables_seen tables.now) gives (meaning.body_of meaning.reading (scope_seen scope.old).env function.now)) }
    ensures names { OnOk result (scope_seen scope.new ≡ scope_seen scope.old) }
{
    let parameters = parameters_taken(
        alloc,
        &scope.environment,
        function.signature.parameters.as_slice(),
    )?;
    let first = cells_taken(parameters.as_slice())?;
    let mut slots = Items::new(alloc);
    let cells = add_block(&scope.environment, &mut slots, first, &function.body)?;
    let plan = plan(alloc, gives, slots, &function.body)?;
    let statements = statements(alloc, scope, tables, &plan, parameters.as_slice(), function)?;
    Ok(Body {
        parameters,
        cells,
        statements,
    })
}
