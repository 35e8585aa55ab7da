// The functions of a unit.

ghost use Rattle.std.specs.Prelude.{◌≡◌, true, [], map, reverse, is_none, IfErr, IfOk, OnOk};
ghost use Rattle.c_meaning.specs.Code.{program_by, reading};
ghost use Rattle.c_meaning.specs.Layout.{declared};
ghost use Rattle.c_code.specs.Resolved as resolved;
ghost use Rattle.c_code.specs.Statements.{have_code, routine_codes};
ghost use Rattle.c_value_checker.specs.Seen.{seen};
ghost use Rattle.c_resolver.specs.Names.{names_of};
ghost use Rattle.c_resolver.specs.Routines as spec;
ghost use Rattle.c_resolver.specs.Shown.{fixed_seen, looks, scope_seen, standing_seen, tables_seen};

use crate::bodies::body;
use crate::calls::value_in;
use crate::chains::{add, push};
use crate::labels::copied;
use crate::locals::kind_of;
use crate::missing::missing_block;
use crate::scope::Scope;
use crate::tables::{Fixed, Standing, Tables};
use c_code::{Body, Code, Routine};
use c_tree::{Expr, Function, Item, Kind, Name, Signature, Span, Unit};
use c_value_checker::is_void;
use sqlite_items::Items;
use std::alloc::Global;
use vg_base::Memory;

/// Why a unit has no code.
#[derive(Clone, Copy)]
pub enum Fault {
    /// There is too little memory, or a number is too large.
    Memory,
    /// A function of the library that has no code is called, by the name that stands there.
    Library(Span),
}

/// A function: its name, the kind that it gives, and its body where it is defined.
#[derive(Drop)]
pub struct Known {
    pub name: Items<u8>,
    pub gives: Kind,
    pub body: Option<Body>,
}

// 1. Names

fn has_name(names: &[Items<u8>], name: &[u8]) -> bool
    ensures { result ≡ spec.has_name names.now name.now }
{
    for other in names {
        if other.as_slice() == name {
            return true;
        }
    }
    false
}

fn add_name(alloc: Global, names: &mut Items<Items<u8>>, name: &Name) -> Result<(), Memory>
    ensures { OnOk result (names.new ≡ spec.with_name names.old name.now.text) }
{
    if has_name(names.as_slice(), name.text.as_slice()) {
        return Ok(());
    }
    let text = copied(alloc, name.text.as_slice())?;
    push(names, text)
}

fn add_item_name(alloc: Global, names: &mut Items<Items<u8>>, item: &Item) -> Result<(), Memory>
    ensures { OnOk result (names.new ≡ spec.names_behind names.old item.now) }
{
    match item {
        Item::Prototype(signature) => add_name(alloc, names, &signature.name),
        Item::Function(function) => add_name(alloc, names, &function.signature.name),
        _ => Ok(()),
    }
}

fn names_in(alloc: Global, items: &[Item]) -> Result<Items<Items<u8>>, Memory>
    ensures { IfOk result (λ names. names ≡ spec.all_names [] items.now) }
{
    let mut names = Items::new(alloc);
    for item in items {
        add_item_name(alloc, &mut names, item)?;
    }
    Ok(names)
}

// The names of the functions of a unit, in the order of their numbers.
fn routine_names(alloc: Global, unit: &Unit) -> Result<Items<Items<u8>>, Memory>
    ensures { IfOk result (λ names. names ≡ names_of (program_by reading unit.now).routines) }
{
    names_in(alloc, unit.items.as_slice())
}

/// The tables of a unit whose text literals and static variables have blocks.
pub fn tables_of<'n>(
    alloc: Global,
    unit: &'n Unit,
    literals: Items<Standing>,
    statics: Items<Fixed>,
) -> Result<Tables<'n>, Memory>
    ensures seen { IfOk result (λ tables. tables_seen tables ≡ record { literals = map standing_seen literals; statics = map fixed_seen statics; routines = (program_by reading unit.now).routines }) }
    ensures unit { IfOk result (λ tables. tables.unit.now ≡ unit.now) }
{
    let routines = routine_names(alloc, unit)?;
    Ok(Tables {
        unit,
        literals,
        statics,
        routines,
    })
}

// 2. Functions

fn gives_in(known: &[Known], name: &[u8], otherwise: Kind) -> Kind
    ensures { result ≡ spec.gives_in known.now name.now otherwise }
{
    for other in known {
        if other.name.as_slice() == name {
            return other.gives;
        }
    }
    otherwise
}

// Which function has a name, if one does.
fn number_of(known: &[Known], name: &[u8]) -> usize
    ensures { result ≡ spec.number_in known.now name.now }
{
    for number in 0..known.len() {
        if known[number].name.as_slice() == name {
            return number;
        }
    }
    known.len()
}

fn add_known(known: &mut Items<Known>, one: Known) -> Result<(), Memory>
    ensures { OnOk result (known.new ≡ spec.with_known known.old one) }
{
    let number = number_of(known.as_slice(), one.name.as_slice());
    if known.len() <= number {
        return push(known, one);
    }
    if one.body.is_some() {
        known.set(number, one);
    }
    Ok(())
}

fn add_prototype(
    alloc: Global,
    scope: &Scope,
    known: &mut Items<Known>,
    signature: &Signature,
) -> Result<(), Memory>
    ensures { OnOk result (known.new ≡ spec.with_known known.old (spec.declared_known (seen scope.now.environment) signature.now)) }
{
    let one = Known {
        name: copied(alloc, signature.name.text.as_slice())?,
        gives: kind_of(&scope.environment, &signature.result)?,
        body: None,
    };
    add_known(known, one)
}

fn add_function<'n>(
    alloc: Global,
    scope: &mut Scope<'n>,
    tables: &Tables,
    known: &mut Items<Known>,
    function: &'n Function,
) -> Result<(), Memory>
    requires { (scope_seen scope.old).variables ≡ [] }
    ensures code { OnOk result (known.new ≡ spec.with_known known.old (spec.defined_known (scope_seen scope.old).env (tables_seen tables.now) known.old function.now)) }
    ensures names { OnOk result (scope_seen scope.new ≡ scope_seen scope.old) }
{
    let name = function.signature.name.text.as_slice();
    let kind = kind_of(&scope.environment, &function.signature.result)?;
    let gives = gives_in(known.as_slice(), name, kind);
    let code = body(alloc, scope, tables, gives, function)?;
    let one = Known {
        name: copied(alloc, name)?,
        gives,
        body: Some(code),
    };
    add_known(known, one)
}

fn add_item<'n>(
    alloc: Global,
    scope: &mut Scope<'n>,
    tables: &Tables,
    known: &mut Items<Known>,
    item: &'n Item,
) -> Result<(), Memory>
    requires { (scope_seen scope.old).variables ≡ [] }
    ensures code { OnOk result (known.new ≡ spec.known_behind (scope_seen scope.old).env (tables_seen tables.now) known.old item.now) }
    ensures names { OnOk result (scope_seen scope.new ≡ scope_seen scope.old) }
{
    match item {
        Item::Prototype(signature) => add_prototype(alloc, scope, known, signature),
        Item::Function(function) => add_function(alloc, scope, tables, known, function),
        _ => Ok(()),
    }
}

fn all_known<'n>(
    alloc: Global,
    scope: &mut Scope<'n>,
    tables: &Tables,
    items: &'n [Item],
) -> Result<Items<Known>, Memory>
    requires { (scope_seen scope.old).variables ≡ [] }
    ensures { IfOk result (λ known. known ≡ spec.all_known (scope_seen scope.old).env (tables_seen tables.now) [] items.now) }
{
    let mut known = Items::new(alloc);
    for item in items {
        add_item(alloc, scope, tables, &mut known, item)?;
    }
    Ok(known)
}

// The functions as they run, the last one first.
fn backwards(alloc: Global, known: Items<Known>) -> Result<Vec<Routine>, Memory>
    ensures { IfOk result (λ found. reverse found.items ≡ map spec.routine_of known) }
{
    let mut left = known;
    let mut found = Vec::new(alloc);
    while let Some(one) = left.pop() {
        let routine = Routine {
            is_void: is_void(one.gives),
            body: one.body,
        };
        add(&mut found, routine)?;
    }
    Ok(found)
}

// 3. Calls

fn missing_item(item: &Item) -> Option<Span>
    ensures { is_none result ≡ spec.item_has_code item.now }
{
    match item {
        Item::Function(function) => missing_block(&function.body),
        _ => None,
    }
}

fn missing(items: &[Item]) -> Option<Span>
    ensures { is_none result ≡ spec.items_have_code items.now }
{
    for item in items {
        if let Some(span) = missing_item(item) {
            return Some(span);
        }
    }
    None
}

// 4. The whole

// The code of items of which all calls have code.
fn routines_of<'n>(
    alloc: Global,
    scope: &mut Scope<'n>,
    tables: &Tables,
    items: &'n [Item],
) -> Result<Items<Routine>, Memory>
    requires { (scope_seen scope.old).variables ≡ [] }
    ensures { IfOk result (λ found. found ≡ map spec.routine_of (spec.all_known (scope_seen scope.old).env (tables_seen tables.now) [] items.now)) }
{
    let known = all_known(alloc, scope, tables, items)?;
    let mut found = backwards(alloc, known)?;
    found.reverse();
    Ok(Items::from_vec(found))
}

/// The code of the functions of a unit, by their numbers.
pub fn routines<'n>(
    alloc: Global,
    scope: &mut Scope<'n>,
    tables: &Tables<'n>,
) -> Result<Items<Routine>, Fault>
    requires { scope_seen scope.old ≡ record { env = declared tables.now.unit.now; variables = [] } }
    ensures code { IfOk result (λ found. found ≡ routine_codes (declared tables.now.unit.now) (tables_seen tables.now)) }
    ensures calls { IfOk result (λ found. have_code (tables_seen tables.now).routines ≡ true) }
    ensures refused { IfErr result (spec.refusal tables.now.unit.now.items) }
{
    let items = tables.unit.items.as_slice();
    if let Some(span) = missing(items) {
        return Err(Fault::Library(span));
    }
    match routines_of(alloc, scope, tables, items) {
        Ok(found) => Ok(found),
        Err(_) => Err(Fault::Memory),
    }
}

/// The code of the value of a static variable of a kind.
pub fn initial(
    alloc: Global,
    scope: &Scope,
    tables: &Tables,
    kind: Kind,
    value: &Expr,
) -> Result<Code, Memory>
    ensures { IfOk result (λ code. code ≡ resolved.in_kind kind (resolved.value_code (looks tables.now scope.now) value.now)) }
{
    value_in(alloc, scope, tables, kind, value)
}
