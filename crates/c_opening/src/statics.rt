// The blocks of static variables.

ghost use Rattle.std.specs.Prelude.{◌≡◌, [], IfOk, OnOk};
ghost use Rattle.c_tree.specs.declared.unit.Item.TheVariants as item;
ghost use Rattle.c_meaning.specs.Layout.{declared, kind};
ghost use Rattle.c_meaning.specs.Runs.{static_block, with_static, with_statics};
ghost use Rattle.c_meaning.specs.Steps.{cells_in};
ghost use Rattle.c_code.specs.Values.{value_seen};
ghost use Rattle.c_resolver.specs.Shown.{scope_seen};
ghost use Rattle.c_value_checker.specs.Seen.{seen};
ghost use Rattle.c_opening.specs.Opens.{Becomes, IsOutside, Refusing, unit_of};

use crate::entry::number_in;
use crate::opening::Opening;
use c_code::Value;
use c_evaluator::value_of;
use c_meaning::Cell;
use c_resolver::{Fixed, Scope, initial};
use c_tree::{CType, InterfaceTable, Item, Kind, Name, StaticVariable};
use c_value_checker::{Environment, VOID};
use sqlite_items::Items;
use std::alloc::Global;
use vg_base::{Fault, Memory, UndefKind};

// The kind of what is declared.
fn kind_of(environment: &Environment, declared: &CType) -> Result<Kind, Memory>
    ensures { IfOk result (λ found. found ≡ kind (seen environment.now) declared.now) }
{
    match environment.kind_of(declared)? {
        Some(kind) => Ok(kind),
        None => Ok(VOID),
    }
}

impl Opening<'_> {
    // What has no value ends the run; want of memory stays that.
    fn refuse(&mut self, fault: Fault<UndefKind>) -> Result<(), Memory>
        ensures { OnOk result (Refusing fault self.old self.new) }
    {
        match fault {
            Fault::Refused(kind) => {
                self.run.undefined(kind);
                Ok(())
            }
            Fault::Memory => Err(Memory),
        }
    }

    // A static variable has a block with these cells.
    fn add_static(&mut self, alloc: Global, name: &Name, cells: &[Cell]) -> Result<(), Memory>
        ensures { OnOk result (Becomes (λ s. static_block s name.now.text cells.now) self.old self.new) }
    {
        let Ok(text) = Items::from_slice(alloc, name.text.as_slice()) else {
            return Err(Memory);
        };
        let block = self.make_block(cells)?;
        let tables = &mut self.tables;
        match tables.statics.push(Fixed { name: text, block }) {
            Ok(()) => Ok(()),
            Err(_) => Err(Memory),
        }
    }

    // One with the cells of a value.
    fn add_value(&mut self, alloc: Global, name: &Name, value: &Value) -> Result<(), Memory>
        ensures { OnOk result (Becomes (λ s. static_block s name.now.text (cells_in (value_seen value.now))) self.old self.new) }
    {
        match value {
            Value::Scalar(cell) => self.add_static(alloc, name, &[*cell]),
            Value::Struct(cells) => self.add_static(alloc, name, cells.as_slice()),
        }
    }

    // A static variable has a block with its first value, where that has a meaning.
    fn add_variable(
        &mut self,
        alloc: Global,
        scope: &Scope,
        variable: &StaticVariable,
    ) -> Result<(), Memory>
        requires { IsOutside self.old scope.now }
        ensures { OnOk result (Becomes (λ s. with_static (unit_of self.old) s (item.Variable variable.now)) self.old self.new) }
    {
        let kind = kind_of(&scope.environment, &variable.declared)?;
        let code = initial(alloc, scope, &self.tables, kind, &variable.value)?;
        match value_of(alloc, &self.run.heap, 0, &code) {
            Ok(value) => self.add_value(alloc, &variable.name, &value),
            Err(fault) => self.refuse(fault),
        }
    }

    // The table of an interface has a block with its function, where there is one.
    fn add_interface(&mut self, alloc: Global, table: &InterfaceTable) -> Result<(), Memory>
        ensures { OnOk result (Becomes (λ s. with_static (unit_of self.old) s (item.InterfaceTable table.now)) self.old self.new) }
    {
        match number_in(self.tables.routines.as_slice(), table.init.text.as_slice()) {
            Some(number) => self.add_static(
                alloc,
                &table.name,
                &[Cell::Func(number), Cell::Null, Cell::Null],
            ),
            None => self.refuse(Fault::Refused(UndefKind::Kind)),
        }
    }

    // What an item of the unit has a block for.
    fn add_item(&mut self, alloc: Global, scope: &Scope, item: &Item) -> Result<(), Memory>
        requires { IsOutside self.old scope.now }
        ensures { OnOk result (Becomes (λ s. with_static (unit_of self.old) s item.now) self.old self.new) }
    {
        match item {
            Item::Variable(variable) => self.add_variable(alloc, scope, variable),
            Item::InterfaceTable(table) => self.add_interface(alloc, table),
            _ => Ok(()),
        }
    }

    /// Each static variable has a block.
    pub fn add_statics(
        &mut self,
        alloc: Global,
        scope: &Scope,
        items: &[Item],
    ) -> Result<(), Memory>
        requires { IsOutside self.old scope.now }
        ensures { OnOk result (Becomes (λ s. with_statics (unit_of self.old) s items.now) self.old self.new) }
    {
        for item in items {
            self.add_item(alloc, scope, item)?;
        }
        Ok(())
    }
}
