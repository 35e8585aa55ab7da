// A run that is opened.

ghost use Rattle.std.specs.Prelude.{◌≡◌, [], true, IfOk, OnOk};
ghost use Rattle.c_meaning.specs.Blocks.{make, next_block};
ghost use Rattle.c_meaning.specs.Texts.{text_cells};
ghost use Rattle.c_meaning.specs.Layout.{declared};
ghost use Rattle.c_resolver.specs.Shown.{scope_seen};
ghost use Rattle.c_resolver.specs.Routines.{items_have_code};
ghost use Rattle.c_run_state.specs.Shows.{InShown};
ghost use Rattle.c_opening.specs.Opened.{IsOpened};
ghost use Rattle.c_opening.specs.Opens.{Becomes, Entered};

use c_checker::declared;
use c_code::Routine;
use c_meaning::Cell;
use c_resolver::{Fault, Scope, Tables, literals, routines, tables_of};
use c_run_state::Run;
use c_texts::push_text;
use c_tree::Unit;
use sqlite_items::Items;
use std::alloc::Global;
use vg_base::Memory;

/// A run before its first step, and the code of the functions of its unit by their numbers.
#[derive(Drop)]
pub struct Opened {
    pub run: Run,
    pub routines: Items<Routine>,
}

/// A run that is being opened, and the blocks of its text literals and static variables so far.
#[derive(Drop)]
pub struct Opening<'u> {
    pub run: Run,
    pub tables: Tables<'u>,
}

impl Opening<'_> {
    /// A block with these cells, by its number.
    pub fn make_block(&mut self, cells: &[Cell]) -> Result<u64, Memory>
        ensures number { IfOk result (λ number. InShown self.old.run (λ s. number ≡ next_block s)) }
        ensures made { OnOk result (Becomes (λ s. make s cells.now) self.old self.new) }
    {
        self.run.make_block(cells)
    }

    /// A block with the cells of a text, by its number.
    pub fn make_text(&mut self, alloc: Global, bytes: &[u8]) -> Result<u64, Memory>
        ensures number { IfOk result (λ number. InShown self.old.run (λ s. number ≡ next_block s)) }
        ensures made { OnOk result (Becomes (λ s. make s (text_cells bytes.now)) self.old self.new) }
    {
        let mut cells = Vec::new(alloc);
        push_text(&mut cells, bytes)?;
        self.make_block(cells.as_slice())
    }
}

// A run of a unit with an input and a name, which stands before its first step.
fn entered<'u>(
    alloc: Global,
    unit: &'u Unit,
    scope: &Scope,
    input: Vec<u8>,
    name: &[u8],
) -> Result<Opening<'u>, Memory>
    requires { scope_seen scope.now ≡ record { env = declared unit.now; variables = [] } }
    ensures { IfOk result (Entered unit.now (record { name = name.now; input = input.items; entries = [] })) }
{
    let texts = literals(alloc, unit)?;
    let tables = tables_of(alloc, unit, Items::new(alloc), Items::new(alloc))?;
    let mut opening = Opening {
        run: Run::new(alloc, input),
        tables,
    };
    opening.add_literals(alloc, texts.as_slice())?;
    opening.add_statics(alloc, scope, unit.items.as_slice())?;
    opening.add_types()?;
    opening.enter_main(alloc, name)?;
    Ok(opening)
}

// What is declared at the end of a unit, outside of functions.
fn scope_of<'u>(alloc: Global, unit: &'u Unit) -> Result<Scope<'u>, Memory>
    ensures { IfOk result (λ scope. scope_seen scope ≡ record { env = declared unit.now; variables = [] }) }
{
    let environment = declared(alloc, unit.items.as_slice())?;
    Ok(Scope::new(alloc, environment))
}

/// Opens a run of a unit with an input and a name.
pub fn open(alloc: Global, unit: &Unit, input: Vec<u8>, name: &[u8]) -> Result<Opened, Memory>
    requires code { items_have_code unit.now.items ≡ true }
    ensures { IfOk result (IsOpened unit.now (record { name = name.now; input = input.items; entries = [] })) }
{
    let mut scope = scope_of(alloc, unit)?;
    let opening = entered(alloc, unit, &scope, input, name)?;
    match routines(alloc, &mut scope, &opening.tables) {
        Ok(routines) => Ok(Opened {
            run: opening.run,
            routines,
        }),
        Err(Fault::Memory) => Err(Memory),
        Err(Fault::Library(_)) => unreachable!(),
    }
}
