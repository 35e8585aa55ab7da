// What stands behind a value.

ghost use Rattle.std.specs.Prelude.{◌≡◌, IfOk};
ghost use Rattle.c_value_checker.specs.Seen.{seen};
ghost use Rattle.c_resolver.specs.Shown.{found_seen};
ghost use Rattle.c_resolver.specs.Steps.{arrow_behind, element_behind, field_behind};

use crate::found::{Found, Reached, known, on, on_both, place_reached, value_reached};
use crate::names::offset;
use c_code::Move;
use c_tree::Name;
use c_value_checker::{Environment, target};
use std::alloc::Global;
use vg_base::Memory;

/// `.f` behind a value.
pub fn field(
    alloc: Global,
    environment: &Environment,
    value: Found,
    name: &Name,
) -> Result<Found, Memory>
    ensures { IfOk result (λ after. found_seen (seen environment.now) after ≡ field_behind (seen environment.now) (found_seen (seen environment.now) value) name.now) }
{
    let cells = offset(environment, known(value.kind), name)?;
    let kind = environment.field(value.kind, name).kind();
    let place = place_reached(alloc, value.reached);
    Ok(Found {
        kind,
        null: false,
        reached: Reached::Place(on(place, Move::Field(cells))?),
    })
}

/// `->f` behind a value.
pub fn arrow(environment: &Environment, value: Found, name: &Name) -> Result<Found, Memory>
    ensures { IfOk result (λ after. found_seen (seen environment.now) after ≡ arrow_behind (seen environment.now) (found_seen (seen environment.now) value) name.now) }
{
    let cells = offset(environment, target(known(value.kind)), name)?;
    let kind = environment.arrow(value.kind, name).kind();
    let pointer = value_reached(environment, value.kind, value.reached)?;
    let place = on_both(pointer, Move::Follow, Move::Field(cells))?;
    Ok(Found {
        kind,
        null: false,
        reached: Reached::Place(place),
    })
}

/// `[i]` behind a value.
pub fn element(environment: &Environment, value: Found, index: Found) -> Result<Found, Memory>
    ensures { IfOk result (λ after. found_seen (seen environment.now) after ≡ element_behind (seen environment.now) (found_seen (seen environment.now) value) (found_seen (seen environment.now) index)) }
{
    let cells = environment.cells_of(target(known(value.kind)));
    let kind = environment.index(value.kind, index.kind).kind();
    let at = value_reached(environment, index.kind, index.reached)?;
    let pointer = value_reached(environment, value.kind, value.reached)?;
    Ok(Found {
        kind,
        null: false,
        reached: Reached::Place(on(pointer, Move::Index(at, cells))?),
    })
}
