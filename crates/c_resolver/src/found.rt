// What is found of a value.

ghost use Rattle.std.specs.Prelude.{◌≡◌, [], ◌∷◌, IfOk};
ghost use Rattle.c_tree.specs.Checks.{operand_if};
ghost use Rattle.c_meaning.specs.Layout.{known};
ghost use Rattle.c_code.specs.Resolved as spec;
ghost use Rattle.c_value_checker.specs.Seen.{seen};
ghost use Rattle.c_resolver.specs.Shown.{place_reached, value_reached};

use crate::lookups::nothing;
use c_code::{Code, Move};
use c_tree::{Kind, Operand};
use c_value_checker::{Environment, VOID};
use std::alloc::Global;
use vg_base::Memory;

/// The code of a place, which its value is read from, or of a value that is no place.
#[derive(Drop)]
pub enum Reached {
    Place(Code),
    Value(Code),
}

/// The kind of a value, if it has one, whether it is the word `NULL`, and its code.
#[derive(Drop)]
pub struct Found {
    pub kind: Option<Kind>,
    pub null: bool,
    pub reached: Reached,
}

/// The kind of what is well-formed.
pub fn known(kind: Option<Kind>) -> Kind
    ensures { result ≡ known kind }
{
    match kind {
        None => VOID,
        Some(kind) => kind,
    }
}

/// Code, and a move more.
pub fn on(code: Code, one: Move) -> Result<Code, Memory>
    ensures { IfOk result (λ after. after ≡ spec.on code (one ∷ [])) }
{
    let mut code = code;
    match code.moves.push(one) {
        Ok(()) => Ok(code),
        Err(_) => Err(Memory),
    }
}

/// Code, and two moves more.
pub fn on_both(code: Code, first: Move, second: Move) -> Result<Code, Memory>
    ensures { IfOk result (λ after. after ≡ spec.on code (first ∷ second ∷ [])) }
{
    let mut code = code;
    if code.moves.push(first).is_err() {
        return Err(Memory);
    }
    match code.moves.push(second) {
        Ok(()) => Ok(code),
        Err(_) => Err(Memory),
    }
}

/// The value at a place.
pub fn read(environment: &Environment, kind: Option<Kind>, place: Code) -> Result<Code, Memory>
    ensures { IfOk result (λ code. code ≡ spec.read (seen environment.now) kind place) }
{
    let kind = known(kind);
    on(place, Move::Read(kind, environment.cells_of(kind)))
}

/// The value of what is reached.
pub fn value_reached(
    environment: &Environment,
    kind: Option<Kind>,
    reached: Reached,
) -> Result<Code, Memory>
    ensures { IfOk result (λ code. code ≡ value_reached (seen environment.now) kind reached) }
{
    match reached {
        Reached::Place(code) => read(environment, kind, code),
        Reached::Value(code) => Ok(code),
    }
}

/// The place of what is reached.
pub fn place_reached(alloc: Global, reached: Reached) -> Code
    ensures { result ≡ place_reached reached }
{
    match reached {
        Reached::Place(code) => code,
        Reached::Value(_) => nothing(alloc),
    }
}

/// A value as an operand.
pub fn operand(kind: Option<Kind>, null: bool) -> Option<Operand>
    ensures { result ≡ operand_if kind null }
{
    match kind {
        None => None,
        Some(kind) => Some(Operand { kind, null }),
    }
}
