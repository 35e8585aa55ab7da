// Operands of constants, and the steps of pointers.

ghost use Rattle.std.specs.Prelude.{◌≡◌, IfOk};
ghost use Rattle.c_tree.specs.Checks as checks;
ghost use Rattle.c_constants.specs.Told.{worth_told};
ghost use Rattle.c_value_checker.specs.Seen.{seen};

use crate::operators::both;
use crate::worth::Worth;
use c_tree::{BinaryOperator, Kind, Operand};
use c_value_checker::{Environment, target};
use vg_base::Memory;

// The cells that a pointer's step goes over.
fn step_of(environment: &Environment, kind: Kind) -> u64
    ensures { result ≡ checks.step_of (seen environment.now) kind }
{
    environment.cells_of(target(kind))
}

/// What an operator gives of what two values come to.
pub fn combine_told<'a>(
    environment: &Environment,
    operator: BinaryOperator,
    a: Option<Operand>,
    b: Option<Operand>,
    first: Worth<'a>,
    second: Worth<'a>,
) -> Result<Worth<'a>, Memory>
    ensures { IfOk result (λ worth. worth_told worth ≡ checks.told_both (seen environment.now) operator a b (worth_told first.entry) (worth_told second.entry)) }
{
    match (a, b) {
        (Some(a), Some(b)) => {
            let step = step_of(environment, a.kind);
            both(operator, step, a.kind, b.kind, first, second)
        }
        _ => Ok(Worth::Untold),
    }
}
