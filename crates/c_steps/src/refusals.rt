// What has no value ends the run.

ghost use Rattle.std.specs.Prelude.{OnOk};
ghost use Rattle.c_meaning.specs.Blocks.{undefined};
ghost use Rattle.c_steps.specs.Performs.{Goes, Refusing};

use c_run_state::Run;
use vg_base::{Fault, Memory, UndefKind};

/// The run ends by a use without a meaning.
pub fn undefined(run: &mut Run, kind: UndefKind) -> Result<(), Memory>
    ensures { OnOk result (Goes (λ s. undefined s kind) run.old run.new) }
{
    run.undefined(kind);
    Ok(())
}

/// A use without a meaning ends the run; want of memory stays that.
pub fn refuse(run: &mut Run, fault: Fault<UndefKind>) -> Result<(), Memory>
    ensures { OnOk result (Refusing fault run.old run.new) }
{
    match fault {
        Fault::Refused(kind) => undefined(run, kind),
        Fault::Memory => Err(Memory),
    }
}
