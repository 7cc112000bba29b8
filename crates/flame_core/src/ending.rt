//! What an iteration comes to.

ghost use Rattle.std.specs.Prelude.{◌≡◌, IfOk};
ghost use Rattle.flame_spec.specs.ModelOrder.{model_order};
ghost use Rattle.flame_world.specs.Iterations.{turn_of, unless_faulted};
ghost use Rattle.flame_events.specs.CoreEnds.{first_fault};
ghost use Rattle.flame_events.specs.CoreStates.{fault_of};
ghost use Rattle.flame_pieces.specs.KeptStatuses.{status_of};
ghost use Rattle.flame_progress.specs.KeptCores.{core_of};

use flame_pieces::Status;
use flame_program::Program;
use flame_progress::Progress;
use flame_round::closed;
use flame_rows::{NoMemory, Row};
use flame_world::{SimFault, Turn};
use std::alloc::Global;
use std::mem;

/// The fault of a status, which is waiting then.
fn taken_fault(status: &mut Status) -> Option<SimFault>
    ensures { result ≡ fault_of (status_of status.old) }
{
    match mem::replace(status, Status::Waiting) {
        Status::Waiting => None,
        Status::Open(_) => None,
        Status::Shut => None,
        Status::Faulted(fault) => Some(fault),
    }
}

/// The fault of the first of these functions that is faulted.
fn taken_first(progress: &mut Progress, functions: &[u32]) -> Option<SimFault>
    ensures fault { result ≡ first_fault (core_of progress.old) functions.now }
    ensures field { (core_of progress.new).field ≡ (core_of progress.old).field }
{
    for function in functions {
        if progress.is_faulted(*function) {
            return taken_fault(&mut progress.statuses[*function as usize]);
        }
    }
    None
}

/// The turn that a core comes to which is complete.
pub(crate) fn ended(
    alloc: Global,
    program: &Program,
    constants: Row,
    progress: Progress,
) -> Result<Turn, NoMemory>
    ensures { IfOk result (λ turn. turn ≡ turn_of constants
        (unless_faulted (first_fault (core_of progress) (model_order program.now.model)) (core_of progress).field)) }
{
    let mut progress = progress;
    match taken_first(&mut progress, program.plan().order.items()) {
        Some(fault) => Ok(Turn::Faulted(fault)),
        None => {
            let (world, boards) = closed(alloc, constants, progress.field)?;
            Ok(Turn::Done(world, boards))
        }
    }
}
