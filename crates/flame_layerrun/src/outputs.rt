//! The messages that the functions of a layer output.

ghost use Rattle.std.specs.Prelude.{◌<◌, OnOk, length};
ghost use Rattle.std.specs.List.{All};
ghost use Rattle.flame_spec.specs.Before.{function_count};
ghost use Rattle.flame_layerrun.specs.LayerTasks.{AreListed};

use flame_lanes::{Messages, Task, add_all};
use flame_program::Program;
use flame_rows::NoMemory;

/// Lists the messages that the functions of these tasks output.
pub fn list_outputs(
    messages: &mut Messages,
    program: &Program,
    tasks: &[Task],
) -> Result<(), NoMemory>
    requires { All (λ task. task.function < function_count program.now.model) tasks.now }
    ensures all { OnOk result (AreListed program.now.model messages.new tasks.now) }
    ensures known { OnOk result (All (λ message. message < length program.now.model.messages) messages.old
        → All (λ message. message < length program.now.model.messages) messages.new) }
{
    let routes = program.routes().routes.items();
    for task in tasks {
        add_all(messages, routes[task.function as usize].outputs.items())?;
    }
    Ok(())
}
