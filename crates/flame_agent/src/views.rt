//! What an agent reads: the views of the boards of a function's inputs.

ghost use Rattle.std.specs.Prelude.{◌≡◌, ℤ, List, Some, OnOk, map, option_map};
ghost use Rattle.flame_code.specs.Feeds.{not_begun};
ghost use Rattle.flame_meaning.specs.Outcomes.{place_of};
ghost use Rattle.flame_index.specs.FrozenBoards.{messages_on};
ghost use Rattle.flame_world.specs.Meaning.{readings_from};
ghost use Rattle.flame_world.specs.Settings.{boards_of};
ghost use Rattle.flame_agent.specs.FunctionFits.{FitsFunction};
ghost use Rattle.flame_agent.specs.InputViews.{IsReadNext};
ghost use Rattle.flame_agent.specs.ViewsForAll.{AreForAll, IsForAll};

use crate::shared::SharedViews;
use flame_index::Frozen;
use flame_program::Program;
use flame_program::laws::accepted_are_runnable;
use flame_rows::{NoMemory, Row, number};
use flame_view::laws::views_are_as_written;
use flame_view::{View, Views};
use flame_world::Setting;

/// Adds the view of this board, which the function of this number reads by its input of this number, to the views.
fn push_own<'a>(
    views: &mut Views<'a>,
    program: &Program,
    function: u32,
    input: u32,
    board: &'a Frozen,
    memory: &Row,
) -> Result<(), NoMemory>
    ensures { OnOk result (IsReadNext program.now function input memory.now (messages_on board.now) views.old views.new) }
{
    accepted_are_runnable();
    views_are_as_written();
    let _source = program.source();
    let filter = program.filter(function, input);
    let sort = program.sort(function, input);
    views.push_new(board, filter, sort, memory)?;
    Ok(())
}

/// The same: that which all agents share, if there is one, else the agent's own.
fn push_shared_or_own<'a>(
    views: &mut Views<'a>,
    program: &Program,
    function: u32,
    input: u32,
    board: &'a Frozen,
    shared: Option<&'a View<'a>>,
    memory: &Row,
) -> Result<(), NoMemory>
    requires { (view : List (List ℤ)) → option_map (λ view. view.now) shared ≡ Some view
        → IsForAll program.now function input (messages_on board.now) view }
    ensures { OnOk result (IsReadNext program.now function input memory.now (messages_on board.now) views.old views.new) }
{
    match shared {
        Some(view) => {
            views.push(view.shared())?;
            Ok(())
        }
        None => push_own(views, program, function, input, board, memory),
    }
}

/// Puts the views of the setting's boards, of which no row has come, in place of those that the list has. Those that all
/// agents share are not made anew, and the agent's own pick their rows into the lists of those before. After `NoMemory` the
/// list is of no further use.
pub(crate) fn put_views<'a>(
    program: &Program,
    setting: &Setting<'a>,
    function: u32,
    shared: &'a SharedViews<'a>,
    memory: &Row,
    views: &mut Views<'a>,
) -> Result<(), NoMemory>
    requires fits { FitsFunction program.now.model function setting.now memory.now }
    requires shared { AreForAll program.now function (boards_of setting.now) shared.now }
    ensures { OnOk result (views.new ≡ map not_begun
        (readings_from (place_of program.now function) program.now.model memory.now (boards_of setting.now))) }
{
    let boards = setting.boards.items();
    views.clear();
    for i in 0..boards.len() {
        push_shared_or_own(
            views,
            program,
            function,
            number(i)?,
            &boards[i],
            shared.view(i),
            memory,
        )?;
    }
    Ok(())
}
