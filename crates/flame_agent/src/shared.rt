//! Views that all agents of a function share.

ghost use Rattle.std.specs.Prelude.{◌≡◌, ℤ, List, Some, IfOk, map, option_map, option_and_then, slice_get};
ghost use Rattle.std.specs.Option.{option_copied};
ghost use Rattle.flame_index.specs.FrozenBoards.{messages_on, shared_messages};
ghost use Rattle.flame_agent.specs.ViewsForAll.{reads_memory, AreForAll, IsForAll};

use flame_cond::Filter;
use flame_cond::laws::unread_memory_tells_nothing;
use flame_index::Frozen;
use flame_program::Program;
use flame_program::laws::accepted_are_runnable;
use flame_rows::{NoMemory, Row, Seq, number};
use flame_view::View;
use flame_view::laws::views_are_as_written;
use std::alloc::Global;
use std::marker::Model;
use std::sync::Arc;

/// The views of a function's inputs that no agent's memory changes, each made once for many agents. It is seen as what they
/// show, in the order of the inputs: nothing where each agent makes its own.
#[derive(Debug, Drop)]
pub struct SharedViews<'a> {
    views: Vec<Option<View<'a>>>,
}

impl<'a> Model for SharedViews<'a> {
    ghost use Rattle.std.specs.Prelude.{List, Option, ℤ};

    ghost Value = { List (Option (List (List ℤ))) };

    ghost view = { λ a. a.views.items };
}

/// Whether a number of the agent's memory stands in the filter of an input, if it has one: then each agent makes its own view.
pub fn reads_memory(filter: Option<&Filter>) -> bool
    ensures { result ≡ reads_memory (option_copied filter.entry) }
{
    match filter {
        Some(filter) => filter.reads_memory(),
        None => false,
    }
}

/// The view of this board, which the function of this number reads by its input of this number, where no memory changes it.
fn view_for_all<'a>(
    alloc: Global,
    program: &Program,
    function: u32,
    input: u32,
    board: &'a Frozen,
) -> Result<Option<View<'a>>, NoMemory>
    ensures { IfOk result (λ found. (view : List (List ℤ)) → found ≡ Some view
        → IsForAll program.now function input (messages_on board.now) view) }
{
    accepted_are_runnable();
    views_are_as_written();
    unread_memory_tells_nothing();
    let _source = program.source();
    let filter = program.filter(function, input);
    if reads_memory(filter) {
        return Ok(None);
    }
    let sort = program.sort(function, input);
    let view = View::new(alloc, board, filter, sort, &Row::of(Vec::new(alloc)))?;
    Ok(Some(view))
}

impl<'a> SharedViews<'a> {
    /// The views of these boards, one for each input of the function, that so many agents share. One agent alone makes all of its own.
    /// `NoMemory` comes where none is found, and where 32 bits cannot number the function's inputs.
    pub fn of(
        alloc: Global,
        program: &Program,
        boards: &'a Seq<Arc<Frozen>>,
        function: u32,
        agents: usize,
    ) -> Result<SharedViews<'a>, NoMemory>
        ensures { IfOk result (AreForAll program.now function (map shared_messages boards.entry.now)) }
    {
        let mut views = Vec::new(alloc);
        if agents < 2 {
            return Ok(SharedViews { views });
        }
        let boards = boards.items();
        for i in 0..boards.len() {
            let view = view_for_all(alloc, program, function, number(i)?, &boards[i])?;
            views.push(view)?;
        }
        Ok(SharedViews { views })
    }

    /// The view of the input of this number, where the agents share it.
    pub(crate) fn view(&self, input: usize) -> Option<&View<'a>>
        ensures { option_map (λ view. view.now) result ≡ option_and_then (λ view. view) (slice_get self.now input) }
    {
        match self.views.get(input) {
            Some(Some(view)) => Some(view),
            Some(None) => None,
            None => None,
        }
    }
}
