//! How far functions are by rank.

ghost use Rattle.std.specs.Prelude.{◌≡◌, ◌≤◌, ◌<◌, ◌^◌, ℕ, None, false, length, position, IsTrue};
ghost use Rattle.flame_spec.specs.ModelOrder.{model_order};
ghost use Rattle.flame_world.specs.Iterations.{Round};
ghost use Rattle.flame_events.specs.CoreEnds.{is_complete, is_faulted, least_fault_rank};
ghost use Rattle.flame_events.specs.CoreStates.{Core};
ghost use Rattle.flame_events.specs.EventSteps.{after};
ghost use Rattle.flame_events.specs.LegalEvents.{is_legal};
ghost use Rattle.flame_progress.specs.KeptCores.{core_of};
ghost use Rattle.flame_core.specs.FunctionRanks.{shut_first, shut_ranks, AreRanksOf};

use flame_events::Event;
use flame_program::Program;
use flame_progress::Progress;

/// How far functions are by rank. It is kept from event to event, so that an answer costs nothing.
#[derive(Clone, Copy, Debug)]
pub(crate) struct Ranks {
    /// How many functions are shut, by rank, before the first that is not.
    pub shut: usize,
    /// The least rank of a function that is faulted.
    pub fault: Option<u32>,
}

/// How many of these functions are shut before the first that is not, where it is known of so many that they are.
fn shut_from(progress: &Progress, functions: &[u32], known: usize) -> usize
    requires { known ≤ shut_first (core_of progress.now) functions.now }
    ensures { result ≡ shut_first (core_of progress.now) functions.now }
{
    for i in known..functions.len() {
        if !progress.is_shut(functions[i]) {
            return i;
        }
    }
    functions.len()
}

/// The place of the first of these functions that is faulted, where it is known of so many at the front that they are shut.
fn first_faulted(progress: &Progress, functions: &[u32], known: usize) -> Option<u32>
    requires few { length functions.now < 2 ^ 32 }
    requires known { known ≤ shut_first (core_of progress.now) functions.now }
    ensures { result ≡ position (is_faulted (core_of progress.now)) functions.now }
{
    for i in known..functions.len() {
        if progress.is_faulted(functions[i]) {
            return Some(i as u32);
        }
    }
    None
}

impl Ranks {
    /// Where nothing is shut and nothing is faulted.
    pub(crate) fn none() -> Ranks
        ensures shut { result.shut ≡ 0 }
        ensures fault { result.fault ≡ None }
    {
        Ranks {
            shut: 0,
            fault: None,
        }
    }

    /// Goes on over the functions that are shut now, where those that were shut are so still.
    fn go_on(&mut self, program: &Program, progress: &Progress)
        requires { self.old.shut ≤ shut_ranks program.now.model (core_of progress.now) }
        ensures shut { self.new.shut ≡ shut_ranks program.now.model (core_of progress.now) }
        ensures fault { self.new.fault ≡ self.old.fault }
    {
        self.shut = shut_from(progress, program.plan().order.items(), self.shut);
    }

    /// Looks for the least fault again where the function is faulted, which is asked when it is done: behind those that are
    /// shut, and no further than the least fault.
    fn note_fault(&mut self, program: &Program, progress: &Progress, function: u32)
        requires few { length (model_order program.now.model) < 2 ^ 32 }
        requires known { self.old.shut ≤ shut_ranks program.now.model (core_of progress.now) }
        ensures shut { self.new.shut ≡ self.old.shut }
        ensures fault { IsTrue (is_faulted (core_of progress.now) function)
            → self.new.fault ≡ least_fault_rank program.now.model (core_of progress.now) }
        ensures none { is_faulted (core_of progress.now) function ≡ false → self.new.fault ≡ self.old.fault }
    {
        if progress.is_faulted(function) {
            self.fault = first_faulted(progress, program.plan().order.items(), self.shut);
        }
    }

    /// The event came, which was legal. Going on over functions that are shut is paid once for each in an iteration.
    pub(crate) fn follow(&mut self, program: &Program, progress: &Progress, event: Event)
        requires few { length (model_order program.now.model) < 2 ^ 32 }
        requires shut { self.old.shut ≤ shut_ranks program.now.model (core_of progress.now) }
        ensures shut { self.new.shut ≡ shut_ranks program.now.model (core_of progress.now) }
        ensures fault { (round : Round) (pieces : ℕ) (core : Core)
            → round.source.model ≡ program.now.model
            → IsTrue (is_legal round.source.model core event)
            → core_of progress.now ≡ after round pieces core event
            → self.old.fault ≡ least_fault_rank program.now.model core
            → self.new.fault ≡ least_fault_rank program.now.model (core_of progress.now) }
    {
        self.go_on(program, progress);
        match event {
            Event::Open(_) => {}
            Event::Agent(_, _) => {}
            Event::HandIn(_, _, _) => {}
            Event::Shut(function) => self.note_fault(program, progress, function),
            Event::Freeze(_) => {}
        }
    }

    /// Whether all functions before the first that is faulted are shut, and all where none is.
    pub(crate) fn is_complete(&self, program: &Program) -> bool
        ensures { (core : Core) → AreRanksOf program.now.model core self.now → result ≡ is_complete program.now.model core }
    {
        match self.fault {
            Some(rank) => self.shut == rank as usize,
            None => self.shut == program.plan().order.len(),
        }
    }
}
