//! Flows of which their type says with what they began.

ghost use Rattle.std.specs.Coded.{codes};
ghost use Rattle.std.specs.Prelude.{◌≡◌, IfOk};
ghost use Rattle.flame_spec.specs.contracts.outcomes.Source as e;
ghost use Rattle.flame_world.specs.Iterations.{iteration as meant};
ghost use Rattle.flame_flow.specs.FlowCalls.{IsDueShare, IsReady};
ghost use Rattle.flame_flow.specs.declared.jobs.Ready.TheVariants.{Done, Work};
ghost use Rattle.flame_flow.specs.SeenFlows.{Start, start_of};
ghost use Rattle.flame_flowrun.specs.DueJobs.{IsNextIn};
ghost use Rattle.flame_flowrun.specs.FlowRecords.{IsRecordOf};

use flame_core::Recorded;
use flame_flow::{Flow, Job, Ready};
use flame_rows::NoMemory;
use flame_world::{Share, Turn};
use std::alloc::Global;
use std::marker::{Brand, PhantomData};

/// With what a flow began. Each run picks it.
pub(crate) trait Origin {
    ghost start: { Start };
}

impl Origin for Brand {
    ghost use Rattle.flame_flowrun.specs.Origins.{nothing};

    ghost start = { nothing };
}

/// What a worker takes out.
#[derive(Drop)]
pub(crate) enum Next {
    /// A piece to run.
    Work(Job),
    /// Nothing yet.
    Idle,
    /// Nothing more.
    Over,
}

/// A flow that began with the origin.
#[derive(Drop)]
pub(crate) struct Held<'a, K: Origin> {
    flow: Flow<'a>,
    of: PhantomData<K>,
    ghost began: { start_of flow.seen ≡ K.start } by { Prim.hlevel (codes, e.the_row.coded) },
}

/// The piece is begun which `ready` said to begin, or nothing more is.
fn begun(flow: &mut Flow<'_>, function: u32, piece: u32) -> Next
    requires { IsReady flow.old (Work function piece) }
    ensures due { IsNextIn (start_of flow.old.seen) result }
    ensures start { start_of flow.new.seen ≡ start_of flow.old.seen }
{
    let _ready = flow.ready();
    match flow.begin(function, piece) {
        Ok(job) => Next::Work(job),
        Err(_) => Next::Over,
    }
}

/// What a flow that is done came to, with the events that came.
fn recorded(alloc: Global, flow: Flow<'_>) -> Result<Recorded, NoMemory>
    requires { IsReady flow Done }
    ensures { IfOk result (IsRecordOf (start_of flow.entry.seen)) }
{
    let events = flow.history(alloc)?;
    let turn = flow.finish()?;
    Ok(Recorded { turn, events })
}

impl<'a, K: Origin> Held<'a, K> {
    /// This flow, which began with the origin.
    pub(crate) fn new(flow: Flow<'a>) -> Held<'a, K>
        requires { start_of flow.seen ≡ K.start }
    {
        Held {
            flow,
            of: PhantomData,
        }
    }

    /// What a worker may do: a piece that it takes is begun.
    pub(crate) fn next(&mut self) -> Next
        ensures { IsNextIn K.start result }
    {
        match self.flow.ready() {
            Ready::Short => Next::Over,
            Ready::Done => Next::Over,
            Ready::Idle => Next::Idle,
            Ready::Work(function, piece) => begun(&mut self.flow, function, piece),
        }
    }

    /// A worker brings a share back, which is due. Whether it is settled.
    pub(crate) fn take_in(&mut self, share: Share<'_>) -> bool
        requires { IsDueShare K.start share }
    {
        self.flow.take_in(share).is_ok()
    }

    /// The flow is short from now on.
    pub(crate) fn cut_short(&mut self) {
        self.flow.cut_short();
    }

    /// Whether the iteration is complete.
    pub(crate) fn is_done(&self) -> bool {
        matches!(self.flow.ready(), Ready::Done)
    }

    /// Whether there is no piece to run yet, and no end.
    pub(crate) fn is_idle(&self) -> bool {
        matches!(self.flow.ready(), Ready::Idle)
    }

    /// The turn of the iteration, where it is complete. Else memory was wanting: workers end only when it is complete or short.
    pub(crate) fn finish(self) -> Result<Turn, NoMemory>
        ensures { IfOk result (λ turn. turn ≡ meant K.start.source K.start.world K.start.iteration K.start.fuel) }
    {
        let Held { flow, .. } = self;
        match flow.ready() {
            Ready::Done => flow.finish(),
            Ready::Short | Ready::Work(_, _) | Ready::Idle => Err(NoMemory),
        }
    }

    /// The same with the events that came to it.
    pub(crate) fn finish_recorded(self, alloc: Global) -> Result<Recorded, NoMemory>
        ensures { IfOk result (IsRecordOf K.start) }
    {
        let Held { flow, .. } = self;
        match flow.ready() {
            Ready::Done => recorded(alloc, flow),
            Ready::Short | Ready::Work(_, _) | Ready::Idle => Err(NoMemory),
        }
    }
}
