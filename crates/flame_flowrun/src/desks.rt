//! Where workers take pieces and bring shares.

ghost use Rattle.std.specs.Prelude.{◌≡◌, ◌≤◌, IfSome};
ghost use Rattle.flame_world.specs.WorldFits.{FitsModel};
ghost use Rattle.flame_flow.specs.FlowCalls.{IsDueShare};
ghost use Rattle.flame_flowrun.specs.DueJobs.{IsDueJob};

use crate::held::{Held, Next, Origin};
use flame_core::Core;
use flame_flow::{Flow, Job};
use flame_outside::Gate;
use flame_program::Program;
use flame_rows::{NoMemory, Row};
use flame_share::run_piece;
use flame_world::{Share, World};
use std::alloc::Global;
use std::sync::{Condvar, Mutex, Wait};
use std::thread::Threads;

/// What came of a share that was brought back.
#[derive(Clone, Copy, Debug)]
struct Brought {
    /// Whether it is settled.
    settled: bool,
    /// Whether there is a piece to run, or an end.
    moved: bool,
}

/// What workers share: the flow under a lock, and what each piece has before it, which is the origin's.
#[derive(Drop)]
pub(crate) struct Desk<'a, K: Origin> {
    /// The program.
    pub program: &'a Program,
    /// The constants.
    pub constants: Row,
    /// The number of the iteration.
    pub iteration: i32,
    /// The fuel of each call of a function.
    pub fuel: u32,
    /// Where workers find memory.
    pub alloc: Global,
    /// The flow.
    pub flow: Mutex<Held<'a, K>>,
    /// Told when there is a piece to run, or an end.
    pub moved: Condvar,
    ghost source: { program.now ≡ K.start.source },
    ghost known: { constants ≡ K.start.world.constants },
    ghost number: { iteration ≡ K.start.iteration },
    ghost fueled: { fuel ≡ K.start.fuel },
}

impl<'a, K: Origin> Desk<'a, K> {
    /// The desk of the iteration of this origin.
    pub(crate) fn new(
        alloc: Global,
        program: &'a Program,
        world: World,
        iteration: i32,
        fuel: u32,
        pieces: u32,
    ) -> Result<Desk<'a, K>, NoMemory>
        requires fits { FitsModel program.now.model world }
        requires some { 1 ≤ pieces }
        requires origin { record { source = program.now; world = world; iteration = iteration; fuel = fuel; pieces = pieces }
            ≡ K.start }
    {
        let constants = world.constants.copy()?;
        let core = Core::new(alloc, program, world, iteration, fuel, pieces)?;
        let flow = Flow::new(alloc, core)?;
        Ok(Desk {
            program,
            constants,
            iteration,
            fuel,
            alloc,
            flow: Mutex::new(Held::new(flow)),
            moved: Condvar::new(),
        })
    }

    /// Whether the iteration is complete.
    pub(crate) fn is_done<R: Wait>(&self, rt: &R) -> bool {
        let flow = self.flow.lock(rt);
        flow.is_done()
    }

    /// The flow, which nobody shares any more.
    pub(crate) fn into_flow(self) -> Held<'a, K> {
        let Desk { flow, .. } = self;
        flow.into_inner()
    }

    /// A piece to run, once there is one; none where the worker is to end.
    fn take<R: Wait>(&self, rt: &R) -> Option<Job>
        ensures { IfSome result (λ job. IsDueJob K.start job) }
    {
        let mut flow = self.flow.lock(rt);
        for _ in rt.forever() {
            match flow.next() {
                Next::Work(job) => return Some(job),
                Next::Idle => flow = self.moved.wait(rt, flow),
                Next::Over => return None,
            }
        }
        unreachable!()
    }

    /// The same. Where the worker is to end, all are woken.
    fn next<R: Wait>(&self, rt: &R) -> Option<Job>
        ensures { IfSome result (λ job. IsDueJob K.start job) }
    {
        let job = self.take(rt);
        if job.is_none() {
            self.moved.notify_all();
        }
        job
    }

    /// Settles a share. Where it is not settled the flow is short.
    fn settle<R: Wait>(&self, rt: &R, share: Share<'_>) -> Brought
        requires { IsDueShare K.start share }
    {
        let mut flow = self.flow.lock(rt);
        let settled = flow.take_in(share);
        if !settled {
            flow.cut_short();
        }
        let moved = !flow.is_idle();
        Brought { settled, moved }
    }

    /// Brings a share back, and wakes all where there is something for them. False where the worker is to end.
    fn bring<R: Wait>(&self, rt: &R, share: Share<'_>) -> bool
        requires { IsDueShare K.start share }
    {
        let brought = self.settle(rt, share);
        if brought.moved {
            self.moved.notify_all();
        }
        brought.settled
    }

    /// The flow is short from now on.
    fn cut_short<R: Wait>(&self, rt: &R) {
        let mut flow = self.flow.lock(rt);
        flow.cut_short();
    }

    /// The worker found no memory: the flow is short, and all are woken.
    fn give_up<R: Wait>(&self, rt: &R) {
        self.cut_short(rt);
        self.moved.notify_all();
    }

    /// Runs a piece outside the lock, once the gate lets it pass. False where the worker is to end.
    fn work<G: Gate, R: Threads + Wait + Sync>(&self, rt: &R, gate: &G, job: Job) -> bool
        requires { IsDueJob K.start job }
    {
        let Job { piece, boards } = job;
        gate.enter(rt, piece.function, piece.number);
        match run_piece(
            self.alloc,
            self.program,
            piece,
            &self.constants,
            &boards,
            self.iteration,
            self.fuel,
        ) {
            Ok(share) => self.bring(rt, share),
            Err(_) => {
                self.give_up(rt);
                false
            }
        }
    }
}

/// Takes pieces and brings shares, until there is nothing more to do.
pub(crate) fn worker<K: Origin, G: Gate, R: Threads + Wait + Sync>(
    rt: &R,
    gate: &G,
    desk: &Desk<'_, K>,
) {
    for _ in rt.forever() {
        let Some(job) = desk.next(rt) else {
            return;
        };
        if !desk.work(rt, gate, job) {
            return;
        }
    }
}
