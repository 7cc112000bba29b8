//! The top call.

ghost use Rattle.std.specs.Prelude.{◌≡◌, ◌≢◌, Some, IsTrue, map, string_bytes};
ghost use Rattle.flame_outside.specs.Files.{Files};
ghost use Rattle.flame_outside.specs.Frames.{Grows};
ghost use Rattle.flame_outside.specs.Failures.{PutFailed, WriteFailed};
ghost use Rattle.flame_outside.specs.Scripts.{outside, GoesOn};
ghost use Rattle.flame_words.specs.CommandLines.{order_of};
ghost use Rattle.flame_load.specs.TextReads.{Reader, ReadsTexts};
ghost use Rattle.flame_top.specs.CallAnswers.{CarriesOutWords, CarriesOutTrial, HasCause, TellsStatus, Leaves};

use crate::orders::carry;
use crate::tell::tell;
use flame_outside::{Depot, Gate, Sink};
use std::alloc::Global;
use std::sync::Wait;
use std::thread::Threads;

/// How a call ended.
#[derive(Clone, Copy, Debug, PartialEq, Eq)]
pub struct Ended {
    /// 0 where the order was carried out, 1 for refused input, 2 for refused words, 3 for a fault of an iteration, 4
    /// for want of memory, 5 for an input that could not be read, 6 for a file or an output that could not be written.
    pub status: u8,
    /// How many puts on the depot answered Ok.
    pub files: u32,
}

/// Carries out a command line: the words behind the program's name. Options stand anywhere behind the command, each
/// at most once. Names are those of files of `depot`.
///
/// - `run MODEL POP OUT N [--workers W] [--fuel F] [--sync layers|flow|nodes] [--by VARIABLE] [--format 1|2]` runs N
///   iterations, 0 to 1,000,000, of the model on the population. After each it puts the file whose name is OUT, the
///   iteration's number and `.json`, in that format, and then prints `iteration I agents A messages M`. It goes on up to
///   the first iteration that faults.
/// - `check MODEL` prints `accepted agents A functions F messages M`.
/// - `graph MODEL` prints the functions in their order, and which stands before which.
/// - `code MODEL` prints the code of the functions and of the helpers.
/// - `trial SEED SIZE N [--workers W] [--fuel F] [--sync layers|flow|nodes] [--by VARIABLE]` runs N iterations, 0 to 20,
///   of the meadow, a model that the program carries, on SIZE agents, 0 to 10,000, which SEED, 0 to 4,294,967,295,
///   draws. Its files are in memory, and `depot` is left as it is. It prints the lines of the run and, where no iteration
///   faults, `bytes T`: how many bytes its files have together.
/// - `migrate MODEL POP OUT` puts the population as the file OUT, in format 2 and with empty boards, and then prints
///   `migrated agents A`.
/// - `trace MODEL POP OUT [--workers W] [--fuel F]` runs the iteration that comes next from the population, by flow, and
///   puts its trace as the file OUT: the events of its workers and what they came to, of which the verdict is Yes. Then it
///   prints `traced E events`; where the iteration faults, its fault is told instead.
/// - `replay MODEL POP TRACE` prints `replayed E events` where the verdict on the trace in the file TRACE is Yes; each other
///   verdict refuses it.
///
/// W is how many workers there are, 1 to 64; F is how many turns of loops and calls of helpers each call of a
/// function may take, 0 to 1,000,000,000. Without an option it is `--workers 1`, `--fuel 1000000`, `--sync layers`
/// and `--format 1`. The agents of functions run in pieces that the W workers share, who call `gate` just before they run a
/// piece; where a thread cannot be started, the others do its work, by `nodes` without a call of `gate`. By `layers` the
/// functions of a layer run side by side, and the layers one after another; by `flow` a function runs as soon as all that
/// stand before it are done; by `nodes` functions run one after another, each worker with a part of the agents of its own:
/// dealt out in turn or, where their type has a variable VARIABLE that is no array, in ranges of it.
///
/// All inputs are read before anything is put or printed: the model file MODEL and those nested in it, at most 64,
/// then their function files, each of at most 4,194,304 bytes, then POP and then TRACE, each of at most 67,108,864. A run
/// whose last iteration would have a number above 2147483647 is refused, and so are a trace and a replay of such an iteration.
///
/// On each status but 0 one line goes to `err`, by one write: the first fault of the words, the first refusal of an
/// input, the fault of the iteration, `no memory`, or the input or the output that failed. Where memory is not found
/// for the line, the status is 4, and `no memory` is tried once. A write of the line that fails leaves the status as
/// it is.
pub fn flame<Rt: Threads + Wait + Sync, D: Depot, S: Sink, G: Gate>(
    rt: &Rt,
    alloc: Global,
    words: &[String],
    depot: &mut D,
    out: &mut S,
    err: &mut S,
    gate: &G,
) -> Ended
    // Where the depot tells its files, with each reader that reads texts as they are read.
    ensures carries { (told : Files) (read : Reader) → (D.seen depot.old).files ≡ Some told → ReadsTexts read
        → CarriesOutWords read told (order_of (map string_bytes words.now)) result.status result.files
        (outside (D.seen depot.old) (S.seen out.old)) (outside (D.seen depot.new) (S.seen out.new))
        (S.seen err.old) (S.seen err.new) }

    // Whatever the devices tell.
    ensures trial { (read : Reader) → ReadsTexts read
        → CarriesOutTrial read (order_of (map string_bytes words.now)) result.status result.files
        (outside (D.seen depot.old) (S.seen out.old)) (outside (D.seen depot.new) (S.seen out.new))
        (S.seen err.old) (S.seen err.new) }
    ensures causes { HasCause (order_of (map string_bytes words.now)) result.status
        (outside (D.seen depot.old) (S.seen out.old)) (outside (D.seen depot.new) (S.seen out.new)) }
    ensures tells { TellsStatus (order_of (map string_bytes words.now)) result.status (S.seen err.old) (S.seen err.new) }
    ensures leaves { Leaves (order_of (map string_bytes words.now)) result.status result.files
        (outside (D.seen depot.old) (S.seen out.old)) (outside (D.seen depot.new) (S.seen out.new)) }
    ensures goes_on { GoesOn
        (outside (D.seen depot.old) (S.seen out.old)) (outside (D.seen depot.new) (S.seen out.new)) }
    ensures error { Grows (S.seen err.old) (S.seen err.new) }

    // A device that never fails is not blamed.
    ensures calm_depot { IsTrue (D.seen depot.old).calm → (result.status ≢ 5)
        × (result.status ≡ 6 → WriteFailed (S.seen out.old) (S.seen out.new)) }
    ensures calm_out { IsTrue (S.seen out.old).calm → result.status ≡ 6
        → PutFailed (D.seen depot.old) (D.seen depot.new) }
{
    let carried = carry(rt, alloc, gate, words, depot, out);
    tell(alloc, carried, err)
}
