//! Laws of runs. Each function is its contract: it computes nothing.

ghost use Rattle.flame_driver.specs.WholeRuns.{UnfailingRunsAreWhole};
ghost use Rattle.flame_driver.specs.IteratedRuns.{RunsAreIterated, RunsGoOn, StagesAreWritten};
ghost use Rattle.flame_driver.specs.FileNames.{NamesDiffer};
ghost use Rattle.flame_driver.specs.LineLaws.{LinesFollowFiles};
ghost use Rattle.flame_driver.specs.RestartLaws.{RunsRestart};

use flame_popfile::laws::written_reads_back;
use flame_world::laws::worlds_stay_worlds;

/// Where no put and no write failed and memory was found, `drive` ends as the run does, by its fault or without one;
/// all files and lines of the run stand, and nothing else changed; and `files` is the number of its iterations.
pub fn unfailing_runs()
    ensures { UnfailingRunsAreWhole }
{}

/// A run is its iterations, one after another from the start on, up to the first that faults.
pub fn iterated_runs()
    ensures { RunsAreIterated }
{}

/// A run of more iterations is one of the first, where those have no fault, and then one from the last of them. A fault
/// among the first ends both runs alike.
pub fn runs_that_go_on()
    ensures { RunsGoOn }
{}

/// Of each iteration a file and a line are written.
pub fn written_stages()
    ensures { StagesAreWritten }
{}

/// Iterations with different numbers have files with different names, so that a run puts no name twice.
pub fn different_names()
    ensures { NamesDiffer }
{}

/// What is printed of a run follows its files that stand: their lines, of the last one perhaps a front, and nothing
/// more.
pub fn lines_behind_files()
    ensures { LinesFollowFiles }
{}

/// A run goes on from a file of its own: that of n + m iterations has the files and lines of the first n, where those
/// have no fault, and then those of m from the file of the last of them. It holds of an accepted source whose function
/// files write numbers of int alone, from a world of its model whose number is 0 at least, and in each version of the
/// file.
pub fn restarted_runs()
    ensures { RunsRestart }
{
    worlds_stay_worlds();
    written_reads_back();
}
