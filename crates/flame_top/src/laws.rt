//! Laws of reports, and of what is carried out of them. Each function is its contract: it computes nothing.

ghost use Rattle.flame_top.specs.TopLaws.{CallsCarryOut, OneReportForAllWays, OneReportWithoutTraces, TracesAreReplayed, StatusesAreFew, TrialsPutNothing, LinesAreTold, LinesOfRuns};
ghost use Rattle.flame_top.specs.RestartedFiles.{RunsRestartFromFiles, RunsRestartFromOwnFiles};

use flame_driver::laws::{iterated_runs, lines_behind_files, restarted_runs, written_stages};
use flame_load::laws::{accepted_sources, only_inputs, written_numbers};
use flame_outside::laws::{scripts, told_scripts};
use flame_popfile::laws::read_populations_fit;

/// Where nothing fails and there is memory, a call does what its report says; and in any case a first part of it.
pub fn carried_reports()
    ensures { CallsCarryOut }
{
    scripts();
    told_scripts();
}

/// Orders of runs that differ in the number of workers and in how they share the work have one report, and so have orders of
/// trials.
pub fn one_report_for_all_ways()
    ensures { OneReportForAllWays }
{}

/// Words that do not order a trace have one report, whatever text of a trace is given.
pub fn one_report_without_traces()
    ensures { OneReportWithoutTraces }
{}

/// Where the inputs of a trace are read, and its text stands in some file beside them, of at most 67,108,864 bytes, `replay` of
/// that file prints how many events it has.
pub fn traces_are_replayed()
    ensures { TracesAreReplayed }
{}

/// No report has a status above 3: those are of devices and memory.
pub fn few_statuses()
    ensures { StatusesAreFew }
{}

/// A trial puts no file.
pub fn trials_put_nothing()
    ensures { TrialsPutNothing }
{}

/// A report with status 0 has no line for err, and any other one has a line that ends with its line feed.
pub fn lines_are_told()
    ensures { LinesAreTold }
{}

/// What a run prints follows its files that stand: their lines, of the last one perhaps a front, and nothing more. With a
/// status of the report all files of the run stand with their lines; with 6 and the name of a file those that stand do.
pub fn lines_of_runs()
    ensures { LinesOfRuns }
{
    lines_behind_files();
    scripts();
    told_scripts();
    written_stages();
}

/// A run of n + m iterations does what the run of its first n does, and behind it what a run of m does whose population is the
/// file of iteration n. The inputs of the run are read, its first n iterations, one at least, have no fault, and that file has
/// at most 67,108,864 bytes. It may have any name, among any files from which the same model is read; so it may lie where the
/// first run left it, if no file of that run has the name of an input of the model. The whole report is that of the first run,
/// and behind it that of the second: acts, line for err and status.
pub fn restarts_from_files()
    ensures any { RunsRestartFromFiles }
    ensures own { RunsRestartFromOwnFiles }
{
    restarted_runs();
    iterated_runs();
    written_stages();
    read_populations_fit();
    accepted_sources();
    written_numbers();
    only_inputs();
}
