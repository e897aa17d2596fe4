// Laws over the definitions. Each is the contract of a function that does nothing, but the last.
ghost use Rattle.std.specs.Prelude.{◌≢◌};
ghost use Rattle.program.specs.Laws.{IsOneOutcome, AsksNothing, FindsNothing, AuditsNothing};
ghost use Rattle.guest_load.specs.Job.{AreRefused, CallsFor};

use crate::run;
use outside::{Files, NullOuts, NullSink, Sink, Status};
use std::alloc::Global;

/// The words and the files call for one outcome: a refusal excludes a build, and two refusals have one status and one line.
pub fn one_outcome()
    ensures { IsOneOutcome CallsFor }
{}

/// Words that are refused call for nothing.
pub fn asks_nothing()
    ensures { AsksNothing AreRefused CallsFor }
{}

/// No list is called for.
pub fn finds_nothing()
    ensures { FindsNothing CallsFor }
{}

/// Nothing is audited.
pub fn audits_nothing()
    ensures { AuditsNothing CallsFor }
{}

/// A run over outputs and a stream that take all. It never answers `Write`.
pub fn run_over_null_outside<F: Files, E: Sink>(
    alloc: Global,
    words: &[String],
    files: &mut F,
    outs: &mut NullOuts,
    out: &mut NullSink,
    err: &mut E,
) -> Status
    ensures { result ≢ Status.Write }
{
    run(alloc, words, files, outs, out, err)
}
