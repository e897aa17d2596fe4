// Laws. Each is the contract of a function that does nothing, or nothing but a run.
ghost use Rattle.std.specs.Prelude.{◌≡◌, ◌≢◌, codes, map, string_bytes};
ghost use Rattle.run_steps.specs.Endings.{Refuses, Said};
ghost use Rattle.run_steps.specs.Laws.{AnswersUnless};
ghost use Rattle.run_steps.specs.Messages.{file_message};
ghost use Rattle.program.specs.Laws.{IsOneOutcome, AsksNothing};
ghost use Rattle.dom0less.specs.Job.{IsJob, AreRefused, CallsFor};
ghost use Rattle.dom0less.specs.Laws.{IsReadOfAbsent};
ghost use Rattle.dom0less.specs.Lines.{line};

use crate::top::run;
use outside::{Files, NullOuts, NullSink, Outs, Sink, Status, SureFiles};
use std::alloc::Global;

/// The words and the files call for one outcome: a refusal excludes a build, and two refusals have one status and one line.
pub fn one_outcome()
    ensures { IsOneOutcome CallsFor }
{}

/// Words that are refused call for nothing.
pub fn asks_nothing()
    ensures { AsksNothing AreRefused CallsFor }
{}

/// Where the words and the files call for `Read`, some file is not there: no words and files call for a refusal where a
/// read failed.
pub fn read_of_absent()
    ensures { IsReadOfAbsent }
{}

/// A run over files none of whose calls fails. It never says `read failed`: where it answers `Read`, a file is not there, as
/// the words and what the files hold call for. So they do for every answer but want of memory.
pub fn run_over_sure_files<O: Outs, S: Sink, E: Sink>(
    alloc: Global,
    words: &[String],
    files: &mut SureFiles,
    outs: &mut O,
    out: &mut S,
    err: &mut E,
) -> Status
    ensures absent { result ≡ Status.Read → (name : _)
        × Said E.taken E.faults err.old err.new (line (file_message name (codes "not found")))
        × IsJob (map string_bytes words.now) files.old.files (Refuses result (file_message name (codes "not found"))) }
    ensures exact { (outcome : _) → IsJob (map string_bytes words.now) files.old.files outcome → AnswersUnless ⊥ result outcome }
{
    run(alloc, words, files, outs, out, err)
}

/// A run over outputs and a stream that take all. It never answers `Write`.
pub fn run_over_null_outside<F: Files, E: Sink>(
    alloc: Global,
    words: &[String],
    files: &mut F,
    outs: &mut NullOuts,
    out: &mut NullSink,
    err: &mut E,
) -> Status
    ensures { result ≢ Status.Write }
{
    run(alloc, words, files, outs, out, err)
}
