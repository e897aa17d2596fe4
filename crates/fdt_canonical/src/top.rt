// The top call.
ghost use Rattle.std.specs.Prelude.{◌≡◌, ◌≢◌, ◌↔◌, IsNone, ◌<◌, Ok, Some, map, string_bytes, length};
ghost use Rattle.outside.specs.Outside.{and_bytes};
ghost use Rattle.fdt_read.specs.FaultTexts.{fault_text};
ghost use Rattle.fdt_read.specs.Refusals.{refusal};
ghost use Rattle.fdt_write.specs.Flattened.{length_limit};
ghost use Rattle.run_steps.specs.Endings.{Said};
ghost use Rattle.run_steps.specs.Messages.{line, file_message};
ghost use Rattle.run_steps.specs.Steps.{IsReading};
ghost use Rattle.tree_files.specs.Lengths.{too_long_message};
ghost use Rattle.tree_files.specs.Trees.{tree_limit};
ghost use Rattle.program.specs.Runs.{Ran};
ghost use Rattle.filters.specs.Words.{asked_file};
ghost use Rattle.fdt_canonical.specs.Canonical.{IsCanonicalOf, IsOneSpelling};
ghost use Rattle.fdt_canonical.specs.Job.{program_name, AreRefused, CallsFor};
ghost use Rattle.fdt_canonical.specs.Promises.{IsRespelled};

use crate::FdtCanonical;
use crate::laws::finds_nothing;
use outside::{Files, Outs, Sink, Status};
use std::alloc::Global;

/// Puts the canonical spelling of a flattened tree on `out`. The answer is the program's status; a line on `err` says why it
/// is not `Built`.
///
/// `words` are those of the command line, the program's name first: `[TREE]`. Where there is no other word the file is `-`,
/// which is standard input.
pub fn run<F: Files, O: Outs, S: Sink, E: Sink>(
    alloc: Global,
    words: &[String],
    files: &mut F,
    outs: &mut O,
    out: &mut S,
    err: &mut E,
) -> Status
    // The headline: standard output was given the one canonical spelling of the tree that the file spells, at most 2 MiB,
    // which is its own canonical spelling.
    ensures headline { result ≡ Status.Built → (name : _) × (file : _) × (bytes : _)
        × (asked_file (map string_bytes words.now) ≡ Some name)
        × IsReading (F.held files.old) name tree_limit (Ok file)
        × IsOneSpelling file bytes
        × (S.taken out.new ≡ and_bytes (S.taken out.old) bytes) }

    // A file that is no flattened tree has a first fault, which was said.
    ensures fault { result ≡ Status.Format → (name : _) × (file : _) × (fault : _)
        × (asked_file (map string_bytes words.now) ≡ Some name)
        × IsReading (F.held files.old) name tree_limit (Ok file)
        × (refusal file ≡ Some fault)
        × Said E.taken E.faults err.old err.new (line program_name (file_message name (fault_text fault))) }

    // Nothing else is refused but a canonical spelling of more than 2 MiB, whose length was said.
    ensures too_long { result ≡ Status.Refused → (name : _) × (file : _) × (bytes : _)
        × (asked_file (map string_bytes words.now) ≡ Some name)
        × IsReading (F.held files.old) name tree_limit (Ok file)
        × IsCanonicalOf file bytes
        × (length_limit < length bytes)
        × Said E.taken E.faults err.old err.new (line program_name (too_long_message name (length bytes))) }

    // Every other answer leaves standard output as it was: nothing is found.
    ensures out_kept { result ≢ Status.Built → result ≢ Status.Write → out.new ≡ out.old }

    // The words are refused exactly where they ask for no file.
    ensures words { (result ≡ Status.Words) ↔ IsNone (asked_file (map string_bytes words.now)) }

    // How the run ended, as every program's; reading the words takes no memory.
    ensures ran { Ran F.held F.counts O.written O.room O.faults S.taken S.room S.faults E.taken E.faults
        program_name (AreRefused (map string_bytes words.now)) (⊥) (CallsFor (map string_bytes words.now) (F.held files.old)) (IsRespelled (map string_bytes words.now) (F.held files.old))
        files.old files.new outs.old outs.new out.old out.new err.old err.new result }
{
    finds_nothing();
    program::run(&FdtCanonical, alloc, words, files, outs, out, err)
}
