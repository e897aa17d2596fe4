// The top call.
ghost use Rattle.std.specs.Prelude.{◌≡◌, ◌≢◌, ◌↔◌, ◌∷◌, [], IsNone, Some, map, string_bytes, codes};
ghost use Rattle.outside.specs.Outside.{Rose};
ghost use Rattle.run_steps.specs.Messages.{line, file_message};
ghost use Rattle.run_steps.specs.Endings.{Builds, Finds, Said, and_files, TookUpTo, TakesFiles};
ghost use Rattle.program.specs.Runs.{Ran};
ghost use Rattle.fdt_overlay.specs.Lines.{program_name};
ghost use Rattle.fdt_overlay.specs.Asked.{asked};
ghost use Rattle.fdt_overlay.specs.Overlays.{IsOverlaid};
ghost use Rattle.fdt_overlay.specs.Job.{bytes_of, AreRefused, CallsFor};
ghost use Rattle.fdt_overlay.specs.Promises.{IsPromised};

use crate::FdtOverlay;
use crate::laws::{audits_nothing, finds_nothing, reports_nothing};
use crate::no_report::NoReport;
use outside::{Files, Outs, Sink, Status};
use std::alloc::Global;

/// Applies overlays to a base, one after the other, and writes the tree that they make, with the base's reservations and
/// boot processor. The answer is the program's status; a line on `err` says why it is not `Built`. Nothing is put on `out`.
///
/// `words` are those of the command line, the program's name first: `BASE OUT`, and one to sixteen overlays. All bytes are
/// made before the write.
pub fn run<F: Files, O: Outs, S: Sink, E: Sink>(
    alloc: Global,
    words: &[String],
    files: &mut F,
    outs: &mut O,
    out: &mut S,
    err: &mut E,
) -> Status
    // The headline: the one output is the base with the overlays applied one after the other, where all are those of the files.
    ensures headline { (names : _) → asked (map string_bytes words.now) ≡ Some names → result ≡ Status.Built → (made : _)
        × IsOverlaid (F.held files.old) names made
        × (O.written outs.new ≡ and_files (O.written outs.old) ((names.out, bytes_of made) ∷ [])) }

    // The words are refused exactly where they ask for nothing.
    ensures words { (result ≡ Status.Words) ↔ IsNone (asked (map string_bytes words.now)) }

    // The write failed, only where the faults rose: nothing of the output was taken, or its name with a prefix of its bytes.
    ensures write { result ≡ Status.Write → (outputs : _) × (report : _) × (name : _)
        × CallsFor (map string_bytes words.now) (F.held files.old) (Builds outputs report)
        × Said E.taken E.faults err.old err.new (line program_name (file_message name (codes "write failed")))
        × Rose (O.faults outs.old) (O.faults outs.new)
        × TookUpTo (O.written outs.old) (O.written outs.new) outputs name }

    // It fails only where the output that the words and the files call for finds no room that is told.
    ensures room { result ≡ Status.Write → (outputs : _) × (report : _)
        × CallsFor (map string_bytes words.now) (F.held files.old) (Builds outputs report)
        × (TakesFiles (O.room outs.old) outputs → ⊥) }

    // Every answer leaves `out` as it was.
    ensures out_kept { out.new ≡ out.old }

    // No list is found, and nothing is audited.
    ensures no_list { (status : _) → (list : _) → CallsFor (map string_bytes words.now) (F.held files.old) (Finds status list) → ⊥ }
    ensures no_audit { result ≢ Status.Differs }

    // How the run ended, as every program's; reading the words takes no memory.
    ensures ran { Ran F.held F.counts O.written O.room O.faults S.taken S.room S.faults E.taken E.faults
        program_name (AreRefused (map string_bytes words.now)) (⊥) (CallsFor (map string_bytes words.now) (F.held files.old)) (IsPromised (map string_bytes words.now) (F.held files.old))
        files.old files.new outs.old outs.new out.old out.new err.old err.new result }
{
    finds_nothing();
    audits_nothing();
    reports_nothing();
    program::run(&FdtOverlay, alloc, words, files, outs, &mut NoReport, err)
}
