// The top call.
ghost use Rattle.std.specs.Prelude.{◌≡◌, ◌≢◌, ◌↔◌, ◌∷◌, [], IsNone, Some, map, string_bytes};
ghost use Rattle.outside.specs.Outside.{and_bytes};
ghost use Rattle.run_steps.specs.Endings.{Finds, and_files};
ghost use Rattle.program.specs.Runs.{Ran};
ghost use Rattle.guest_load.specs.Lines.{program_name, report};
ghost use Rattle.guest_load.specs.LoadPlaces.{FitIn};
ghost use Rattle.guest_load.specs.Words.{asked};
ghost use Rattle.guest_load.specs.Parts.{AreParts};
ghost use Rattle.guest_load.specs.Job.{tree_of, plan_of, AreRefused, CallsFor};
ghost use Rattle.guest_load.specs.Promises.{IsLoaded};

use crate::GuestLoad;
use crate::laws::{audits_nothing, finds_nothing};
use outside::{Files, Outs, Sink, Status};
use std::alloc::Global;

/// Says where a guest's kernel, ramdisk and tree lie in the first bank of its memory, a line each on `out`, and writes the
/// tree that the guest is started with, which says where the ramdisk lies. The answer is the program's status; a line on
/// `err` says why it is not `Built`.
///
/// `words` are those of the command line, the program's name first: `TREE KERNEL OUT`, and `RAMDISK` where there is one. All
/// bytes are made before the first write.
pub fn run<F: Files, O: Outs, S: Sink, E: Sink>(
    alloc: Global,
    words: &[String],
    files: &mut F,
    outs: &mut O,
    out: &mut S,
    err: &mut E,
) -> Status
    // The headline: the parts are those of the files, they lie in the bank and apart, and the one output is the tree.
    ensures headline { (names : _) → asked (map string_bytes words.now) ≡ Some names → result ≡ Status.Built → (parts : _)
        × AreParts (F.held files.old) names parts
        × FitIn parts.bank (plan_of parts)
        × (O.written outs.new ≡ and_files (O.written outs.old) ((names.out, tree_of parts) ∷ []))
        × (S.taken out.new ≡ and_bytes (S.taken out.old) (report (plan_of parts))) }

    // The words are refused exactly where they ask for nothing.
    ensures words { (result ≡ Status.Words) ↔ IsNone (asked (map string_bytes words.now)) }

    // No list is found, and nothing is audited.
    ensures no_list { (status : _) → (list : _) → CallsFor (map string_bytes words.now) (F.held files.old) (Finds status list) → ⊥ }
    ensures no_audit { result ≢ Status.Differs }

    // How the run ended, as every program's; reading the words takes no memory.
    ensures ran { Ran F.held F.counts O.written O.room O.faults S.taken S.room S.faults E.taken E.faults
        program_name (AreRefused (map string_bytes words.now)) (⊥) (CallsFor (map string_bytes words.now) (F.held files.old)) (IsLoaded (map string_bytes words.now) (F.held files.old))
        files.old files.new outs.old outs.new out.old out.new err.old err.new result }
{
    finds_nothing();
    audits_nothing();
    program::run(&GuestLoad, alloc, words, files, outs, out, err)
}
