// The top call.
ghost use Rattle.std.specs.Prelude.{⊤, ◌≡◌, ◌⊎◌, ◌∷◌, [], IsNone, Some, map, string_bytes, codes, true};
ghost use Rattle.outside.specs.Outside.{and_bytes};
ghost use Rattle.run_steps.specs.Endings.{Finds, Said, and_files};
ghost use Rattle.program.specs.Runs.{Ran};
ghost use Rattle.dom0less_words.specs.Command.{is_taken};
ghost use Rattle.dom0less_words.specs.Settings.{settings};
ghost use Rattle.dom0less_words.specs.Words.{Build, Check, Show, Script};
ghost use Rattle.build_sources.specs.Configs.{IsMade};
ghost use Rattle.build_sources.specs.Scripts.{script_file, unused_lines};
ghost use Rattle.dom0less.specs.Lines.{program_name, line};
ghost use Rattle.dom0less.specs.Job.{AreRefused, CallsFor};
ghost use Rattle.dom0less.specs.Headline.{IsDescribedAudit, IsDescribedBuild, IsListing, NamesFirstRefused, IsRefusedBefore};
ghost use Rattle.dom0less.specs.Promises.{IsPromised};

use crate::Dom0less;
use outside::{Files, Outs, Sink, Status};
use std::alloc::Global;

/// Builds the guests that a configuration, a script with a tree, or a ready tree describes, audits the images of such a
/// build, writes a configuration's boot script alone, lists a tree, or builds a generated tree, as `words` say. The answer
/// is the program's status; a line on `err` says why it is not `Built`.
///
/// `words` are those of the command line, the program's name first; `dom0less_words` reads them. All bytes are made before
/// the first write, and no memory is taken after it.
pub fn run<F: Files, O: Outs, S: Sink, E: Sink>(
    alloc: Global,
    words: &[String],
    files: &mut F,
    outs: &mut O,
    out: &mut S,
    err: &mut E,
) -> Status
    // The headline: where a build answers Built, nothing of what its files describe is refused. Of each guest an image was
    // written whose walk is the guest's map, to the described frames with the described rights and memory type, and a tree
    // that lists exactly the guest's memories, devices, interrupts, shared regions and ports. Frames of two guests meet only
    // in a region that both name by one id.
    ensures headline { (source : _) → (folder : _) → settings (map string_bytes words.now) ≡ Some (Build source folder) → result ≡ Status.Built → (outputs : _) × (report : _)
        × IsDescribedBuild (F.held files.old) source folder outputs report
        × (O.written outs.new ≡ and_files (O.written outs.old) outputs)
        × (S.taken out.new ≡ and_bytes (S.taken out.old) report) }

    // A refused build names the first described item at fault, with its first reason. Before all items stand only the files
    // of a configuration that end past the end of memory, and that its tree leaves no phandle.
    ensures first_refused { (source : _) → (folder : _) → settings (map string_bytes words.now) ≡ Some (Build source folder) → result ≡ Status.Refused → (message : _)
        × Said E.taken E.faults err.old err.new (line message)
        × (NamesFirstRefused (F.held files.old) source folder message ⊎ IsRefusedBefore (F.held files.old) source message) }

    // An audit answers Built only where each image walks as its guest is described, whoever made it, no two images meet but
    // in a region that both guests name by one id, and no table lies in a frame that a guest can reach; nothing is written.
    ensures audit { (source : _) → (folder : _) → settings (map string_bytes words.now) ≡ Some (Check source folder) → result ≡ Status.Built → (report : _)
        × IsDescribedAudit (F.held files.old) source folder report
        × (O.written outs.new ≡ O.written outs.old)
        × (S.taken out.new ≡ and_bytes (S.taken out.old) report) }

    // A listing goes to standard output, and nothing else is written.
    ensures listing { (tree : _) → settings (map string_bytes words.now) ≡ Some (Show tree) → result ≡ Status.Built → (text : _)
        × IsListing (F.held files.old) tree text
        × (O.written outs.new ≡ O.written outs.old)
        × (S.taken out.new ≡ and_bytes (S.taken out.old) text) }

    // A script is the one output, and the names that have no effect are put.
    ensures script { (ask : _) → settings (map string_bytes words.now) ≡ Some (Script ask) → result ≡ Status.Built → (made : _)
        × IsMade (F.held files.old) ask.config ask.files ask.kind made
        × (O.written outs.new ≡ and_files (O.written outs.old) (script_file ask.outputs made ∷ []))
        × (S.taken out.new ≡ and_bytes (S.taken out.old) (unused_lines made.settings.unused)) }

    // The words are refused only where they ask for nothing, and then this or want of memory is answered. Where `clap` takes
    // them, they break a rule of usage; else its text is said.
    ensures words { result ≡ Status.Words → IsNone (settings (map string_bytes words.now)) }
    ensures unasked { IsNone (settings (map string_bytes words.now)) → (result ≡ Status.Words) ⊎ (result ≡ Status.Memory) }
    ensures usage { result ≡ Status.Words → (text : _)
        × Said E.taken E.faults err.old err.new text
        × (is_taken (map string_bytes words.now) ≡ true → text ≡ line (codes "usage")) }

    // No list is called for: of the two halves of `found`, `write` and `room` below the first holds, and `out_kept` has what it
    // asks for.
    ensures no_list { (status : _) → (list : _) → CallsFor (map string_bytes words.now) (F.held files.old) (Finds status list) → ⊥ }

    // How the run ended otherwise, as every program's.
    ensures ran { Ran F.held F.counts O.written O.room O.faults S.taken S.room S.faults E.taken E.faults
        program_name (AreRefused (map string_bytes words.now)) (⊤) (CallsFor (map string_bytes words.now) (F.held files.old)) (IsPromised (map string_bytes words.now) (F.held files.old))
        files.old files.new outs.old outs.new out.old out.new err.old err.new result }
{
    program::run(&Dom0less, alloc, words, files, outs, out, err)
}
