// The top call.
ghost use Rattle.std.specs.Prelude.{◌≡◌, ◌≢◌, ◌↔◌, ◌∷◌, [], IsNone, Some, None, map, string_bytes};
ghost use Rattle.outside.specs.Outside.{and_bytes};
ghost use Rattle.run_steps.specs.Endings.{Finds, and_files};
ghost use Rattle.tree_files.specs.Trees.{IsTreeFile};
ghost use Rattle.program.specs.Runs.{Ran};
ghost use Rattle.source_text.specs.BadNames.{first_bad};
ghost use Rattle.source_text.specs.Printed.{printed};
ghost use Rattle.fdt_source.specs.Words.{Print, Build, asked};
ghost use Rattle.fdt_source.specs.Messages.{program_name};
ghost use Rattle.fdt_source.specs.Texts.{IsTextFile};
ghost use Rattle.fdt_source.specs.Job.{tree_of, AreRefused, CallsFor};
ghost use Rattle.fdt_source.specs.Promises.{IsPromised};

use crate::FdtSource;
use crate::laws::{audits_nothing, finds_nothing};
use outside::{Files, Outs, Sink, Status};
use std::alloc::Global;

/// Prints a flattened device tree as device tree source on `out`; or reads device tree source, and writes its tree flattened,
/// with processor 0 as the one that boots. The answer is the program's status; a line on `err` says why it is not `Built`.
///
/// `words` are those of the command line, the program's name first: `print TREE`, or `build TEXT OUT`. All bytes are made
/// before the first write.
pub fn run<F: Files, O: Outs, S: Sink, E: Sink>(
    alloc: Global,
    words: &[String],
    files: &mut F,
    outs: &mut O,
    out: &mut S,
    err: &mut E,
) -> Status
    // The headline of printing: standard output is given the one text of the tree that the file spells, and nothing else is written.
    ensures headline_print { (name : _) → asked (map string_bytes words.now) ≡ Some (Print name) → result ≡ Status.Built → (tree : _)
        × IsTreeFile (F.held files.old) name tree
        × (first_bad tree.root ≡ None)
        × (O.written outs.new ≡ O.written outs.old)
        × (S.taken out.new ≡ and_bytes (S.taken out.old) (printed tree.reserves tree.root)) }

    // The headline of building: the one output is the tree that the text says, and nothing else is written.
    ensures headline_build { (text out_name : _) → asked (map string_bytes words.now) ≡ Some (Build text out_name) → result ≡ Status.Built → (tree : _)
        × IsTextFile (F.held files.old) text tree
        × (O.written outs.new ≡ and_files (O.written outs.old) ((out_name, tree_of tree) ∷ []))
        × (S.taken out.new ≡ S.taken out.old) }

    // The words are refused exactly where they ask for nothing.
    ensures words { (result ≡ Status.Words) ↔ IsNone (asked (map string_bytes words.now)) }

    // No list is found, and nothing is audited.
    ensures no_list { (status : _) → (list : _) → CallsFor (map string_bytes words.now) (F.held files.old) (Finds status list) → ⊥ }
    ensures no_audit { result ≢ Status.Differs }

    // How the run ended, as every program's; reading the words takes no memory.
    ensures ran { Ran F.held F.counts O.written O.room O.faults S.taken S.room S.faults E.taken E.faults
        program_name (AreRefused (map string_bytes words.now)) (⊥) (CallsFor (map string_bytes words.now) (F.held files.old)) (IsPromised (map string_bytes words.now) (F.held files.old))
        files.old files.new outs.old outs.new out.old out.new err.old err.new result }
{
    finds_nothing();
    audits_nothing();
    program::run(&FdtSource, alloc, words, files, outs, out, err)
}
