// The top call.
ghost use Rattle.std.specs.Prelude.{◌≡◌, ◌↔◌, IsNone, Ok, Err, Some, map, string_bytes, true, false};
ghost use Rattle.outside.specs.Outside.{and_bytes};
ghost use Rattle.ib_config.specs.Settings.{config_of};
ghost use Rattle.ib_config_lint.specs.Warnings.{warnings};
ghost use Rattle.run_steps.specs.Endings.{Said};
ghost use Rattle.run_steps.specs.Messages.{line};
ghost use Rattle.run_steps.specs.Steps.{IsReading};
ghost use Rattle.program.specs.Runs.{Ran};
ghost use Rattle.filters.specs.Words.{asked_file};
ghost use Rattle.config_files.specs.Configs.{config_limit, fault_message, IsConfigFile};
ghost use Rattle.ib_lint.specs.Job.{program_name, AreRefused, CallsFor};
ghost use Rattle.ib_lint.specs.Promises.{IsClean};
ghost use Rattle.ib_lint.specs.Verdicts.{lines, is_clean};

use crate::IbLint;
use outside::{Files, Outs, Sink, Status};
use std::alloc::Global;

/// Says what U-Boot and Xen trip over in a configuration that is right by its own rules, a line for each warning. The answer
/// is the program's status: `Built` where nothing is to be mended, so there is no warning, or remarks alone; and `Differs`
/// where there is a warning. Both put the lines on `out`. A line on `err` says any other.
///
/// `words` are those of the command line, the program's name first: `[CONFIG]`. Where there is no other word the file is
/// `-`, which is standard input.
pub fn run<F: Files, O: Outs, S: Sink, E: Sink>(
    alloc: Global,
    words: &[String],
    files: &mut F,
    outs: &mut O,
    out: &mut S,
    err: &mut E,
) -> Status
    // The headline: nothing of the configuration is to be mended, and standard output was given the lines of all its remarks.
    ensures headline { result ≡ Status.Built → (file : _) × (settings : _)
        × (asked_file (map string_bytes words.now) ≡ Some file)
        × IsConfigFile (F.held files.old) file settings
        × (is_clean (warnings settings) ≡ true)
        × (S.taken out.new ≡ and_bytes (S.taken out.old) (lines (warnings settings))) }

    // Something is to be mended, standard output was given the lines of exactly the warnings, and nothing was said.
    ensures warned { result ≡ Status.Differs → (file : _) × (settings : _)
        × (asked_file (map string_bytes words.now) ≡ Some file)
        × IsConfigFile (F.held files.old) file settings
        × (is_clean (warnings settings) ≡ false)
        × (S.taken out.new ≡ and_bytes (S.taken out.old) (lines (warnings settings)))
        × (err.new ≡ err.old) }

    // A configuration that is refused has a first fault, which was said, and nothing was put on standard output.
    ensures fault { result ≡ Status.Format → (file : _) × (bytes : _) × (fault : _)
        × (asked_file (map string_bytes words.now) ≡ Some file)
        × IsReading (F.held files.old) file config_limit (Ok bytes)
        × (config_of bytes ≡ Err fault)
        × Said E.taken E.faults err.old err.new (line program_name (fault_message file bytes fault))
        × (out.new ≡ out.old) }

    // The words are refused exactly where they ask for no file.
    ensures words { (result ≡ Status.Words) ↔ IsNone (asked_file (map string_bytes words.now)) }

    // How the run ended, as every program's; reading the words takes no memory.
    ensures ran { Ran F.held F.counts O.written O.room O.faults S.taken S.room S.faults E.taken E.faults
        program_name (AreRefused (map string_bytes words.now)) (⊥) (CallsFor (map string_bytes words.now) (F.held files.old)) (IsClean (map string_bytes words.now) (F.held files.old))
        files.old files.new outs.old outs.new out.old out.new err.old err.new result }
{
    program::run(&IbLint, alloc, words, files, outs, out, err)
}
