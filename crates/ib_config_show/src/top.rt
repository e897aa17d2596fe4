// The top call.
ghost use Rattle.std.specs.Prelude.{◌≡◌, ◌≢◌, ◌↔◌, IsNone, Ok, Err, Some, map, string_bytes};
ghost use Rattle.outside.specs.Outside.{and_bytes};
ghost use Rattle.ib_config.specs.Settings.{config_of};
ghost use Rattle.run_steps.specs.Endings.{Said};
ghost use Rattle.run_steps.specs.Messages.{line};
ghost use Rattle.run_steps.specs.Steps.{IsReading};
ghost use Rattle.program.specs.Runs.{Ran};
ghost use Rattle.filters.specs.Words.{asked_file};
ghost use Rattle.config_files.specs.Configs.{config_limit, fault_message, IsConfigFile};
ghost use Rattle.ib_config_show.specs.Job.{program_name, AreRefused, CallsFor};
ghost use Rattle.ib_config_show.specs.Promises.{IsShown};
ghost use Rattle.ib_config_show.specs.Shown.{config_lines};

use crate::IbConfigShow;
use crate::laws::finds_nothing;
use outside::{Files, Outs, Sink, Status};
use std::alloc::Global;

/// Shows what a configuration says: a line for each variable that is set or has a value, and one for each name that has no
/// effect. The answer is the program's status; a line on `err` says why it is not `Built`.
///
/// `words` are those of the command line, the program's name first: `[CONFIG]`. Where there is no other word the file is
/// `-`, which is standard input.
pub fn run<F: Files, O: Outs, S: Sink, E: Sink>(
    alloc: Global,
    words: &[String],
    files: &mut F,
    outs: &mut O,
    out: &mut S,
    err: &mut E,
) -> Status
    // The headline: standard output was given exactly the lines of what the configuration says.
    ensures headline { result ≡ Status.Built → (file : _) × (settings : _)
        × (asked_file (map string_bytes words.now) ≡ Some file)
        × IsConfigFile (F.held files.old) file settings
        × (S.taken out.new ≡ and_bytes (S.taken out.old) (config_lines settings)) }

    // A configuration that is refused has a first fault, which was said.
    ensures fault { result ≡ Status.Format → (file : _) × (bytes : _) × (fault : _)
        × (asked_file (map string_bytes words.now) ≡ Some file)
        × IsReading (F.held files.old) file config_limit (Ok bytes)
        × (config_of bytes ≡ Err fault)
        × Said E.taken E.faults err.old err.new (line program_name (fault_message file bytes fault)) }

    // Every other answer leaves standard output as it was: nothing is found.
    ensures out_kept { result ≢ Status.Built → result ≢ Status.Write → out.new ≡ out.old }

    // The words are refused exactly where they ask for no file.
    ensures words { (result ≡ Status.Words) ↔ IsNone (asked_file (map string_bytes words.now)) }

    // How the run ended, as every program's; reading the words takes no memory.
    ensures ran { Ran F.held F.counts O.written O.room O.faults S.taken S.room S.faults E.taken E.faults
        program_name (AreRefused (map string_bytes words.now)) (⊥) (CallsFor (map string_bytes words.now) (F.held files.old)) (IsShown (map string_bytes words.now) (F.held files.old))
        files.old files.new outs.old outs.new out.old out.new err.old err.new result }
{
    finds_nothing();
    program::run(&IbConfigShow, alloc, words, files, outs, out, err)
}
