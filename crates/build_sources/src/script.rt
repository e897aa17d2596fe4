// A boot script: reading one, and running it on a tree.
ghost use Rattle.std.specs.Prelude.{◌≡◌, IfOk, IfErr, Ok, true, length};
ghost use Rattle.outside.specs.Reads.{Reads};
ghost use Rattle.script_run.specs.Effect.{has_good_names, load_count, loads_of, tree_effect};
ghost use Rattle.script_run.specs.Reading.{commands_of};
ghost use Rattle.run_steps.specs.Steps.{OnResult, nothing};
ghost use Rattle.run_steps.specs.Stops.{StopsFor, IsOwnDue};
ghost use Rattle.build_sources.specs.Handed.{HandsOn};
ghost use Rattle.build_sources.specs.Sources.{IsLineRefusal, AfterScriptFile, AfterRun};

use crate::messages::{make_line_message, make_step_message};
use described::Loaded;
use fdt_tree::Tree;
use ib_script::Command;
use outside::{Files, Status};
use run_steps::{Stop, read_file};
use script_run::{Machine, ScriptFault, StepFault, parse, run};
use std::alloc::Global;
use texts::List;

// The longest script that is read, in bytes.
const SCRIPT_LIMIT: u64 = 262_144;

/// The commands of the script of this file.
pub(crate) fn read_script<F: Files>(
    alloc: Global,
    name: &str,
    files: &mut F,
) -> Result<List<Command>, Stop>
    ensures read { IfOk result (HandsOn (AfterScriptFile (F.held files.old) name.now)) }
    ensures named { IfOk result (λ commands. has_good_names commands ≡ true) }
    ensures stopped { IfErr result (StopsFor F.counts files.old files.new (AfterScriptFile (F.held files.old) name.now nothing)) }
    ensures only_read { Reads F.held F.counts files.old files.new }
{
    let bytes = read_file(alloc, name, SCRIPT_LIMIT, files)?;
    said(alloc, name, &bytes)
}

/// The commands that the bytes of a script say.
fn said(alloc: Global, name: &str, bytes: &[u8]) -> Result<List<Command>, Stop>
    ensures read { IfOk result (λ commands. commands_of bytes.now ≡ Ok commands) }
    ensures named { IfOk result (λ commands. has_good_names commands ≡ true) }
    ensures stopped { IfErr result (λ stop. IsOwnDue (OnResult (IsLineRefusal name.now) nothing (commands_of bytes.now)) stop) }
{
    match parse(alloc, bytes) {
        Ok(commands) => Ok(commands),
        Err(ScriptFault::Memory) => Err(Stop::Memory),
        Err(fault) => Err(Stop::Because(Status::Format, make_line_message(alloc, name, fault)?)),
    }
}

/// Runs the script of this name on a tree whose file has so many bytes, with one size in bytes for each of its loads in their
/// order. Answers the tree after it, and the files that it loads.
pub(crate) fn run_script(
    alloc: Global,
    name: &str,
    commands: &List<Command>,
    sizes: &[u64],
    tree: Tree,
    bytes: u64,
) -> Result<(Tree, List<Loaded>), Stop>
    requires named { has_good_names commands.now ≡ true }
    requires sized { length sizes.now ≡ load_count commands.now }
    ensures ran { IfOk result (λ after. tree_effect commands.now tree.tree ≡ Ok after.0.tree) }
    ensures loaded { IfOk result (λ after. after.1 ≡ loads_of commands.now sizes.now bytes) }
    ensures stopped { IfErr result (λ stop. IsOwnDue (AfterRun name.now commands.now tree.tree nothing) stop) }
{
    let mut machine = Machine::new(alloc, tree, bytes);
    match run(alloc, commands, sizes, &mut machine) {
        Ok(()) => Ok(machine.into_parts()),
        Err(StepFault::Memory) => Err(Stop::Memory),
        Err(fault) => Err(Stop::Because(Status::Format, make_step_message(alloc, name, fault)?)),
    }
}
