// A script that is run on a tree.
ghost use Rattle.std.specs.Prelude.{◌≡◌, IfOk, IfErr, true, length};
ghost use Rattle.std.specs.Option.{option_copied};
ghost use Rattle.outside.specs.Reads.{Reads};
ghost use Rattle.script_run.specs.Effect.{has_good_names, load_count};
ghost use Rattle.run_steps.specs.Steps.{nothing};
ghost use Rattle.run_steps.specs.Stops.{StopsFor, IsOwnDue};
ghost use Rattle.tree_files.specs.Trees.{flat_tree};
ghost use Rattle.build_sources.specs.Handed.{HandsOn};
ghost use Rattle.build_sources.specs.Meant.{meant_stand};
ghost use Rattle.build_sources.specs.PrivateReplays.{AfterScriptRead, AfterTreeRead, AfterSized};
ghost use Rattle.build_sources.specs.Sources.{AfterReplay};

use crate::loads::measure_loads;
use crate::script::{read_script, run_script};
use crate::stand::Stand;
use ib_script::Command;
use outside::Files;
use run_steps::Stop;
use std::alloc::Global;
use texts::{Bytes, List};
use tree_files::{TreeFile, read_tree};

/// What a build stands on that begins with a script and the tree that it is run on; its files are in a folder where one is
/// given.
pub(crate) fn replay<F: Files>(
    alloc: Global,
    script: &str,
    tree: &str,
    folder: Option<&str>,
    files: &mut F,
) -> Result<Stand, Stop>
    ensures stands { IfOk result (λ stand. HandsOn (AfterReplay (F.held files.old) script.now tree.now (option_copied folder.entry)) (meant_stand stand)) }
    ensures stopped { IfErr result (StopsFor F.counts files.old files.new (AfterReplay (F.held files.old) script.now tree.now (option_copied folder.entry) nothing)) }
    ensures only_read { Reads F.held F.counts files.old files.new }
{
    let commands = read_script(alloc, script, files)?;
    replay_commands(alloc, script, &commands, tree, folder, files)
}

/// The same of a script whose commands were read.
fn replay_commands<F: Files>(
    alloc: Global,
    script: &str,
    commands: &List<Command>,
    tree: &str,
    folder: Option<&str>,
    files: &mut F,
) -> Result<Stand, Stop>
    requires { has_good_names commands.now ≡ true }
    ensures stands { IfOk result (λ stand. HandsOn (AfterScriptRead (F.held files.old) script.now tree.now (option_copied folder.entry) commands.now) (meant_stand stand)) }
    ensures stopped { IfErr result (StopsFor F.counts files.old files.new (AfterScriptRead (F.held files.old) script.now tree.now (option_copied folder.entry) commands.now nothing)) }
    ensures only_read { Reads F.held F.counts files.old files.new }
{
    let file = read_tree(alloc, tree, files)?;
    replay_on(alloc, script, commands, folder, file, files)
}

/// The same of a tree that was read.
fn replay_on<F: Files>(
    alloc: Global,
    script: &str,
    commands: &List<Command>,
    folder: Option<&str>,
    file: TreeFile,
    files: &mut F,
) -> Result<Stand, Stop>
    requires { has_good_names commands.now ≡ true }
    ensures stands { IfOk result (λ stand. HandsOn (AfterTreeRead (F.held files.old) script.now (option_copied folder.entry) commands.now (flat_tree file)) (meant_stand stand)) }
    ensures stopped { IfErr result (StopsFor F.counts files.old files.new (AfterTreeRead (F.held files.old) script.now (option_copied folder.entry) commands.now (flat_tree file) nothing)) }
    ensures only_read { Reads F.held F.counts files.old files.new }
{
    let sizes = measure_loads(alloc, folder, commands, file.length, files)?;
    replay_sized(alloc, script, commands, &sizes, file)
}

/// The same with the sizes of its loads, in bytes.
fn replay_sized(
    alloc: Global,
    script: &str,
    commands: &List<Command>,
    sizes: &[u64],
    file: TreeFile,
) -> Result<Stand, Stop>
    requires named { has_good_names commands.now ≡ true }
    requires sized { length sizes.now ≡ load_count commands.now }
    ensures stands { IfOk result (λ stand. HandsOn (AfterSized script.now commands.now (flat_tree file) sizes.now) (meant_stand stand)) }
    ensures stopped { IfErr result (λ stop. IsOwnDue (AfterSized script.now commands.now (flat_tree file) sizes.now nothing) stop) }
{
    let bytes = file.length;
    let flat = file.flat;
    let (tree, loads) = run_script(alloc, script, commands, sizes, flat.tree, bytes)?;
    Ok(Stand {
        tree,
        reserves: flat.reserves,
        boot: flat.boot,
        loads,
        before: List::new(alloc),
        lines: Bytes::new(alloc),
    })
}
