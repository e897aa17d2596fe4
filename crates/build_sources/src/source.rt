// Where a build begins.
ghost use Rattle.std.specs.Prelude.{◌≡◌, ◌∷◌, [], IfOk, IfErr, true, length, map};
ghost use Rattle.std.specs.Option.{option_copied};
ghost use Rattle.outside.specs.Reads.{Reads};
ghost use Rattle.script_run.specs.Effect.{has_good_names, load_count};
ghost use Rattle.dom0less_words.specs.Meant.{meant_source};
ghost use Rattle.run_steps.specs.Steps.{nothing};
ghost use Rattle.run_steps.specs.Outputs.{file_of};
ghost use Rattle.run_steps.specs.Stops.{StopsFor, IsOwnDue};
ghost use Rattle.tree_files.specs.Trees.{flat_tree};
ghost use Rattle.build_sources.specs.Edited.{HasEditedTree, StandsOnEdited};
ghost use Rattle.build_sources.specs.Handed.{HandsOn};
ghost use Rattle.build_sources.specs.Meant.{meant_made, meant_stand};
ghost use Rattle.build_sources.specs.PrivateReplays.{AfterAnnounced, AfterMadeRun};
ghost use Rattle.build_sources.specs.Scripts.{script_file, unused_lines};
ghost use Rattle.build_sources.specs.Sources.{AfterConfigured, AfterReady, AfterSource, StandsOn, folder_of};

use crate::configuration::{Made, make_script};
use crate::replay::replay;
use crate::script::run_script;
use crate::stand::Stand;
use dom0less_words::Source;
use ib_script::{Command, LoadKind};
use outside::Files;
use run_steps::{Output, Stop};
use std::alloc::{AllocError, Global};
use texts::{Bytes, List};
use tree_files::{TreeFile, read_tree};

/// The folder of the files that a configuration or a script names, where one is given.
pub fn folder_of<'a>(source: &Source<'a>) -> Option<&'a str>
    ensures { option_copied result ≡ folder_of (meant_source source.now) }
{
    match *source {
        Source::Config(_, folder, _) => folder,
        Source::Replay(_, _, folder) => folder,
        Source::Ready(_) => None,
    }
}

/// Reads what a build stands on, from where it begins. Of a configuration the script is made, and run on the host's tree; a
/// script is run on its tree; and a ready tree is read alone. `outputs` is the folder of the outputs, where one is given: a
/// configuration's boot script is the first of them. Writes nothing.
pub fn read_source<F: Files>(
    alloc: Global,
    source: &Source<'_>,
    outputs: Option<&str>,
    files: &mut F,
) -> Result<Stand, Stop>
    ensures stands { IfOk result (λ stand. StandsOn (F.held files.old) (meant_source source.now) (option_copied outputs.entry) (meant_stand stand)) }
    ensures edited { IfOk result (λ stand. HasEditedTree (F.held files.old) (meant_source source.now) (option_copied outputs.entry) (meant_stand stand)) }
    ensures stopped { IfErr result (StopsFor F.counts files.old files.new (AfterSource (F.held files.old) (meant_source source.now) (option_copied outputs.entry) nothing)) }
    ensures only_read { Reads F.held F.counts files.old files.new }
{
    match *source {
        Source::Config(config, folder, kind) => {
            read_configuration(alloc, config, folder, kind, outputs, files)
        }
        Source::Replay(script, tree, folder) => replay(alloc, script, tree, folder, files),
        Source::Ready(tree) => read_ready(alloc, tree, files),
    }
}

/// What a build stands on that begins with a configuration, whose files are in a folder where one is given, and whose script
/// loads them by a command of this kind.
fn read_configuration<F: Files>(
    alloc: Global,
    config: &str,
    folder: Option<&str>,
    kind: LoadKind,
    outputs: Option<&str>,
    files: &mut F,
) -> Result<Stand, Stop>
    ensures stands { IfOk result (λ stand. HandsOn (AfterConfigured (F.held files.old) config.now (option_copied folder.entry) kind (option_copied outputs.entry)) (meant_stand stand)) }
    ensures edited { IfOk result (λ stand. StandsOnEdited (F.held files.old) config.now (option_copied folder.entry) kind (option_copied outputs.entry) (meant_stand stand)) }
    ensures stopped { IfErr result (StopsFor F.counts files.old files.new (AfterConfigured (F.held files.old) config.now (option_copied folder.entry) kind (option_copied outputs.entry) nothing)) }
    ensures only_read { Reads F.held F.counts files.old files.new }
{
    let made = make_script(alloc, config, folder, kind, files)?;
    run_made(alloc, outputs, made)
}

/// What comes before a build's own outputs and before its report.
#[derive(Drop)]
pub(crate) struct Announced {
    /// The outputs.
    pub(crate) before: List<Output>,
    /// The lines.
    pub(crate) lines: Bytes,
}

/// The same of a configuration whose script was made.
fn run_made(alloc: Global, outputs: Option<&str>, made: Made) -> Result<Stand, Stop>
    requires named { has_good_names made.script ≡ true }
    requires sized { length made.sizes.items ≡ load_count made.script }
    ensures stands { IfOk result (λ stand. HandsOn (AfterMadeRun (option_copied outputs.entry) (meant_made made)) (meant_stand stand)) }
    ensures stopped { IfErr result (λ stop. IsOwnDue (AfterMadeRun (option_copied outputs.entry) (meant_made made) nothing) stop) }
{
    let announced = announce(alloc, outputs, &made)?;
    let file = made.tree;
    run_announced(alloc, announced, &made.script, &made.sizes, file)
}

/// What comes before the outputs and the report of a build that begins with a configuration: its boot script, and its names
/// that have no effect.
fn announce(alloc: Global, outputs: Option<&str>, made: &Made) -> Result<Announced, AllocError>
    ensures before { IfOk result (λ announced. map file_of announced.before ≡ script_file (option_copied outputs.entry) (meant_made made.now) ∷ []) }
    ensures lines { IfOk result (λ announced. announced.lines ≡ unused_lines made.now.config.unused) }
{
    let mut before = List::new(alloc);
    before.push(made.script_output(alloc, outputs)?)?;
    let lines = made.unused_lines(alloc)?;
    Ok(Announced { before, lines })
}

/// Runs a configuration's script on its host's tree, with the sizes of its loads in bytes, behind what is announced.
fn run_announced(
    alloc: Global,
    announced: Announced,
    script: &List<Command>,
    sizes: &[u64],
    file: TreeFile,
) -> Result<Stand, Stop>
    requires named { has_good_names script.now ≡ true }
    requires sized { length sizes.now ≡ load_count script.now }
    ensures stands { IfOk result (λ stand. HandsOn (AfterAnnounced (map file_of announced.before) announced.lines script.now (flat_tree file) sizes.now) (meant_stand stand)) }
    ensures stopped { IfErr result (λ stop. IsOwnDue (AfterAnnounced (map file_of announced.before) announced.lines script.now (flat_tree file) sizes.now nothing) stop) }
{
    let bytes = file.length;
    let flat = file.flat;
    let (tree, loads) = run_script(alloc, "boot.source", script, sizes, flat.tree, bytes)?;
    Ok(Stand {
        tree,
        reserves: flat.reserves,
        boot: flat.boot,
        loads,
        before: announced.before,
        lines: announced.lines,
    })
}

/// What a build stands on that begins with a ready tree.
fn read_ready<F: Files>(alloc: Global, tree: &str, files: &mut F) -> Result<Stand, Stop>
    ensures stands { IfOk result (λ stand. HandsOn (AfterReady (F.held files.old) tree.now) (meant_stand stand)) }
    ensures stopped { IfErr result (StopsFor F.counts files.old files.new (AfterReady (F.held files.old) tree.now nothing)) }
    ensures only_read { Reads F.held F.counts files.old files.new }
{
    let flat = read_tree(alloc, tree, files)?.flat;
    Ok(Stand {
        tree: flat.tree,
        reserves: flat.reserves,
        boot: flat.boot,
        loads: List::new(alloc),
        before: List::new(alloc),
        lines: Bytes::new(alloc),
    })
}
