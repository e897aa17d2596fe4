// The sizes of the files that a script loads.
ghost use Rattle.std.specs.Prelude.{◌≡◌, ◌++◌, OnOk, IfOk, IfErr, length, option_to_list};
ghost use Rattle.std.specs.Option.{option_copied};
ghost use Rattle.outside.specs.Reads.{Reads};
ghost use Rattle.script_run.specs.Effect.{load_count};
ghost use Rattle.run_steps.specs.Names.{joined};
ghost use Rattle.run_steps.specs.Steps.{AfterEach, nothing};
ghost use Rattle.run_steps.specs.Stops.{StopsFor};
ghost use Rattle.build_sources.specs.Handed.{HandsOn};
ghost use Rattle.build_sources.specs.Sources.{load_named, known_size, AfterKnownSize, AfterLoadSize, AfterLoadSizes};

use ib_script::Command;
use outside::Files;
use run_steps::{Stop, join, measure};
use script_run::tree_load;
use std::alloc::{AllocError, Global};
use texts::List;

/// The sizes of the files of all loads of a script in their order, in bytes, where the tree's file has so many bytes: that
/// file is not measured.
pub(crate) fn measure_loads<F: Files>(
    alloc: Global,
    folder: Option<&str>,
    commands: &List<Command>,
    bytes: u64,
    files: &mut F,
) -> Result<Vec<u64>, Stop>
    ensures measured { IfOk result (λ sizes. HandsOn (AfterLoadSizes (F.held files.old) (option_copied folder.entry) commands.now bytes) sizes.items) }
    ensures sized { IfOk result (λ sizes. length sizes.items ≡ load_count commands.now) }
    ensures stopped { IfErr result (StopsFor F.counts files.old files.new (AfterLoadSizes (F.held files.old) (option_copied folder.entry) commands.now bytes nothing)) }
    ensures only_read { Reads F.held F.counts files.old files.new }
{
    let tree = tree_load(commands);
    let script = commands.as_slice();
    let mut sizes = Vec::new(alloc);
    for index in 0..script.len() {
        match measure_load(alloc, folder, tree, bytes, index, &script[index], files) {
            Ok(size) => push_some(&mut sizes, size)?,
            Err(stop) => return Err(stop),
        }
    }
    Ok(sizes)
}

/// Adds a size, where there is one.
fn push_some(sizes: &mut Vec<u64>, size: Option<u64>) -> Result<(), AllocError>
    ensures { OnOk result (sizes.new.items ≡ sizes.old.items ++ option_to_list size) }
{
    match size {
        Some(size) => sizes.push(size)?,
        None => {}
    }
    Ok(())
}

/// The size of the file that the command with this index loads, if it loads one.
fn measure_load<F: Files>(
    alloc: Global,
    folder: Option<&str>,
    tree: Option<usize>,
    bytes: u64,
    index: usize,
    command: &Command,
    files: &mut F,
) -> Result<Option<u64>, Stop>
    ensures measured { IfOk result (λ size. HandsOn (AfterEach (AfterLoadSize (F.held files.old) (option_copied folder.entry) tree bytes) (load_named (index, command.now))) (option_to_list size)) }
    ensures stopped { IfErr result (StopsFor F.counts files.old files.new (AfterEach (AfterLoadSize (F.held files.old) (option_copied folder.entry) tree bytes) (load_named (index, command.now)) nothing)) }
    ensures only_read { Reads F.held F.counts files.old files.new }
{
    match command {
        Command::Load { name, .. } => {
            let known = known_size(tree, bytes, index);
            match measure_unknown(alloc, folder, name.as_str(), known, files) {
                Ok(size) => Ok(Some(size)),
                Err(stop) => Err(stop),
            }
        }
        _ => Ok(None),
    }
}

/// The size of the file of the load with this index, where it is known without a call.
fn known_size(tree: Option<usize>, bytes: u64, index: usize) -> Option<u64>
    ensures { result ≡ known_size tree bytes index }
{
    if tree == Some(index) {
        Some(bytes)
    } else {
        None
    }
}

/// The size of a file, which is measured where it is not known.
fn measure_unknown<F: Files>(
    alloc: Global,
    folder: Option<&str>,
    name: &str,
    known: Option<u64>,
    files: &mut F,
) -> Result<u64, Stop>
    ensures measured { IfOk result (HandsOn (AfterKnownSize (F.held files.old) (joined (option_copied folder.entry) name.now) known)) }
    ensures stopped { IfErr result (StopsFor F.counts files.old files.new (AfterKnownSize (F.held files.old) (joined (option_copied folder.entry) name.now) known nothing)) }
    ensures only_read { Reads F.held F.counts files.old files.new }
{
    match known {
        Some(size) => Ok(size),
        None => {
            let path = join(alloc, folder, name)?;
            measure(alloc, path.as_str(), files)
        }
    }
}
