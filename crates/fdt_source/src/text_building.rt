// A text is read, and its tree is written.
ghost use Rattle.std.specs.Prelude.{◌≡◌, IfOk, IfErr, IsTrue, not};
ghost use Rattle.std.specs.List.{list_all};
ghost use Rattle.fdt_read.specs.Reservations.{is_last_pair};
ghost use Rattle.run_steps.specs.PrivateOutcomes.{outcome_of};
ghost use Rattle.run_steps.specs.Steps.{nothing};
ghost use Rattle.run_steps.specs.Stops.{StopsFor, IsOwnDue};
ghost use Rattle.fdt_source.specs.Job.{IsBuilding};
ghost use Rattle.source_text.specs.Source.{IsSource};
ghost use Rattle.fdt_source.specs.Texts.{AfterText, AfterTextFile, IsTextFile};
ghost use Rattle.fdt_source.specs.PrivateMeant.{source_tree};

use crate::messages::make_syntax_message;
use outside::{Files, Status};
use run_steps::{Build, Stop, read_file};
use source_text::{Source, SourceFault, read_source};
use std::alloc::Global;
use tree_files::{one_output, write_tree};

/// The longest text that is read, in bytes.
const TEXT_LIMIT: u64 = 1_048_576;

/// What the bytes of a text of this name say.
fn read_bytes(alloc: Global, name: &str, bytes: &[u8]) -> Result<Source, Stop>
    ensures read { IfOk result (λ source. IsSource bytes.now source.reserves source.tree.tree) }
    ensures stopped { IfErr result (λ stop. IsOwnDue (AfterText name.now bytes.now nothing) stop) }
{
    match read_source(alloc, bytes) {
        Ok(source) => Ok(source),
        Err(SourceFault::Memory) => Err(Stop::Memory),
        Err(SourceFault::Syntax(offset)) => Err(Stop::Because(
            Status::Format,
            make_syntax_message(alloc, name, offset)?,
        )),
    }
}

/// What the text's file of this name says, which has at most 1 MiB. A file that cannot be read stops the run, and so do bytes
/// that say nothing, of which the offset is named at which they depart from every source.
fn read_text<F: Files>(alloc: Global, name: &str, files: &mut F) -> Result<Source, Stop>
    ensures read { IfOk result (λ source. IsTextFile (F.held files.old) name.now (source_tree source)) }
    ensures stopped { IfErr result (StopsFor F.counts files.old files.new (AfterTextFile (F.held files.old) name.now nothing)) }
    ensures kept { F.held files.new ≡ F.held files.old }
{
    let bytes = read_file(alloc, name, TEXT_LIMIT, files)?;
    read_bytes(alloc, name, &bytes)
}

/// What is written under a name of the tree that a text says.
fn build_tree(alloc: Global, out: &str, source: &Source) -> Result<Build, Stop>
    requires { IsTrue (list_all (λ reserve. not (is_last_pair reserve)) source.now.reserves) }
    ensures built { IfOk result (λ build. IsBuilding out.now (source_tree source.now) (outcome_of build)) }
    ensures stopped { IfErr result (λ stop. IsOwnDue (IsBuilding out.now (source_tree source.now)) stop) }
{
    let bytes = write_tree(alloc, out, &source.tree, source.reserves.as_slice(), 0)?;
    Ok(one_output(alloc, out, bytes, None)?)
}

/// Reads the text of a name, and makes the bytes of its tree, which are written under another one.
pub(crate) fn build_file<F: Files>(
    alloc: Global,
    text: &str,
    out: &str,
    files: &mut F,
) -> Result<Build, Stop>
    ensures built { IfOk result (λ build. AfterTextFile (F.held files.old) text.now (IsBuilding out.now) (outcome_of build)) }
    ensures stopped { IfErr result (StopsFor F.counts files.old files.new (AfterTextFile (F.held files.old) text.now (IsBuilding out.now))) }
    ensures kept { F.held files.new ≡ F.held files.old }
{
    let source = read_text(alloc, text, files)?;
    build_tree(alloc, out, &source)
}
