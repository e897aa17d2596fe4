// A tree is read and printed.
ghost use Rattle.std.specs.Prelude.{◌≡◌, IfOk, IfErr, IsTrue, not};
ghost use Rattle.std.specs.List.{list_all};
ghost use Rattle.fdt_read.specs.Reservations.{is_last_pair};
ghost use Rattle.run_steps.specs.PrivateOutcomes.{outcome_of};
ghost use Rattle.run_steps.specs.Stops.{StopsFor, IsOwnDue};
ghost use Rattle.tree_files.specs.Trees.{flat_tree, AfterTreeFile};
ghost use Rattle.fdt_source.specs.Job.{IsPrinting};

use crate::messages::make_bad_name_message;
use outside::{Files, Status};
use run_steps::{Build, Stop};
use source_text::{PrintFault, print_source};
use std::alloc::Global;
use texts::{Bytes, List};
use tree_files::{TreeFile, read_tree};

/// The text of a tree of this name, which is put on standard output.
fn print_tree(alloc: Global, name: &str, tree: &TreeFile) -> Result<Build, Stop>
    requires { IsTrue (list_all (λ reserve. not (is_last_pair reserve)) tree.now.flat.reserves) }
    ensures built { IfOk result (λ build. IsPrinting name.now (flat_tree tree.now) (outcome_of build)) }
    ensures stopped { IfErr result (λ stop. IsOwnDue (IsPrinting name.now (flat_tree tree.now)) stop) }
{
    match print_source(alloc, &tree.flat.tree, tree.flat.reserves.as_slice()) {
        Ok(text) => Ok(Build {
            outputs: List::new(alloc),
            report: Some(Bytes::from(text)),
        }),
        Err(PrintFault::Memory) => Err(Stop::Memory),
        Err(PrintFault::BadName(path)) => Err(Stop::Because(
            Status::Refused,
            make_bad_name_message(alloc, name, path.as_slice())?,
        )),
    }
}

/// Reads the tree of this name, and makes its text.
pub(crate) fn print_file<F: Files>(alloc: Global, name: &str, files: &mut F) -> Result<Build, Stop>
    ensures built { IfOk result (λ build. AfterTreeFile (F.held files.old) name.now (IsPrinting name.now) (outcome_of build)) }
    ensures stopped { IfErr result (StopsFor F.counts files.old files.new (AfterTreeFile (F.held files.old) name.now (IsPrinting name.now))) }
    ensures kept { F.held files.new ≡ F.held files.old }
{
    let tree = read_tree(alloc, name, files)?;
    print_tree(alloc, name, &tree)
}
