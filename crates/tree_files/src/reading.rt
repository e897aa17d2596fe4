// Reading a flattened tree (Devicetree Specification 0.4, chapter 5).
ghost use Rattle.std.specs.Prelude.{◌≡◌, IfOk, IfErr, IsTrue, not};
ghost use Rattle.std.specs.List.{list_all};
ghost use Rattle.fdt_read.specs.Reservations.{is_last_pair};
ghost use Rattle.outside.specs.Reads.{Reads};
ghost use Rattle.run_steps.specs.Steps.{nothing};
ghost use Rattle.tree_files.specs.Trees.{flat_tree, IsFlattened, AfterTree, AfterTreeFile, IsTreeFile};
ghost use Rattle.run_steps.specs.Stops.{StopsFor, IsOwnDue};

use crate::messages::make_fault_message;
use fdt_read::{FdtFault, Flat, read};
use outside::{Files, Status};
use run_steps::{Stop, read_file};
use std::alloc::Global;

// The longest tree that is read, in bytes.
const TREE_LIMIT: u64 = 1_048_576;

/// What a tree's file says, and how many bytes it has.
#[derive(Drop)]
pub struct TreeFile {
    /// The tree, its reservations and the processor that boots.
    pub flat: Flat,
    /// The length of the file, in bytes.
    pub length: u64,
}

/// What the tree's file of this name says, which has at most 1 MiB. A file that cannot be read stops the run, and so do bytes
/// that spell no tree, whose first fault is named.
pub fn read_tree<F: Files>(alloc: Global, name: &str, files: &mut F) -> Result<TreeFile, Stop>
    ensures read { IfOk result (λ tree. IsTreeFile (F.held files.old) name.now (flat_tree tree)) }
    ensures stopped { IfErr result (StopsFor F.counts files.old files.new (AfterTreeFile (F.held files.old) name.now nothing)) }
    ensures only_read { Reads F.held F.counts files.old files.new }
{
    let bytes = read_file(alloc, name, TREE_LIMIT, files)?;
    read_flattened(alloc, name, &bytes)
}

/// What the bytes of the tree's file of this name say. Bytes that spell no tree stop the run; their first fault is named.
pub fn read_flattened(alloc: Global, name: &str, bytes: &[u8]) -> Result<TreeFile, Stop>
    ensures read { IfOk result (λ tree. IsFlattened bytes.now (flat_tree tree)) }
    ensures reserved { IfOk result (λ tree. IsTrue (list_all (λ reserve. not (is_last_pair reserve)) tree.flat.reserves)) }
    ensures stopped { IfErr result (λ stop. IsOwnDue (AfterTree name.now bytes.now nothing) stop) }
{
    match read(alloc, bytes) {
        Ok(flat) => Ok(TreeFile {
            flat,
            length: bytes.len() as u64,
        }),
        Err(FdtFault::Memory) => Err(Stop::Memory),
        Err(fault) => Err(Stop::Because(Status::Format, make_fault_message(alloc, name, &fault)?)),
    }
}
