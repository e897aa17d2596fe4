// The canonical spelling of a file.
ghost use Rattle.std.specs.Prelude.{◌≡◌, ◌≤◌, IfOk, IfErr, length};
ghost use Rattle.fdt_canonical.specs.Canonical.{IsCanonicalOf};
ghost use Rattle.fdt_canonical.specs.Job.{IsRespelling};
ghost use Rattle.fdt_tree.specs.Tree.{Bytes as Items};
ghost use Rattle.fdt_write.specs.Flattened.{length_limit};
ghost use Rattle.run_steps.specs.Stops.{IsOwnDue};
ghost use Rattle.tree_files.specs.Trees.{AfterTree};

use run_steps::Stop;
use std::alloc::Global;
use texts::Bytes;
use tree_files::{read_flattened, write_tree};

/// The canonical spelling of the one tree that the bytes of a file of this name spell, with its reservations and its boot
/// processor: at most 2,097,152 bytes, which are their own canonical spelling. Bytes that spell no tree, and a tree whose
/// spelling is longer, stop the run.
pub(crate) fn canonical(alloc: Global, name: &str, file: &[u8]) -> Result<Bytes, Stop>
    ensures written { IfOk result (λ bytes. IsCanonicalOf file.now bytes) }
    ensures only { IfOk result (λ bytes. (other : Items) → IsCanonicalOf file.now other → other ≡ bytes) }
    ensures fits { IfOk result (λ bytes. length bytes ≤ length_limit) }
    ensures settled { IfOk result (λ bytes. IsCanonicalOf bytes bytes) }
    ensures stopped { IfErr result (λ stop. IsOwnDue (AfterTree name.now file.now (IsRespelling name.now)) stop) }
{
    let tree = read_flattened(alloc, name, file)?;
    let flat = &tree.flat;
    let bytes = write_tree(alloc, name, &flat.tree, flat.reserves.as_slice(), flat.boot)?;
    Ok(bytes)
}
