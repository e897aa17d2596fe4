//! Trees are written, or refused for their length.
ghost use Rattle.std.specs.Prelude.{◌≡◌, ◌≤◌, IfErr, IfOk, IsTrue, OnOk, length, not};
ghost use Rattle.std.specs.List.{list_all};
ghost use Rattle.fdt_read.specs.Reservations.{is_last_pair};
ghost use Rattle.fdt_write.specs.Flattened.{flattened, length_limit};
ghost use Rattle.run_steps.specs.Stops.{IsOwnDue};
ghost use Rattle.build_outputs.specs.Builds.{IsItemRefusal};
ghost use Rattle.build_outputs.specs.Lengths.{tree_item};
ghost use Rattle.build_outputs.specs.PrivateTooLong.{IsLengthStop};

use crate::refusals::refused;
use described::{Item, Part, Why};
use fdt_tree::{Reserve, Tree};
use fdt_write::{WriteFault, write};
use run_steps::Stop;
use std::alloc::{AllocError, Global};
use texts::Bytes;

/// A tree as it is written under a name; or the stop at its length.
pub(crate) fn write_tree(
    alloc: Global,
    name: &str,
    tree: &Tree,
    reserves: &[Reserve],
    boot: u32,
) -> Result<Bytes, Stop>
    requires { IsTrue (list_all (λ reserve. not (is_last_pair reserve)) reserves.now) }
    ensures written { IfOk result (λ bytes. bytes ≡ flattened reserves.now boot tree.now.tree) }
    ensures fits { OnOk result (length (flattened reserves.now boot tree.now.tree) ≤ length_limit) }
    ensures stopped { IfErr result (λ stop. IsLengthStop (name.now, flattened reserves.now boot tree.now.tree) stop) }
{
    match write(alloc, tree, reserves, boot) {
        Ok(bytes) => Ok(Bytes::from(bytes)),
        Err(WriteFault::Memory) => Err(Stop::Memory),
        Err(WriteFault::TooLong(length)) => Err(too_long(alloc, name, length)),
    }
}

/// The stop at a tree of this name that would have so many bytes.
fn too_long(alloc: Global, name: &str, length: u64) -> Stop
    ensures { IsOwnDue (IsItemRefusal (tree_item name.now, Why.TreeTooLong length)) result }
{
    match tree_item(alloc, name) {
        Ok(item) => refused(alloc, &item, &Why::TreeTooLong(length)),
        Err(_) => Stop::Memory,
    }
}

/// A tree that is written under a name, as an item.
fn tree_item(alloc: Global, name: &str) -> Result<Item, AllocError>
    ensures { IfOk result (λ item. item ≡ tree_item name.now) }
{
    let mut path = Bytes::new(alloc);
    path.append(name.as_bytes())?;
    Ok(Item {
        part: Part::Tree,
        path,
        index: 0,
    })
}
