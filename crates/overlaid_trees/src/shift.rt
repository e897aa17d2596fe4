// The phandles of an overlay are moved above those of the base.
ghost use Rattle.std.specs.Prelude.{◌≡◌, ◌⊎◌, ◌<◌, Some, None, Ok, Err, IfOk, IfErr, OnOk, length, map, drop, All, option_and_then};
ghost use Rattle.fdt_tree.specs.Tree.{find_place};
ghost use Rattle.fdt_tree.specs.Document.{properties_of};
ghost use Rattle.fdt_nodes.specs.Nodes.{shown};
ghost use Rattle.fdt_nodes.specs.Held.{node_of};
ghost use Rattle.overlaid_trees.specs.Turns.{all, each};
ghost use Rattle.overlaid_trees.specs.Shift.{local_path, local_fixups, moved_by_property, moved_by_node, shifted};

use crate::copies::copy_moved;
use crate::fault::OverlayFault;
use crate::held::held;
use crate::local_words::move_words;
use crate::word_values::{ValueFault, moved};
use fdt_nodes::{descendants, found, path};
use fdt_tree::{NodeId, Tree, highest_phandle};
use indexed_tree::IndexedTree;
use std::alloc::Global;

/// How many bytes the path of the node of local fixups has, which is `/__local_fixups__`.
const LOCAL_PATH_LENGTH: usize = 17;

/// The words that one node of local fixups lists, moved up in the node that a path finds.
fn move_words_at(
    alloc: Global,
    by: u32,
    tree: &mut IndexedTree,
    path: &[u8],
    overlay: &Tree,
    fixups: NodeId,
) -> Result<(), ValueFault>
    requires live { fixups < length overlay.now.places }
    ensures ok { OnOk result (option_and_then (λ place. all (moved_by_property by place) tree.old.tree (properties_of overlay.now fixups)) (find_place tree.old.tree path.now) ≡ Some tree.new.tree) }
    ensures err { IfErr result (λ fault. (fault ≡ ValueFault.Memory) ⊎ ((fault ≡ ValueFault.Missing) × (option_and_then (λ place. all (moved_by_property by place) tree.old.tree (properties_of overlay.now fixups)) (find_place tree.old.tree path.now) ≡ None))) }
{
    let Some(node) = tree.find(path) else {
        return Err(ValueFault::Missing);
    };
    for index in 0..overlay.prop_count(fixups) {
        let (name, offsets) = overlay.prop_at(fixups, index);
        move_words(alloc, by, tree, node, name, offsets)?;
    }
    Ok(())
}

/// The path of the overlay's node that a node of local fixups speaks of, by its own path.
fn spoken_path(path: &[u8]) -> &[u8]
    ensures { result.now ≡ shown (drop (length local_path) path.now) }
{
    if path.len() <= LOCAL_PATH_LENGTH {
        b"/"
    } else {
        &path[LOCAL_PATH_LENGTH..]
    }
}

/// The words that one node of local fixups lists, moved up in the node that it speaks of. Where it is at fault, the words
/// before the fault are moved.
fn move_words_of(
    alloc: Global,
    by: u32,
    tree: &mut IndexedTree,
    overlay: &Tree,
    fixups: NodeId,
) -> Result<(), OverlayFault>
    requires live { fixups < length overlay.now.places }
    ensures ok { OnOk result (moved_by_node by tree.old.tree (node_of overlay.now fixups) ≡ Ok tree.new.tree) }
    ensures refused { IfErr result (λ fault. (fault ≡ OverlayFault.Memory) ⊎ (moved_by_node by tree.old.tree (node_of overlay.now fixups) ≡ Err fault)) }
{
    let own = path(alloc, overlay, fixups)?;
    let spoken = spoken_path(own.as_slice());
    match move_words_at(alloc, by, tree, spoken, overlay, fixups) {
        Ok(()) => Ok(()),
        Err(ValueFault::Memory) => Err(OverlayFault::Memory),
        Err(ValueFault::Missing) => Err(OverlayFault::BadLocal(held(alloc, spoken)?)),
    }
}

/// The words that some nodes of local fixups list, moved up node by node.
fn move_words_of_all(
    alloc: Global,
    by: u32,
    tree: &mut IndexedTree,
    overlay: &Tree,
    nodes: &[NodeId],
) -> Result<(), OverlayFault>
    requires live { All (λ node. node < length overlay.now.places) nodes.now }
    ensures ok { OnOk result (each (moved_by_node by) tree.old.tree (map (node_of overlay.now) nodes.now) ≡ Ok tree.new.tree) }
    ensures refused { IfErr result (λ fault. (fault ≡ OverlayFault.Memory) ⊎ (each (moved_by_node by) tree.old.tree (map (node_of overlay.now) nodes.now) ≡ Err fault)) }
{
    for index in 0..nodes.len() {
        move_words_of(alloc, by, tree, overlay, nodes[index])?;
    }
    Ok(())
}

/// The words that the local fixups list, moved up node by node in document order.
fn move_local_words(
    alloc: Global,
    by: u32,
    tree: &mut IndexedTree,
    overlay: &Tree,
) -> Result<(), OverlayFault>
    ensures ok { OnOk result (each (moved_by_node by) tree.old.tree (local_fixups overlay.now.tree) ≡ Ok tree.new.tree) }
    ensures refused { IfErr result (λ fault. (fault ≡ OverlayFault.Memory) ⊎ (each (moved_by_node by) tree.old.tree (local_fixups overlay.now.tree) ≡ Err fault)) }
{
    let Some(node) = found(overlay, b"/__local_fixups__") else {
        return Ok(());
    };
    let below = descendants(alloc, overlay, node)?;
    move_words_of(alloc, by, tree, overlay, node)?;
    move_words_of_all(alloc, by, tree, overlay, below.as_slice())
}

/// An overlay with its phandles above those of a base, and with them the words that hold them: `PhandleRange` where the
/// greatest would pass 0xfffffffe, and `BadLocal` with the path of the first node of local fixups at fault.
pub(crate) fn shift(alloc: Global, base: &Tree, overlay: &Tree) -> Result<Tree, OverlayFault>
    ensures ok { IfOk result (λ made. shifted base.now.tree overlay.now.tree ≡ Ok made.tree) }
    ensures refused { IfErr result (λ fault. (fault ≡ OverlayFault.Memory) ⊎ (shifted base.now.tree overlay.now.tree ≡ Err fault)) }
{
    let by = highest_phandle(base);
    let Some(_) = moved(by, highest_phandle(overlay)) else {
        return Err(OverlayFault::PhandleRange);
    };
    let mut tree = copy_moved(alloc, by, overlay)?;
    move_local_words(alloc, by, &mut tree, overlay)?;
    Ok(tree.into_tree()?)
}
