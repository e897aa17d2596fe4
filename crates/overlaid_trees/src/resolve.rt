// The labels of an overlay stand for phandles of the base.
ghost use Rattle.std.specs.Prelude.{◌≡◌, ◌⊎◌, Ok, Err, IfOk, IfErr, OnOk, codes};
ghost use Rattle.overlaid_trees.specs.Turns.{each};
ghost use Rattle.overlaid_trees.specs.Values.{properties_found};
ghost use Rattle.overlaid_trees.specs.Resolve.{phandle_of_label, with_label, resolved};

use crate::fault::OverlayFault;
use crate::held::held;
use crate::spots::put_strings;
use crate::values::{string_at, u32_at};
use crate::word_values::ValueFault;
use fdt_tree::Tree;
use indexed_tree::IndexedTree;
use std::alloc::Global;

/// The phandle of the node that a label of a base stands for.
fn phandle_of_label(base: &IndexedTree, label: &[u8]) -> Option<u32>
    ensures { result ≡ phandle_of_label base.now.tree label.now }
{
    let Some(symbols) = base.find(b"/__symbols__") else {
        return None;
    };
    let Some(path) = string_at(base, symbols, label) else {
        return None;
    };
    let Some(node) = base.find(path) else {
        return None;
    };
    u32_at(base, node, b"phandle")
}

/// One label of an overlay resolved, by what its value names. Where it is at fault, the words before the fault are put.
fn put_label(
    alloc: Global,
    base: &IndexedTree,
    tree: &mut IndexedTree,
    label: &[u8],
    value: &[u8],
) -> Result<(), OverlayFault>
    ensures ok { OnOk result (with_label base.now.tree tree.old.tree (label.now, value.now) ≡ Ok tree.new.tree) }
    ensures refused { IfErr result (λ fault. (fault ≡ OverlayFault.Memory) ⊎ (with_label base.now.tree tree.old.tree (label.now, value.now) ≡ Err fault)) }
{
    let Some(number) = phandle_of_label(base, label) else {
        return Err(OverlayFault::Unresolved(held(alloc, label)?));
    };
    match put_strings(number, tree, value) {
        Ok(()) => Ok(()),
        Err(ValueFault::Memory) => Err(OverlayFault::Memory),
        Err(ValueFault::Missing) => Err(OverlayFault::BadFixup(held(alloc, label)?)),
    }
}

/// All labels of an overlay resolved in a tree, in their order.
fn put_labels(
    alloc: Global,
    base: &IndexedTree,
    tree: &mut IndexedTree,
    overlay: &Tree,
) -> Result<(), OverlayFault>
    ensures ok { OnOk result (each (with_label base.now.tree) tree.old.tree (properties_found overlay.now.tree (codes "/__fixups__")) ≡ Ok tree.new.tree) }
    ensures refused { IfErr result (λ fault. (fault ≡ OverlayFault.Memory) ⊎ (each (with_label base.now.tree) tree.old.tree (properties_found overlay.now.tree (codes "/__fixups__")) ≡ Err fault)) }
{
    let Some(fixups) = overlay.find(b"/__fixups__") else {
        return Ok(());
    };
    for index in 0..overlay.prop_count(fixups) {
        let (label, value) = overlay.prop_at(fixups, index);
        put_label(alloc, base, tree, label, value)?;
    }
    Ok(())
}

/// An overlay with its labels resolved, or the first label at fault: one that the base does not know, or one with a word
/// that is not there. The labels are read from the overlay as it is handed in, and so is a label's value that a word
/// names.
pub(crate) fn resolve(
    alloc: Global,
    base: &IndexedTree,
    overlay: &Tree,
) -> Result<Tree, OverlayFault>
    ensures ok { IfOk result (λ made. resolved base.now.tree overlay.now.tree ≡ Ok made.tree) }
    ensures refused { IfErr result (λ fault. (fault ≡ OverlayFault.Memory) ⊎ (resolved base.now.tree overlay.now.tree ≡ Err fault)) }
{
    let mut tree = IndexedTree::copied(alloc, overlay)?;
    put_labels(alloc, base, &mut tree, overlay)?;
    Ok(tree.into_tree()?)
}
