// The words that one property of local fixups lists.
ghost use Rattle.std.specs.Prelude.{◌≡◌, ◌⊎◌, ◌<◌, Some, None, IfErr, OnOk, length};
ghost use Rattle.fdt_tree.specs.Document.{place_of};
ghost use Rattle.overlaid_trees.specs.Words.{with_moved};
ghost use Rattle.overlaid_trees.specs.Values.{changed_at};
ghost use Rattle.overlaid_trees.specs.Shift.{moved_by_property};

use crate::word_values::{ValueFault, moved, with_all_moved, word_of};
use indexed_tree::{IndexedNode, IndexedTree};
use std::alloc::Global;

/// The word at an offset in the value of a property of a node, moved up in its place, where a word lies there that stays a
/// phandle.
fn move_word(
    by: u32,
    tree: &mut IndexedTree,
    node: IndexedNode,
    name: &[u8],
    offset: usize,
) -> Result<(), ValueFault>
    requires { node < length tree.old.places }
    ensures ok { OnOk result (changed_at tree.old.tree (place_of tree.old node) name.now (λ value. with_moved by value offset) ≡ Some tree.new.tree) }
    ensures err { IfErr result (λ fault. (fault ≡ ValueFault.Memory) ⊎ ((fault ≡ ValueFault.Missing) × (changed_at tree.old.tree (place_of tree.old node) name.now (λ value. with_moved by value offset) ≡ None))) }
    ensures places { tree.new.places ≡ tree.old.places }
{
    let Some(number) = word_of(tree, node, name, offset) else {
        return Err(ValueFault::Missing);
    };
    let Some(sum) = moved(by, number) else {
        return Err(ValueFault::Missing);
    };
    tree.put_word(node, name, offset, sum)?;
    Ok(())
}

/// The words that one property of local fixups lists, moved up in the property of that name of a node, one after the other,
/// each in its place.
fn move_in_place(
    by: u32,
    tree: &mut IndexedTree,
    node: IndexedNode,
    name: &[u8],
    offsets: &[u8],
) -> Result<(), ValueFault>
    requires { node < length tree.old.places }
    ensures ok { OnOk result (moved_by_property by (place_of tree.old node) tree.old.tree (name.now, offsets.now) ≡ Some tree.new.tree) }
    ensures err { IfErr result (λ fault. (fault ≡ ValueFault.Memory) ⊎ ((fault ≡ ValueFault.Missing) × (moved_by_property by (place_of tree.old node) tree.old.tree (name.now, offsets.now) ≡ None))) }
    ensures places { tree.new.places ≡ tree.old.places }
{
    let mut rest = offsets;
    while let [a, b, c, d, later @ ..] = rest {
        let offset = u32::from_be_bytes([*a, *b, *c, *d]) as usize;
        move_word(by, tree, node, name, offset)?;
        rest = later;
    }
    if rest.is_empty() && tree.prop(node, name).is_some() {
        Ok(())
    } else {
        Err(ValueFault::Missing)
    }
}

/// The same in a copy of the value, which is set at once.
fn move_in_copy(
    alloc: Global,
    by: u32,
    tree: &mut IndexedTree,
    node: IndexedNode,
    name: &[u8],
    offsets: &[u8],
) -> Result<(), ValueFault>
    requires { node < length tree.old.places }
    ensures ok { OnOk result (moved_by_property by (place_of tree.old node) tree.old.tree (name.now, offsets.now) ≡ Some tree.new.tree) }
    ensures err { IfErr result (λ fault. (fault ≡ ValueFault.Memory) ⊎ ((fault ≡ ValueFault.Missing) × (moved_by_property by (place_of tree.old node) tree.old.tree (name.now, offsets.now) ≡ None))) }
    ensures places { tree.new.places ≡ tree.old.places }
{
    tree.names();
    let Some(value) = tree.prop(node, name) else {
        return Err(ValueFault::Missing);
    };
    let made = with_all_moved(alloc, by, offsets, value)?;
    tree.set_prop(node, name, made.as_slice())?;
    Ok(())
}

/// The words that one property of local fixups lists, moved up in the property of that name of a node, one after the other.
/// Each word in its place takes a search by the name, and a copy takes the bytes of the value once: what is less is done.
pub(crate) fn move_words(
    alloc: Global,
    by: u32,
    tree: &mut IndexedTree,
    node: IndexedNode,
    name: &[u8],
    offsets: &[u8],
) -> Result<(), ValueFault>
    requires { node < length tree.old.places }
    ensures ok { OnOk result (moved_by_property by (place_of tree.old node) tree.old.tree (name.now, offsets.now) ≡ Some tree.new.tree) }
    ensures err { IfErr result (λ fault. (fault ≡ ValueFault.Memory) ⊎ ((fault ≡ ValueFault.Missing) × (moved_by_property by (place_of tree.old node) tree.old.tree (name.now, offsets.now) ≡ None))) }
    ensures places { tree.new.places ≡ tree.old.places }
{
    let bytes = match tree.prop(node, name) {
        None => 0,
        Some(value) => value.len(),
    };
    if bytes <= (offsets.len() / 4).saturating_mul(name.len()) {
        move_in_copy(alloc, by, tree, node, name, offsets)
    } else {
        move_in_place(by, tree, node, name, offsets)
    }
}
