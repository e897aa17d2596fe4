// A tree as a list of entries, of which the first is the root.
ghost use Rattle.std.specs.Prelude.{◌≡◌, ◌<◌, ◌≤◌, ◌+◌, Some, IfSome, IsSomeAnd, OnOk, OnErr, IfOk, IsTrue, length, option_map};
ghost use Rattle.fdt_tree.specs.Tree.{Bytes, depth, depth_limit, is_node_name, is_property_name, property_of};
ghost use Rattle.fdt_tree.specs.Document.{place_of, properties_of, with_child, with_properties, with_property};
ghost use Rattle.fdt_tree.specs.PathEdits.{set_property};
ghost use Rattle.indexed_tree.specs.Lookups.{child_place};
ghost use Rattle.indexed_tree.specs.Words.{with_word};
ghost use Rattle.indexed_tree.specs.PrivateArena.{held, IsHeld};

use crate::entry::{Entry, child_entry, grow};
use std::alloc::AllocError;

// The deepest that a node may stand, the root standing at depth 1.
const DEPTH_LIMIT: usize = 32;

/// The depth of a node, the root's being 1.
pub(crate) fn depth(entries: &[Entry], node: usize) -> usize
    requires held { IsHeld (held entries.now) entries.now }
    requires live { node < length (held entries.now).places }
    ensures depth { result ≡ depth (place_of (held entries.now) node) }
    ensures shallow { result ≤ depth_limit }
{
    entries[node].place.len() + 1
}

/// Adds a last child without properties. Refused at the depth limit.
pub(crate) fn add(entries: &mut Vec<Entry>, parent: usize, name: &[u8]) -> Result<usize, AllocError>
    requires held { IsHeld (held entries.old.items) entries.old.items }
    requires live { parent < length (held entries.old.items).places }
    requires node_name { IsTrue (is_node_name name.now) }
    ensures held { IsHeld (held entries.new.items) entries.new.items }
    ensures ok { OnOk result (held entries.new.items ≡ with_child (held entries.old.items) (place_of (held entries.old.items) parent) name.now) }
    ensures newest { IfOk result (λ node. node ≡ length (held entries.old.items).places) }
    ensures longer { IfOk result (λ node. node < length (held entries.new.items).places) }
    ensures err { OnErr result (held entries.new.items ≡ held entries.old.items) }
{
    if depth(entries.as_slice(), parent) == DEPTH_LIMIT {
        return Err(AllocError);
    }
    let alloc = *entries.allocator();
    let number = entries.len();
    let entry = child_entry(alloc, entries.as_slice(), parent, name)?;
    let key = name.to_vec(alloc)?;
    grow(entries, parent, entry, key)?;
    Ok(number)
}

/// Replaces the value of the first property of a name, or adds a last property.
pub(crate) fn set(
    entries: &mut Vec<Entry>,
    node: usize,
    name: &[u8],
    bytes: &[u8],
) -> Result<(), AllocError>
    requires held { IsHeld (held entries.old.items) entries.old.items }
    requires live { node < length (held entries.old.items).places }
    requires property_name { IsTrue (is_property_name name.now) }
    ensures held { IsHeld (held entries.new.items) entries.new.items }
    ensures ok { OnOk result (held entries.new.items ≡ with_properties (held entries.old.items) (place_of (held entries.old.items) node) (set_property name.now bytes.now)) }
    ensures places { (held entries.new.items).places ≡ (held entries.old.items).places }
    ensures err { OnErr result (held entries.new.items ≡ held entries.old.items) }
{
    let entry = &mut entries[node];
    entry.properties.set(name, bytes)
}

/// Adds a last property, whatever the names before it.
pub(crate) fn push(
    entries: &mut Vec<Entry>,
    node: usize,
    name: &[u8],
    bytes: &[u8],
) -> Result<(), AllocError>
    requires held { IsHeld (held entries.old.items) entries.old.items }
    requires live { node < length (held entries.old.items).places }
    requires property_name { IsTrue (is_property_name name.now) }
    ensures held { IsHeld (held entries.new.items) entries.new.items }
    ensures ok { OnOk result (held entries.new.items ≡ with_property (held entries.old.items) (place_of (held entries.old.items) node) name.now bytes.now) }
    ensures places { (held entries.new.items).places ≡ (held entries.old.items).places }
    ensures err { OnErr result (held entries.new.items ≡ held entries.old.items) }
{
    let entry = &mut entries[node];
    entry.properties.push(name, bytes)
}

/// Puts a word in its place within the value of the first property of a name. Takes no memory.
pub(crate) fn put_word(
    entries: &mut Vec<Entry>,
    node: usize,
    name: &[u8],
    offset: usize,
    number: u32,
)
    requires held { IsHeld (held entries.old.items) entries.old.items }
    requires live { node < length (held entries.old.items).places }
    requires within { IsSomeAnd (property_of (properties_of (held entries.old.items) node) name.now) (λ value. offset + 4 ≤ length value) }
    ensures held { IsHeld (held entries.new.items) entries.new.items }
    ensures ok { (value : Bytes) → property_of (properties_of (held entries.old.items) node) name.now ≡ Some value → held entries.new.items ≡ with_properties (held entries.old.items) (place_of (held entries.old.items) node) (set_property name.now (with_word value offset number)) }
    ensures places { (held entries.new.items).places ≡ (held entries.old.items).places }
{
    let entry = &mut entries[node];
    entry.properties.put_word(name, offset, number);
}

/// The value of the first property of a name.
pub(crate) fn value<'a>(entries: &'a [Entry], node: usize, name: &[u8]) -> Option<&'a [u8]>
    requires held { IsHeld (held entries.now) entries.now }
    requires live { node < length (held entries.now).places }
    ensures { option_map (λ value. value.now) result ≡ property_of (properties_of (held entries.now) node) name.now }
{
    entries[node].properties.get(name)
}

/// The first child of a name.
pub(crate) fn child(entries: &[Entry], node: usize, name: &[u8]) -> Option<usize>
    requires held { IsHeld (held entries.now) entries.now }
    requires live { node < length (held entries.now).places }
    ensures live { IfSome result (λ child. child < length (held entries.now).places) }
    ensures place { option_map (λ child. place_of (held entries.now) child) result ≡ child_place (held entries.now) node name.now }
{
    entries[node].children.get(name).copied()
}
