// Entries, and the nodes among them that have a phandle.
ghost use Rattle.std.specs.Prelude.{◌≡◌, ◌<◌, ◌≤◌, ◌+◌, Some, IfSome, IsSomeAnd, OnOk, IfOk, IsTrue, length, option_map, codes};
ghost use Rattle.std.specs.Option.{option_to_list};
ghost use Rattle.fdt_tree.specs.Tree.{Bytes, cell, is_node_name, is_property_name, property_of};
ghost use Rattle.fdt_tree.specs.Document.{place_of, properties_of, with_child, with_properties, with_property};
ghost use Rattle.fdt_tree.specs.PathEdits.{set_property};
ghost use Rattle.fdt_tree.specs.Phandles.{phandle_of};
ghost use Rattle.indexed_tree.specs.Lookups.{place_of_phandle};
ghost use Rattle.indexed_tree.specs.Words.{with_word};
ghost use Rattle.indexed_tree.specs.PrivateArena.{held};
ghost use Rattle.indexed_tree.specs.PrivateHolders.{IsWhole};

use crate::arena::{add, push, put_word, set, value};
use crate::entry::Entry;
use crate::holder_map::{Holders, first, forget, note};
use crate::own_bytes::OwnBytes;
use crate::properties::Properties;
use fdt_tree::u32_of;
use std::alloc::AllocError;

/// The phandle that a value is, if it has four bytes.
fn phandle_in(bytes: &[u8]) -> Option<u32>
    ensures { result ≡ cell bytes.now }
{
    match u32_of(bytes) {
        Ok(phandle) => Some(phandle),
        Err(_) => None,
    }
}

/// A phandle: the value of the first `phandle` property, if it has four bytes.
fn own_phandle(properties: &Properties) -> Option<u32>
    ensures { option_to_list result ≡ phandle_of properties.now }
{
    match properties.get(b"phandle") {
        None => None,
        Some(bytes) => phandle_in(bytes),
    }
}

/// Sets the first `phandle` of a node, or adds a last one.
fn set_phandle(
    entries: &mut Vec<Entry>,
    holders: &mut Holders,
    node: usize,
    bytes: &[u8],
) -> Result<(), AllocError>
    requires whole { IsWhole entries.old.items holders.old }
    requires live { node < length (held entries.old.items).places }
    ensures whole { IsWhole entries.new.items holders.new }
    ensures ok { OnOk result (held entries.new.items ≡ with_properties (held entries.old.items) (place_of (held entries.old.items) node) (set_property (codes "phandle") bytes.now)) }
    ensures places { (held entries.new.items).places ≡ (held entries.old.items).places }
{
    let alloc = *entries.allocator();
    let before = own_phandle(&entries[node].properties);
    let after = phandle_in(bytes);
    if before == after {
        return set(entries, node, b"phandle", bytes);
    }
    let place = entries[node].place.as_slice().to_vec(alloc)?;
    let key = place.as_slice().to_vec(alloc)?;
    note(alloc, holders, after, key, node)?;
    match set(entries, node, b"phandle", bytes) {
        Ok(()) => {
            forget(holders, before, place.as_slice());
            Ok(())
        }
        Err(_) => {
            forget(holders, after, place.as_slice());
            Err(AllocError)
        }
    }
}

/// Adds a last child without properties. Refused at the depth limit.
pub(crate) fn add_whole(
    entries: &mut Vec<Entry>,
    holders: &mut Holders,
    parent: usize,
    name: &[u8],
) -> Result<usize, AllocError>
    requires whole { IsWhole entries.old.items holders.old }
    requires live { parent < length (held entries.old.items).places }
    requires node_name { IsTrue (is_node_name name.now) }
    ensures whole { IsWhole entries.new.items holders.new }
    ensures ok { OnOk result (held entries.new.items ≡ with_child (held entries.old.items) (place_of (held entries.old.items) parent) name.now) }
    ensures newest { IfOk result (λ node. node ≡ length (held entries.old.items).places) }
    ensures longer { IfOk result (λ node. node < length (held entries.new.items).places) }
{
    let _ = holders;
    add(entries, parent, name)
}

/// Replaces the value of the first property of a name, or adds a last property.
pub(crate) fn set_whole(
    entries: &mut Vec<Entry>,
    holders: &mut Holders,
    node: usize,
    name: &[u8],
    bytes: &[u8],
) -> Result<(), AllocError>
    requires whole { IsWhole entries.old.items holders.old }
    requires live { node < length (held entries.old.items).places }
    requires property_name { IsTrue (is_property_name name.now) }
    ensures whole { IsWhole entries.new.items holders.new }
    ensures ok { OnOk result (held entries.new.items ≡ with_properties (held entries.old.items) (place_of (held entries.old.items) node) (set_property name.now bytes.now)) }
    ensures places { (held entries.new.items).places ≡ (held entries.old.items).places }
{
    if name == b"phandle".as_slice() {
        return set_phandle(entries, holders, node, bytes);
    }
    set(entries, node, name, bytes)
}

/// Adds a last property, whatever the names before it.
pub(crate) fn push_whole(
    entries: &mut Vec<Entry>,
    holders: &mut Holders,
    node: usize,
    name: &[u8],
    bytes: &[u8],
) -> Result<(), AllocError>
    requires whole { IsWhole entries.old.items holders.old }
    requires live { node < length (held entries.old.items).places }
    requires property_name { IsTrue (is_property_name name.now) }
    ensures whole { IsWhole entries.new.items holders.new }
    ensures ok { OnOk result (held entries.new.items ≡ with_property (held entries.old.items) (place_of (held entries.old.items) node) name.now bytes.now) }
    ensures places { (held entries.new.items).places ≡ (held entries.old.items).places }
{
    match value(entries.as_slice(), node, name) {
        None => set_whole(entries, holders, node, name, bytes),
        Some(_) => push(entries, node, name, bytes),
    }
}

/// Puts a word in its place within the value of the first property of a name. A word that is a whole phandle takes memory.
pub(crate) fn put_whole(
    entries: &mut Vec<Entry>,
    holders: &mut Holders,
    node: usize,
    name: &[u8],
    offset: usize,
    number: u32,
) -> Result<(), AllocError>
    requires whole { IsWhole entries.old.items holders.old }
    requires live { node < length (held entries.old.items).places }
    requires within { IsSomeAnd (property_of (properties_of (held entries.old.items) node) name.now) (λ bytes. offset + 4 ≤ length bytes) }
    ensures whole { IsWhole entries.new.items holders.new }
    ensures ok { (bytes : Bytes) → property_of (properties_of (held entries.old.items) node) name.now ≡ Some bytes → OnOk result (held entries.new.items ≡ with_properties (held entries.old.items) (place_of (held entries.old.items) node) (set_property name.now (with_word bytes offset number))) }
    ensures places { (held entries.new.items).places ≡ (held entries.old.items).places }
{
    let Some(bytes) = value(entries.as_slice(), node, name) else {
        return Ok(());
    };
    if bytes.len() != 4 {
        put_word(entries, node, name, offset, number);
        return Ok(());
    }
    let mut made = OwnBytes::copied(*entries.allocator(), bytes)?;
    made.put_word(offset, number);
    set_whole(entries, holders, node, name, made.as_slice())
}

/// The first node in document order that has this phandle.
pub(crate) fn holder(entries: &[Entry], holders: &Holders, phandle: u32) -> Option<usize>
    requires { IsWhole entries.now holders.now }
    ensures live { IfSome result (λ node. node < length (held entries.now).places) }
    ensures place { option_map (λ node. place_of (held entries.now) node) result ≡ place_of_phandle (held entries.now).tree phandle }
{
    let _ = entries;
    first(holders, phandle)
}
