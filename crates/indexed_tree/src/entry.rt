// The entry of a node.
ghost use Rattle.std.specs.Prelude.{◌≡◌, ◌<◌, ◌⊎◌, ℕ, Some, length, slice_get, OnOk, OnErr, IfOk};
ghost use Rattle.indexed_tree.specs.PrivateArena.{IsRoot, IsFresh, IsMother, IsSame, IsAdded, IsKept};
ghost use Rattle.indexed_tree.specs.declared.entry.Entry.{Entry};

use crate::names::enter;
use crate::own_bytes::OwnBytes;
use crate::properties::Properties;
use std::alloc::{AllocError, Global};
use std::collections::BTreeMap;

/// What is held of a node.
#[derive(Drop)]
pub(crate) struct Entry {
    /// The number of its parent; the root's is its own.
    pub(crate) parent: usize,
    /// The numbers of children on the way to it from the root.
    pub(crate) place: Vec<usize>,
    pub(crate) name: OwnBytes,
    pub(crate) properties: Properties,
    /// How many children it has.
    pub(crate) count: usize,
    /// The number of the first child of each name.
    pub(crate) children: BTreeMap<Vec<u8>, usize>,
}

/// The entry of a root without a property.
pub(crate) fn root_entry(alloc: Global) -> Result<Entry, AllocError>
    ensures { IfOk result IsRoot }
{
    Ok(Entry {
        parent: 0,
        place: Vec::new(alloc),
        name: OwnBytes::copied(alloc, b"")?,
        properties: Properties::new(alloc),
        count: 0,
        children: BTreeMap::new(alloc),
    })
}

/// An entry for a new last child of one of these.
pub(crate) fn child_entry(
    alloc: Global,
    entries: &[Entry],
    parent: usize,
    name: &[u8],
) -> Result<Entry, AllocError>
    requires { parent < length entries.now }
    ensures { IfOk result (IsFresh entries.now parent name.now) }
{
    let above = &entries[parent];
    let mut place = above.place.as_slice().to_vec(alloc)?;
    place.push(above.count)?;
    Ok(Entry {
        parent,
        place,
        name: OwnBytes::copied(alloc, name)?,
        properties: Properties::new(alloc),
        count: 0,
        children: BTreeMap::new(alloc),
    })
}

/// Counts a new last child of this name and number.
fn enter_child(above: &mut Entry, name: Vec<u8>, number: usize) -> Result<(), AllocError>
    requires { above.old.count < number }
    ensures ok { OnOk result (IsMother name.items number above.old above.new) }
    ensures err { OnErr result (IsSame above.old above.new) }
{
    enter(&mut above.children, name, number)?;
    above.count += 1;
    Ok(())
}

/// Adds an entry for a new last child of this name.
pub(crate) fn grow(
    entries: &mut Vec<Entry>,
    parent: usize,
    entry: Entry,
    name: Vec<u8>,
) -> Result<(), AllocError>
    requires live { parent < length entries.old.items }
    requires few { (above : Entry) → slice_get entries.old.items parent ≡ Some above → above.count < length entries.old.items }
    ensures ok { OnOk result (IsAdded entries.old.items entries.new.items parent name.items entry) }
    ensures err { OnErr result ((entries.new.items ≡ entries.old.items) ⊎ IsKept entries.old.items entries.new.items parent) }
{
    let number = entries.len();
    entries.push(entry)?;
    let above = &mut entries[parent];
    match enter_child(above, name, number) {
        Ok(()) => Ok(()),
        Err(_) => {
            let _ = entries.pop();
            Err(AllocError)
        }
    }
}
