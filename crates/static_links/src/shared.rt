// The regions of memory that a domain shares with others.
ghost use Rattle.std.specs.Prelude.{◌≡◌, ◌≤◌, ◌<◌, ◌+◌, ◌*◌, [], length, unwrap_or, IfOk};
ghost use Rattle.described.specs.Reasons.{is_not_page, is_too_high};
ghost use Rattle.fdt_nodes.specs.Held.{node_of};
ghost use Rattle.described.specs.Sound.{AreSound};
ghost use Rattle.static_links.specs.Shared.{full_region, short_region, addresses, region_in, region, has_id, is_owner, has_role, lacks_region, has_bad_value, shared_id, shared_reason, shared_what, shared_item, shared_items};

use crate::nodes::children_with;
use described::{Described, Part, What, Why, is_not_page, is_too_high, is_too_large};
use fdt_nodes::{
    has, is_value, item_of, own_cells, region as entry_region, shared_window, string_at,
};
use fdt_tree::{NodeId, Tree};
use std::alloc::{AllocError, Global};
use texts::{Bytes, List};

/// A region of shared memory: its addresses and its size, in bytes. The host address may be left out.
#[derive(Clone, Copy)]
struct SharedRegion {
    host: Option<u64>,
    guest: u64,
    size: u64,
}

impl SharedRegion {
    /// The region of the full form: a host address, a guest address and a size.
    fn full(value: &[u8], cells: (u32, u32)) -> SharedRegion
        requires address { (1 ≤ cells.0) × (cells.0 ≤ 2) }
        requires size { (1 ≤ cells.1) × (cells.1 ≤ 2) }
        requires there { 4 * (cells.0 + cells.0 + cells.1) ≤ length value.now }
        ensures { result ≡ full_region cells value.now }
    {
        let window = shared_window(value, cells);
        SharedRegion {
            host: Some(window.host),
            guest: window.guest,
            size: window.size,
        }
    }

    /// The region of the short form: a guest address and a size.
    fn short(value: &[u8], cells: (u32, u32)) -> SharedRegion
        requires address { (1 ≤ cells.0) × (cells.0 ≤ 2) }
        requires size { (1 ≤ cells.1) × (cells.1 ≤ 2) }
        requires there { 4 * (cells.0 + cells.1) ≤ length value.now }
        ensures { result ≡ short_region cells value.now }
    {
        let entry = entry_region(value, cells);
        SharedRegion {
            host: None,
            guest: entry.base,
            size: entry.size,
        }
    }

    /// Whether an address that it has or its size is no multiple of a page's 4,096 bytes, or its size is 0.
    fn is_not_page(self) -> bool
        ensures { result ≡ is_not_page (addresses self) self.size }
    {
        match self.host {
            Some(host) => is_not_page(host, self.guest, self.size),
            None => is_not_page(self.guest, self.guest, self.size),
        }
    }

    /// Whether it ends past 2^40, from an address that it has on.
    fn is_too_high(self) -> bool
        ensures { result ≡ is_too_high (addresses self) self.size }
    {
        match self.host {
            Some(host) => is_too_high(host, self.guest, self.size),
            None => is_too_high(self.guest, self.guest, self.size),
        }
    }
}

/// The region of a value, if it is one entry in these cells, in the form that its length tells.
fn region_in(cells: (u32, u32), value: &[u8]) -> Option<SharedRegion>
    requires address { (1 ≤ cells.0) × (cells.0 ≤ 2) }
    requires size { (1 ≤ cells.1) × (cells.1 ≤ 2) }
    ensures { result ≡ region_in cells value.now }
{
    if value.len() == 4 * (cells.0 + cells.0 + cells.1) as usize {
        return Some(SharedRegion::full(value, cells));
    }
    if value.len() == 4 * (cells.0 + cells.1) as usize {
        return Some(SharedRegion::short(value, cells));
    }
    None
}

/// The region of a node.
fn region(tree: &Tree, node: NodeId) -> Option<SharedRegion>
    requires { node < length tree.now.places }
    ensures { result ≡ region (node_of tree.now node) }
{
    let Ok(cells) = own_cells(tree, node) else {
        return None;
    };
    match tree.prop(node, b"xen,shared-mem") {
        None => None,
        Some(value) => region_in(cells, value),
    }
}

/// Whether a node has an id of 1 to 15 bytes.
fn has_id(tree: &Tree, node: NodeId) -> bool
    requires { node < length tree.now.places }
    ensures { result ≡ has_id (node_of tree.now node) }
{
    match string_at(tree, node, b"xen,shm-id") {
        None => false,
        Some(text) => 1 <= text.len() && text.len() <= 15,
    }
}

/// Whether the domain owns the region.
fn is_owner(tree: &Tree, node: NodeId) -> bool
    requires { node < length tree.now.places }
    ensures { result ≡ is_owner (node_of tree.now node) }
{
    is_value(tree, node, b"role", b"owner\0")
}

/// Whether the domain owns the region or borrows it; it borrows it where nothing is said.
fn has_role(tree: &Tree, node: NodeId) -> bool
    requires { node < length tree.now.places }
    ensures { result ≡ has_role (node_of tree.now node) }
{
    !has(tree, node, b"role")
        || is_owner(tree, node)
        || is_value(tree, node, b"role", b"borrower\0")
}

/// Whether a node has no id or no region.
fn lacks_region(tree: &Tree, node: NodeId) -> bool
    requires { node < length tree.now.places }
    ensures { result ≡ lacks_region (node_of tree.now node) }
{
    !has(tree, node, b"xen,shm-id") || !has(tree, node, b"xen,shared-mem")
}

/// Whether the cells of the domain, the id or the role are bad.
fn has_bad_value(tree: &Tree, node: NodeId) -> bool
    requires { node < length tree.now.places }
    ensures { result ≡ has_bad_value (node_of tree.now node) }
{
    own_cells(tree, node).is_err() || !has_id(tree, node) || !has_role(tree, node)
}

/// The first reason against a shared memory node with this region; so many stand before it.
fn shared_reason(
    tree: &Tree,
    node: NodeId,
    number: u64,
    found: &Option<SharedRegion>,
) -> Option<Why>
    requires live { node < length tree.now.places }
    requires found { found.now ≡ region (node_of tree.now node) }
    ensures { result ≡ shared_reason number (node_of tree.now node) }
{
    if number >= 16 {
        return Some(Why::TooMany);
    }
    if lacks_region(tree, node) {
        return Some(Why::Missing);
    }
    if has_bad_value(tree, node) {
        return Some(Why::BadValue);
    }
    let Some(region) = found else {
        return Some(Why::BadLength);
    };
    if region.is_not_page() {
        return Some(Why::NotPage);
    }
    if region.is_too_high() {
        return Some(Why::TooHigh);
    }
    if is_too_large(region.size) {
        return Some(Why::TooLarge);
    }
    None
}

/// The id of a node, or no bytes.
fn shared_id(alloc: Global, tree: &Tree, node: NodeId) -> Result<Bytes, AllocError>
    requires { node < length tree.now.places }
    ensures { IfOk result (λ id. id ≡ unwrap_or (shared_id (node_of tree.now node)) []) }
{
    match string_at(tree, node, b"xen,shm-id") {
        None => Ok(Bytes::new(alloc)),
        Some(text) => Ok(Bytes::from(Vec::from_slice(alloc, text)?)),
    }
}

/// What a shared memory node with this region describes.
fn shared_what(
    alloc: Global,
    tree: &Tree,
    node: NodeId,
    found: &Option<SharedRegion>,
) -> Result<What, AllocError>
    requires live { node < length tree.now.places }
    requires found { found.now ≡ region (node_of tree.now node) }
    ensures { IfOk result (λ what. what ≡ shared_what (node_of tree.now node)) }
{
    let Some(region) = found else {
        return Ok(What::Unread);
    };
    Ok(What::Shared {
        id: shared_id(alloc, tree, node)?,
        host: region.host,
        guest: region.guest,
        size: region.size,
        owner: is_owner(tree, node),
    })
}

/// The item of a shared memory node; so many stand before it.
fn shared_item(
    alloc: Global,
    tree: &Tree,
    node: NodeId,
    number: u64,
) -> Result<Described, AllocError>
    requires { node < length tree.now.places }
    ensures { IfOk result (λ item. item ≡ shared_item number (node_of tree.now node)) }
{
    let region = region(tree, node);
    let item = item_of(alloc, tree, Part::Shared, node, 0)?;
    match shared_reason(tree, node, number, &region) {
        Some(why) => Ok(Described {
            item,
            own: Some(why),
            what: What::Unread,
        }),
        None => Ok(Described {
            item,
            own: None,
            what: shared_what(alloc, tree, node, &region)?,
        }),
    }
}

/// Reads the shared memory nodes of a domain. No description is refused: an item that breaks its binding carries its own
/// reason.
pub fn read_shared(
    alloc: Global,
    tree: &Tree,
    domain: NodeId,
) -> Result<List<Described>, AllocError>
    requires { domain < length tree.now.places }
    ensures items { IfOk result (λ items. items ≡ shared_items (node_of tree.now domain)) }
    ensures sound { IfOk result (λ items. AreSound items) }
{
    let nodes = children_with(alloc, tree, domain, b"xen,domain-shared-memory-v1")?;
    let mut items = List::new(alloc);
    let mut number = 0u64;
    for node in nodes.as_slice() {
        items.push(shared_item(alloc, tree, *node, number)?)?;
        number += 1;
    }
    Ok(items)
}
