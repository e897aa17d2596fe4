// The host's memory and what is reserved in it.
ghost use Rattle.std.specs.Prelude.{◌≡◌, ◌<◌, ◌≤◌, ◌++◌, ◌-◌, ◌^◌, ℕ, [], All, IfOk, IfSome, OnOk, flat_map, length, map, min};
ghost use Rattle.fdt_nodes.specs.Held.{node_of};
ghost use Rattle.domain_bindings.specs.Statics.{bytes_in};
ghost use Rattle.domain_bindings.specs.Hosts.{has_uneven_reg, memory_item, memory_items, memory_reason, reg_of, reserve_item, reserve_items, reserved_item, reserved_reason};

use crate::statics::{bytes_in, regions_of};
use described::{Described, Item, Part, What, Why, described};
use fdt_nodes::{has, item_of};
use fdt_tree::{NodeId, Reserve, Tree};
use std::alloc::{AllocError, Global};
use texts::{BaseSize, Bytes, List};

/// The ranges of a node's `reg` (Devicetree Specification 0.4, 2.3.6).
fn reg_of(
    alloc: Global,
    tree: &Tree,
    node: NodeId,
    cells: Option<(u32, u32)>,
) -> Result<List<BaseSize>, AllocError>
    requires live { node < length tree.now.places }
    requires cells { (node_of tree.now node).cells ≡ cells }
    requires within { IfSome cells (λ counts. (1 ≤ counts.0) × (counts.0 ≤ 2) × (1 ≤ counts.1) × (counts.1 ≤ 2)) }
    ensures { IfOk result (λ ranges. ranges ≡ reg_of (node_of tree.now node)) }
{
    regions_of(alloc, tree, node, b"reg", cells)
}

/// Whether a node's `reg` does not divide into entries.
fn has_uneven_reg(tree: &Tree, node: NodeId, cells: Option<(u32, u32)>) -> bool
    requires live { node < length tree.now.places }
    requires cells { (node_of tree.now node).cells ≡ cells }
    requires within { IfSome cells (λ counts. (1 ≤ counts.0) × (counts.0 ≤ 2) × (1 ≤ counts.1) × (counts.1 ≤ 2)) }
    ensures { result ≡ has_uneven_reg (node_of tree.now node) }
{
    match cells {
        None => false,
        Some(cells) => match tree.prop(node, b"reg") {
            None => false,
            Some(value) => value.len() % (4 * (cells.0 + cells.1) as usize) != 0,
        },
    }
}

/// The first own reason of memory after so many bytes of other memory, which are counted up to the greatest number.
fn memory_reason(
    tree: &Tree,
    node: NodeId,
    cells: Option<(u32, u32)>,
    before: u64,
    ranges: &[BaseSize],
) -> Option<Why>
    requires live { node < length tree.now.places }
    requires cells { (node_of tree.now node).cells ≡ cells }
    requires within { IfSome cells (λ counts. (1 ≤ counts.0) × (counts.0 ≤ 2) × (1 ≤ counts.1) × (counts.1 ≤ 2)) }
    requires ranges { ranges.now ≡ reg_of (node_of tree.now node) }
    ensures { (total : ℕ) → before ≡ min total (2 ^ 64 - 1) → result ≡ memory_reason total (node_of tree.now node) }
{
    if !has(tree, node, b"reg") {
        return Some(Why::Missing);
    }
    if cells.is_none() {
        return Some(Why::BadValue);
    }
    if has_uneven_reg(tree, node, cells) {
        return Some(Why::BadLength);
    }
    if before.saturating_add(bytes_in(ranges)) > 1 << 36 {
        return Some(Why::TooLarge);
    }
    None
}

/// Memory after so many bytes of other memory.
fn memory_item(
    alloc: Global,
    tree: &Tree,
    node: NodeId,
    cells: Option<(u32, u32)>,
    before: u64,
    ranges: List<BaseSize>,
) -> Result<Described, AllocError>
    requires live { node < length tree.now.places }
    requires cells { (node_of tree.now node).cells ≡ cells }
    requires within { IfSome cells (λ counts. (1 ≤ counts.0) × (counts.0 ≤ 2) × (1 ≤ counts.1) × (counts.1 ≤ 2)) }
    requires ranges { ranges ≡ reg_of (node_of tree.now node) }
    ensures { (total : ℕ) → before ≡ min total (2 ^ 64 - 1) → IfOk result (λ item. item ≡ memory_item total (node_of tree.now node)) }
{
    let own = memory_reason(tree, node, cells, before, ranges.as_slice());
    let item = item_of(alloc, tree, Part::Memory, node, 0)?;
    Ok(described(item, own, What::Memory { entries: ranges }))
}

/// Adds the host's memory: its items, and all its ranges. After want of memory what was added is no matter.
pub(crate) fn append_memory(
    alloc: Global,
    tree: &Tree,
    nodes: &[NodeId],
    cells: Option<(u32, u32)>,
    items: &mut List<Described>,
    regions: &mut Vec<BaseSize>,
) -> Result<(), AllocError>
    requires live { All (λ n. n < length tree.now.places) nodes.now }
    requires cells { All (λ n. (node_of tree.now n).cells ≡ cells) nodes.now }
    requires within { IfSome cells (λ counts. (1 ≤ counts.0) × (counts.0 ≤ 2) × (1 ≤ counts.1) × (counts.1 ≤ 2)) }
    requires none { regions.old.items ≡ [] }
    ensures items { OnOk result (items.new ≡ items.old ++ memory_items 0 (map (λ n. node_of tree.now n) nodes.now)) }
    ensures regions { OnOk result (regions.new.items ≡ flat_map reg_of (map (λ n. node_of tree.now n) nodes.now)) }
{
    let mut before = 0u64;
    for node in nodes {
        let ranges = reg_of(alloc, tree, *node, cells)?;
        regions.extend_from_slice(ranges.as_slice())?;
        let more = bytes_in(ranges.as_slice());
        let item = memory_item(alloc, tree, *node, cells, before, ranges)?;
        items.push(item)?;
        before = before.saturating_add(more);
    }
    Ok(())
}

/// The first own reason of a reserved region.
fn reserved_reason(tree: &Tree, node: NodeId, cells: Option<(u32, u32)>) -> Option<Why>
    requires live { node < length tree.now.places }
    requires cells { (node_of tree.now node).cells ≡ cells }
    requires within { IfSome cells (λ counts. (1 ≤ counts.0) × (counts.0 ≤ 2) × (1 ≤ counts.1) × (counts.1 ≤ 2)) }
    ensures { result ≡ reserved_reason (node_of tree.now node) }
{
    if cells.is_none() {
        return Some(Why::BadValue);
    }
    if has_uneven_reg(tree, node, cells) {
        return Some(Why::BadLength);
    }
    None
}

/// A reserved region.
fn reserved_item(
    alloc: Global,
    tree: &Tree,
    node: NodeId,
    cells: Option<(u32, u32)>,
) -> Result<Described, AllocError>
    requires live { node < length tree.now.places }
    requires cells { (node_of tree.now node).cells ≡ cells }
    requires within { IfSome cells (λ counts. (1 ≤ counts.0) × (counts.0 ≤ 2) × (1 ≤ counts.1) × (counts.1 ≤ 2)) }
    ensures { IfOk result (λ item. item ≡ reserved_item (node_of tree.now node)) }
{
    let own = reserved_reason(tree, node, cells);
    let entries = reg_of(alloc, tree, node, cells)?;
    let item = item_of(alloc, tree, Part::Reserved, node, 0)?;
    Ok(described(item, own, What::Reserved { entries }))
}

/// Adds the reserved regions. After want of memory what was added is no matter.
pub(crate) fn append_reserved(
    alloc: Global,
    tree: &Tree,
    nodes: &[NodeId],
    cells: Option<(u32, u32)>,
    items: &mut List<Described>,
) -> Result<(), AllocError>
    requires live { All (λ n. n < length tree.now.places) nodes.now }
    requires cells { All (λ n. (node_of tree.now n).cells ≡ cells) nodes.now }
    requires within { IfSome cells (λ counts. (1 ≤ counts.0) × (counts.0 ≤ 2) × (1 ≤ counts.1) × (counts.1 ≤ 2)) }
    ensures { OnOk result (items.new ≡ items.old ++ map reserved_item (map (λ n. node_of tree.now n) nodes.now)) }
{
    for node in nodes {
        let item = reserved_item(alloc, tree, *node, cells)?;
        items.push(item)?;
    }
    Ok(())
}

/// The reservation with this number.
fn reserve_item(alloc: Global, number: u64, reserve: Reserve) -> Described
    ensures { result ≡ reserve_item number reserve }
{
    let at = BaseSize {
        base: reserve.address,
        size: reserve.size,
    };
    let item = Item {
        part: Part::Reserve,
        path: Bytes::new(alloc),
        index: number,
    };
    Described {
        item,
        own: None,
        what: What::Reserve { at },
    }
}

/// Adds the reservations. After want of memory what was added is no matter.
pub(crate) fn append_reserves(
    alloc: Global,
    reserves: &[Reserve],
    items: &mut List<Described>,
) -> Result<(), AllocError>
    ensures { OnOk result (items.new ≡ items.old ++ reserve_items 0 reserves.now) }
{
    for index in 0..reserves.len() {
        let item = reserve_item(alloc, index as u64, reserves[index]);
        items.push(item)?;
    }
    Ok(())
}
