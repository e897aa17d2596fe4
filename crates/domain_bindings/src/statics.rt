// The static memory of guests.
ghost use Rattle.std.specs.Prelude.{◌≡◌, ◌<◌, ◌≤◌, ◌++◌, ◌-◌, ◌^◌, IfOk, IfSome, OnOk, length, min};
ghost use Rattle.fdt_tree.specs.Tree.{property_of};
ghost use Rattle.fdt_tree.specs.Document.{properties_of};
ghost use Rattle.described.specs.declared.item.Part.TheVariants as parts;
ghost use Rattle.fdt_nodes.specs.Held.{node_of};
ghost use Rattle.fdt_nodes.specs.NodeItems.{item_of};
ghost use Rattle.fdt_nodes.specs.Nodes.{Node};
ghost use Rattle.domain_bindings.specs.Statics.{bytes_in, list_item, list_reason, range_items, regions_of, static_cells, static_item, static_items, static_reason, statics_of};

use crate::reasons::{is_not_pages, is_too_high};
use described::{Described, Item, Part, What, Why, described};
use fdt_nodes::{EntriesFault, cell_count, has, item_of, regions, u64_at, with_index};
use fdt_tree::{NodeId, Tree};
use std::alloc::{AllocError, Global};
use texts::{BaseSize, List};

/// The ranges of a property that is a list of them, where its cells are good and it divides into entries.
pub(crate) fn regions_of(
    alloc: Global,
    tree: &Tree,
    node: NodeId,
    name: &[u8],
    cells: Option<(u32, u32)>,
) -> Result<List<BaseSize>, AllocError>
    requires live { node < length tree.now.places }
    requires cells { IfSome cells (λ counts. (1 ≤ counts.0) × (counts.0 ≤ 2) × (1 ≤ counts.1) × (counts.1 ≤ 2)) }
    ensures { IfOk result (λ ranges. ranges ≡ regions_of cells (property_of (properties_of tree.now node) name.now)) }
{
    let Some(cells) = cells else {
        return Ok(List::new(alloc));
    };
    let Some(value) = tree.prop(node, name) else {
        return Ok(List::new(alloc));
    };
    match regions(alloc, value, cells) {
        Ok(ranges) => Ok(ranges),
        Err(EntriesFault::Length) => Ok(List::new(alloc)),
        Err(EntriesFault::Memory) => Err(AllocError),
    }
}

/// How many bytes ranges have together, up to the greatest number that there is.
pub(crate) fn bytes_in(ranges: &[BaseSize]) -> u64
    ensures { result ≡ min (bytes_in ranges.now) (2 ^ 64 - 1) }
{
    let mut bytes = 0u64;
    for range in ranges {
        bytes = bytes.saturating_add(range.size);
    }
    bytes
}

/// The cells of an address and of a size in static memory.
fn static_cells(tree: &Tree, node: NodeId) -> Option<(u32, u32)>
    requires { node < length tree.now.places }
    ensures cells { result ≡ static_cells (node_of tree.now node) }
    ensures within { IfSome result (λ counts. (1 ≤ counts.0) × (counts.0 ≤ 2) × (1 ≤ counts.1) × (counts.1 ≤ 2)) }
{
    match cell_count(tree, node, b"#xen,static-mem-address-cells", 2) {
        None => None,
        Some(address) => match cell_count(tree, node, b"#xen,static-mem-size-cells", 2) {
            None => None,
            Some(size) => Some((address, size)),
        },
    }
}

/// The static ranges of a guest.
fn statics_of(alloc: Global, tree: &Tree, node: NodeId) -> Result<List<BaseSize>, AllocError>
    requires { node < length tree.now.places }
    ensures { IfOk result (λ ranges. ranges ≡ statics_of (node_of tree.now node)) }
{
    let cells = static_cells(tree, node);
    regions_of(alloc, tree, node, b"xen,static-mem", cells)
}

/// The first own reason of a list of static ranges.
fn list_reason(tree: &Tree, node: NodeId, ranges: &[BaseSize]) -> Option<Why>
    requires live { node < length tree.now.places }
    requires ranges { ranges.now ≡ statics_of (node_of tree.now node) }
    ensures { result ≡ list_reason (node_of tree.now node) }
{
    if static_cells(tree, node).is_none() {
        return Some(Why::BadValue);
    }
    if ranges.is_empty() {
        return Some(Why::BadLength);
    }
    if ranges.len() > 64 {
        return Some(Why::TooMany);
    }
    let bytes = bytes_in(ranges);
    if bytes > 1 << 34 {
        return Some(Why::TooLarge);
    }
    if let Some(memory) = u64_at(tree, node, b"memory") {
        if bytes % 1024 != 0 || memory != bytes / 1024 {
            return Some(Why::MemorySum);
        }
    }
    None
}

/// The list of static ranges.
fn list_item(
    alloc: Global,
    tree: &Tree,
    node: NodeId,
    ranges: &[BaseSize],
) -> Result<Described, AllocError>
    requires live { node < length tree.now.places }
    requires ranges { ranges.now ≡ statics_of (node_of tree.now node) }
    ensures { IfOk result (λ item. item ≡ list_item (node_of tree.now node)) }
{
    let own = list_reason(tree, node, ranges);
    let item = item_of(alloc, tree, Part::StaticList, node, 0)?;
    let entries = List::from(Vec::from_slice(alloc, ranges)?);
    Ok(described(item, own, What::StaticList { entries }))
}

/// The first own reason of a static range.
fn static_reason(range: BaseSize) -> Option<Why>
    ensures { result ≡ static_reason range }
{
    if is_not_pages(range) {
        return Some(Why::NotPage);
    }
    if is_too_high(range) {
        return Some(Why::TooHigh);
    }
    None
}

/// A static range of a guest, by the item of the guest's first.
fn static_item(
    alloc: Global,
    first: &Item,
    number: u64,
    range: BaseSize,
) -> Result<Described, AllocError>
    ensures { (node : Node) → first.now ≡ item_of parts.Static node 0 → IfOk result (λ item. item ≡ static_item node number range) }
{
    let item = with_index(alloc, first, number)?;
    Ok(described(item, static_reason(range), What::Static { at: range }))
}

/// Adds static ranges of a guest, which share the path of the first. After want of memory what was added is no matter.
fn append_ranges(
    alloc: Global,
    tree: &Tree,
    node: NodeId,
    ranges: &[BaseSize],
    items: &mut List<Described>,
) -> Result<(), AllocError>
    requires { node < length tree.now.places }
    ensures { OnOk result (items.new ≡ items.old ++ range_items (node_of tree.now node) 0 ranges.now) }
{
    let first = item_of(alloc, tree, Part::Static, node, 0)?;
    for index in 0..ranges.len() {
        let item = static_item(alloc, &first, index as u64, ranges[index])?;
        items.push(item)?;
    }
    Ok(())
}

/// Adds the static memory of a guest, if it has some. After want of memory what was added is no matter.
pub(crate) fn append_statics(
    alloc: Global,
    tree: &Tree,
    node: NodeId,
    items: &mut List<Described>,
) -> Result<(), AllocError>
    requires { node < length tree.now.places }
    ensures { OnOk result (items.new ≡ items.old ++ static_items (node_of tree.now node)) }
{
    if !has(tree, node, b"xen,static-mem") {
        return Ok(());
    }
    let ranges = statics_of(alloc, tree, node)?;
    let item = list_item(alloc, tree, node, ranges.as_slice())?;
    items.push(item)?;
    append_ranges(alloc, tree, node, ranges.as_slice(), items)?;
    Ok(())
}
