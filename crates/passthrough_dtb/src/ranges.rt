// The ranges of host addresses that devices have.
ghost use Rattle.std.specs.Prelude.{◌≡◌, ◌≤◌, ◌<◌, ◌++◌, [], ℕ, List, length, map, flat_map, OnOk, IfOk, IfSome};
ghost use Rattle.described.specs.declared.item.Part.TheVariants as parts;
ghost use Rattle.fdt_tree.specs.Tree.{Bytes};
ghost use Rattle.fdt_nodes.specs.declared.entries.Window.{Window as Range};
ghost use Rattle.fdt_nodes.specs.Held.{node_of};
ghost use Rattle.passthrough_dtb.specs.Ranges.{is_among, and_range, range_reason, new_range_reason, range_item, ranges_after, ranges_in, whole_ranges, numbered, entries_of};
ghost use Rattle.passthrough_dtb.specs.PrivateRanges.{ranges_before};
ghost use Rattle.passthrough_dtb.specs.Whole.{item_in};
ghost use Rattle.passthrough_dtb.specs.PrivateHeld.{device_of, AreDevices};

use crate::devices::Device;
use crate::items::item_in;
use crate::seen::Ranges;
use described::{
    Described, Item, Part, What, Why, described, is_not_page, is_too_high, is_too_large,
};
use fdt_nodes::{EntriesFault, Window, device_windows, path, with_index};
use fdt_tree::{NodeId, Tree};
use std::alloc::{AllocError, Global};
use texts::List;

/// The first reason against a range that repeats none before it; so many stand before.
fn new_range_reason(count: usize, range: Window) -> Option<Why>
    ensures { (before : List Range) → length before ≡ count → result ≡ new_range_reason before range }
{
    if count >= 64 {
        return Some(Why::TooMany);
    }
    if is_not_page(range.host, range.guest, range.size) {
        return Some(Why::NotPage);
    }
    if is_too_high(range.host, range.guest, range.size) {
        return Some(Why::TooHigh);
    }
    if is_too_large(range.size) {
        return Some(Why::TooLarge);
    }
    None
}

/// Describes a range after those that were met, and notes it.
fn range_item(before: &mut Ranges, item: Item, range: Window) -> Result<Described, AllocError>
    ensures item { IfOk result (λ found. found ≡ range_item before.old (record { item = item; range = range })) }
    ensures before { OnOk result (before.new ≡ and_range before.old range) }
{
    let count = before.len();
    let own = if before.add(range)? {
        new_range_reason(count, range)
    } else {
        None
    };
    Ok(described(
        item,
        own,
        What::Range {
            host: range.host,
            size: range.size,
            guest: range.guest,
        },
    ))
}

/// The entries of a value of `xen,reg`; none where it is no whole entries.
fn whole_ranges(alloc: Global, cells: (u32, u32), value: &[u8]) -> Result<List<Window>, AllocError>
    requires address { (1 ≤ cells.0) × (cells.0 ≤ 2) }
    requires size { (1 ≤ cells.1) × (cells.1 ≤ 2) }
    ensures { IfOk result (λ ranges. ranges ≡ whole_ranges cells value.now) }
{
    match device_windows(alloc, value, cells) {
        Ok(ranges) => Ok(ranges),
        Err(EntriesFault::Length) => Ok(List::new(alloc)),
        Err(EntriesFault::Memory) => Err(AllocError),
    }
}

/// The ranges of a device, which are counted in these cells.
fn ranges_in(
    alloc: Global,
    partial: &Tree,
    device: NodeId,
    cells: Option<(u32, u32)>,
) -> Result<List<Window>, AllocError>
    requires device { device < length partial.now.places }
    requires cells { (node_of partial.now device).cells ≡ cells }
    requires within { IfSome cells (λ counts. (1 ≤ counts.0) × (counts.0 ≤ 2) × (1 ≤ counts.1) × (counts.1 ≤ 2)) }
    ensures { IfOk result (λ ranges. ranges ≡ ranges_in (node_of partial.now device)) }
{
    let Some(cells) = cells else {
        return Ok(List::new(alloc));
    };
    match partial.prop(device, b"xen,reg") {
        None => Ok(List::new(alloc)),
        Some(value) => whole_ranges(alloc, cells, value),
    }
}

/// Adds the items of the ranges of one device. All share the path of the first.
fn add_ranges_of(
    alloc: Global,
    first: &Item,
    ranges: &[Window],
    before: &mut Ranges,
    items: &mut List<Described>,
) -> Result<(), AllocError>
    ensures items { (guest : ℕ) (path : Bytes) → first.now ≡ item_in parts.Range guest path 0 → OnOk result (items.new ≡ items.old ++ ranges_after before.old (numbered guest path 0 ranges.now)) }
    ensures before { (guest : ℕ) (path : Bytes) → OnOk result (before.new ≡ ranges_before before.old (numbered guest path 0 ranges.now)) }
{
    let mut number = 0u64;
    for range in ranges {
        let item = with_index(alloc, first, number)?;
        items.push(range_item(before, item, *range)?)?;
        number += 1;
    }
    Ok(())
}

/// Adds the items of the ranges of a device.
fn add_ranges_at(
    alloc: Global,
    partial: &Tree,
    guest: u32,
    device: &Device,
    before: &mut Ranges,
    items: &mut List<Described>,
) -> Result<(), AllocError>
    requires live { device.now.node < length partial.now.places }
    requires cells { (device_of partial.now device.now).cells ≡ device.now.cells }
    requires within { IfSome device.now.cells (λ counts. (1 ≤ counts.0) × (counts.0 ≤ 2) × (1 ≤ counts.1) × (counts.1 ≤ 2)) }
    ensures items { OnOk result (items.new ≡ items.old ++ ranges_after before.old (entries_of guest (device_of partial.now device.now))) }
    ensures before { OnOk result (before.new ≡ ranges_before before.old (entries_of guest (device_of partial.now device.now))) }
{
    let path = path(alloc, partial, device.node)?;
    let first = item_in(alloc, Part::Range, guest, path.as_slice(), 0)?;
    let ranges = ranges_in(alloc, partial, device.node, device.cells)?;
    add_ranges_of(alloc, &first, ranges.as_slice(), before, items)
}

/// Adds the items of the ranges of devices.
pub(crate) fn add_ranges(
    alloc: Global,
    partial: &Tree,
    host: &Tree,
    guest: u32,
    devices: &[Device],
    items: &mut List<Described>,
) -> Result<(), AllocError>
    requires { AreDevices partial.now host.now devices.now }
    ensures { OnOk result (items.new ≡ items.old ++ ranges_after [] (flat_map (entries_of guest) (map (device_of partial.now) devices.now))) }
{
    let mut before = Ranges::new(alloc);
    for device in devices {
        add_ranges_at(alloc, partial, guest, device, &mut before, items)?;
    }
    Ok(())
}
