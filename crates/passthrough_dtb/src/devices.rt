// The devices of a partial tree.
ghost use Rattle.std.specs.Prelude.{◌≡◌, ◌<◌, ◌++◌, ◌∷◌, [], length, map, filter, IfOk, OnOk, All};
ghost use Rattle.fdt_nodes.specs.Held.{node_of, Are};
ghost use Rattle.fdt_nodes.specs.Controllers.{gic_phandle};
ghost use Rattle.passthrough_dtb.specs.Devices.{is_device, device_item};
ghost use Rattle.passthrough_dtb.specs.PrivateCounts.{AreCounts};
ghost use Rattle.passthrough_dtb.specs.PrivateFacts.{AreKnown};
ghost use Rattle.passthrough_dtb.specs.Whole.{passed_nodes};
ghost use Rattle.passthrough_dtb.specs.PrivateHeld.{device_of, IsDevice, AreDevices};

use crate::counts::{Counts, cells_once};
use crate::device::reason_at;
use crate::facts::{Known, facts_once};
use crate::hosts::host_node;
use crate::items::item_in;
use described::{Described, Part, What, described};
use fdt_nodes::{PathIndex, descendants, has, path};
use fdt_tree::{NodeId, Tree};
use std::alloc::{AllocError, Global};
use std::collections::BTreeMap;
use texts::List;

/// A device of a partial tree, the host's node that it stands for, where there is one, and the cells in which its
/// `xen,reg` is counted, where they are good.
#[derive(Clone, Copy, Drop)]
pub(crate) struct Device {
    pub(crate) node: NodeId,
    pub(crate) on_host: Option<NodeId>,
    pub(crate) cells: Option<(u32, u32)>,
}

/// The nodes below `/passthrough`, in document order.
pub(crate) fn passed_nodes(alloc: Global, partial: &Tree) -> Result<List<NodeId>, AllocError>
    ensures { IfOk result (λ nodes. Are partial.now (passed_nodes partial.now.tree) nodes) }
{
    match partial.find(b"/passthrough") {
        None => Ok(List::new(alloc)),
        Some(top) => descendants(alloc, partial, top),
    }
}

/// Whether a node says something of the host.
fn is_device(tree: &Tree, node: NodeId) -> bool
    requires { node < length tree.now.places }
    ensures { result ≡ is_device (node_of tree.now node) }
{
    has(tree, node, b"xen,reg")
        || has(tree, node, b"xen,path")
        || has(tree, node, b"interrupts")
        || has(tree, node, b"interrupts-extended")
}

/// Adds a node, where it is a device, with the host's node that it stands for.
fn add_device(
    partial: &Tree,
    node: NodeId,
    host: &PathIndex,
    counts: &mut Counts,
    found: &mut Vec<Device>,
) -> Result<(), AllocError>
    requires node { node < length partial.now.places }
    requires counts { AreCounts partial.now counts.old }
    ensures counts { OnOk result (AreCounts partial.now counts.new) }
    ensures devices { OnOk result (map (device_of partial.now) found.new.items ≡ map (device_of partial.now) found.old.items ++ filter is_device (node_of partial.now node ∷ [])) }
    ensures are { AreDevices partial.now host.now found.old.items → OnOk result (AreDevices partial.now host.now found.new.items) }
{
    if is_device(partial, node) {
        let on_host: Option<NodeId> = host_node(partial, node, host);
        let cells: Option<(u32, u32)> = cells_once(partial, node, counts)?;
        found.push(Device {
            node,
            on_host,
            cells,
        })?;
    }
    Ok(())
}

/// The devices among some nodes, in their order, each with the host's node that it stands for.
pub(crate) fn devices(
    alloc: Global,
    partial: &Tree,
    host: &PathIndex,
    nodes: &List<NodeId>,
) -> Result<Vec<Device>, AllocError>
    requires { All (λ node. node < length partial.now.places) nodes.now }
    ensures devices { IfOk result (λ found. map (device_of partial.now) found.items ≡ filter is_device (map (node_of partial.now) nodes.now)) }
    ensures are { IfOk result (λ found. AreDevices partial.now host.now found.items) }
{
    let mut found = Vec::new(alloc);
    let mut counts = BTreeMap::new(alloc);
    for node in nodes.as_slice() {
        add_device(partial, *node, host, &mut counts, &mut found)?;
    }
    Ok(found)
}

/// The item of a device. The facts that are read of its host's node are known from then on.
fn device_item(
    alloc: Global,
    partial: &Tree,
    host: &Tree,
    gic: Option<u32>,
    guest: u32,
    device: &Device,
    known: &mut Known,
) -> Result<Described, AllocError>
    requires device { IsDevice partial.now host.now device.now }
    requires gic { gic ≡ gic_phandle host.now.tree }
    requires known { AreKnown host.now known.old }
    ensures item { IfOk result (λ item. item ≡ device_item host.now.tree guest (device_of partial.now device.now)) }
    ensures known { OnOk result (AreKnown host.now known.new) }
{
    let facts = facts_once(host, gic, &device.on_host, known)?;
    let own = reason_at(partial, device.node, device.cells, facts);
    let path = path(alloc, partial, device.node)?;
    let item = item_in(alloc, Part::Device, guest, path.as_slice(), 0)?;
    Ok(described(item, own, What::Device))
}

/// Adds the items of devices.
pub(crate) fn add_devices(
    alloc: Global,
    partial: &Tree,
    host: &Tree,
    gic: Option<u32>,
    guest: u32,
    devices: &[Device],
    items: &mut List<Described>,
) -> Result<(), AllocError>
    requires devices { AreDevices partial.now host.now devices.now }
    requires gic { gic ≡ gic_phandle host.now.tree }
    ensures { OnOk result (items.new ≡ items.old ++ map (device_item host.now.tree guest) (map (device_of partial.now) devices.now)) }
{
    let mut known = Known::new(alloc);
    for device in devices {
        let item = device_item(alloc, partial, host, gic, guest, device, &mut known)?;
        items.push(item)?;
    }
    Ok(())
}
