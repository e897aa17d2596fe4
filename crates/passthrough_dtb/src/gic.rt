// Interrupt controllers.
ghost use Rattle.std.specs.Prelude.{◌≡◌, ◌<◌, length, IfOk, OnOk};
ghost use Rattle.fdt_tree.specs.Tree.{cell};
ghost use Rattle.fdt_nodes.specs.Held.{node_of};
ghost use Rattle.fdt_nodes.specs.Controllers.{gic_phandle};
ghost use Rattle.passthrough_dtb.specs.Gic.{are_one, is_on_gic, guest_gic};
ghost use Rattle.passthrough_dtb.specs.PrivateFacts.{AreOnGic};

use fdt_nodes::{gic, u32_at};
use fdt_tree::{NodeId, Tree, u32_of};
use std::alloc::{AllocError, Global};
use std::collections::BTreeMap;

// The phandle of the guest's GIC where its partial tree has none.
const GUEST_GIC: u32 = 65_000;

/// The phandle of the guest's GIC: that of the partial tree's `/gic`, else 65000.
pub(crate) fn guest_gic(partial: &Tree) -> u32
    ensures { result ≡ guest_gic partial.now.tree }
{
    match partial.find(b"/gic") {
        None => GUEST_GIC,
        Some(gic) => match u32_at(partial, gic, b"phandle") {
            None => GUEST_GIC,
            Some(phandle) => phandle,
        },
    }
}

/// The phandle of the host's GIC, where there is one of four bytes.
pub(crate) fn host_gic(alloc: Global, host: &Tree) -> Result<Option<u32>, AllocError>
    ensures { IfOk result (λ phandle. phandle ≡ gic_phandle host.now.tree) }
{
    match gic(alloc, host)? {
        None => Ok(None),
        Some(node) => Ok(u32_at(host, node, b"phandle")),
    }
}

/// Whether a value of `interrupt-parent` is the phandle of this GIC.
fn is_phandle(value: &[u8], gic: Option<u32>) -> bool
    ensures { result ≡ are_one gic (cell value.now) }
{
    let Some(gic) = gic else {
        return false;
    };
    match u32_of(value) {
        Ok(phandle) => phandle == gic,
        Err(_) => false,
    }
}

/// Whether the interrupts of a host's node go to the GIC of this phandle: by the node's own `interrupt-parent`, or by the
/// nearest above it. Each node on the way is read once, however often it is come by.
pub(crate) fn is_on_gic(
    host: &Tree,
    gic: Option<u32>,
    node: NodeId,
    known: &mut BTreeMap<NodeId, bool>,
) -> Result<bool, AllocError>
    requires live { node < length host.now.places }
    requires gic { gic ≡ gic_phandle host.now.tree }
    requires known { AreOnGic host.now known.old }
    ensures is { IfOk result (λ is. is ≡ is_on_gic host.now.tree (node_of host.now node)) }
    ensures known { OnOk result (AreOnGic host.now known.new) }
{
    if let Some(is) = known.get(&node) {
        return Ok(*is);
    }
    let is = match host.prop(node, b"interrupt-parent") {
        Some(value) => is_phandle(value, gic),
        None => match host.parent(node) {
            None => false,
            Some(above) => is_on_gic(host, gic, above, known)?,
        },
    };
    known.insert(node, is)?;
    Ok(is)
}
