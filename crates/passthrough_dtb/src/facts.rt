// What a host's node says to the devices that stand for it.
ghost use Rattle.std.specs.Prelude.{◌≡◌, ◌<◌, Some, length, option_map, IfOk, OnOk};
ghost use Rattle.std.specs.Option.{ForSome};
ghost use Rattle.fdt_nodes.specs.Controllers.{gic_phandle};
ghost use Rattle.fdt_nodes.specs.Held.{node_of};
ghost use Rattle.passthrough_dtb.specs.PrivateFacts.{AreFacts, AreKnown, AreOnGic};
ghost use Rattle.fdt_tree.specs.Document.{Document};

use crate::device::has_bad_threes;
use crate::gic::is_on_gic;
use fdt_nodes::has;
use fdt_tree::{NodeId, Tree};
use std::alloc::{AllocError, Global};
use std::collections::BTreeMap;

/// What a host's node says to a device that stands for it.
#[derive(Clone, Copy, Drop)]
pub(crate) struct Facts {
    /// There is such a node.
    pub(crate) is_there: bool,
    /// It is behind an IOMMU.
    pub(crate) has_iommus: bool,
    /// It has interrupts in the extended form.
    pub(crate) is_extended: bool,
    /// Its interrupts are no whole threes of cells.
    pub(crate) has_bad_interrupts: bool,
    /// Its interrupts go to the host's GIC.
    pub(crate) is_on_gic: bool,
}

// What is said where there is no such node.
const NO_NODE: Facts = Facts {
    is_there: false,
    has_iommus: false,
    is_extended: false,
    has_bad_interrupts: false,
    is_on_gic: false,
};

/// What is known of the host's nodes.
#[derive(Drop)]
pub(crate) struct Known {
    facts: BTreeMap<NodeId, Facts>,
    // Whether a node's interrupts go to the host's GIC.
    on_gic: BTreeMap<NodeId, bool>,
}

impl Known {
    /// Nothing. Takes no memory.
    pub(crate) fn new(alloc: Global) -> Known
        ensures { (host : Document) → AreKnown host result }
    {
        Known {
            facts: BTreeMap::new(alloc),
            on_gic: BTreeMap::new(alloc),
        }
    }
}

/// Reads the facts of a node, where `gic` is the phandle of the host's GIC.
fn facts_of(
    host: &Tree,
    gic: Option<u32>,
    node: NodeId,
    on_gic: &mut BTreeMap<NodeId, bool>,
) -> Result<Facts, AllocError>
    requires live { node < length host.now.places }
    requires gic { gic ≡ gic_phandle host.now.tree }
    requires on_gic { AreOnGic host.now on_gic.old }
    ensures facts { IfOk result (λ facts. AreFacts host.now.tree (Some (node_of host.now node)) facts) }
    ensures on_gic { OnOk result (AreOnGic host.now on_gic.new) }
{
    Ok(Facts {
        is_there: true,
        has_iommus: has(host, node, b"iommus"),
        is_extended: has(host, node, b"interrupts-extended"),
        has_bad_interrupts: has_bad_threes(host.prop(node, b"interrupts")),
        is_on_gic: is_on_gic(host, gic, node, on_gic)?,
    })
}

/// The facts of the host's node that a device stands for. They are read once, however many devices name the node.
pub(crate) fn facts_once(
    host: &Tree,
    gic: Option<u32>,
    found: &Option<NodeId>,
    known: &mut Known,
) -> Result<Facts, AllocError>
    requires found { ForSome found.now (λ node. node < length host.now.places) }
    requires gic { gic ≡ gic_phandle host.now.tree }
    requires known { AreKnown host.now known.old }
    ensures facts { IfOk result (λ facts. AreFacts host.now.tree (option_map (node_of host.now) found.now) facts) }
    ensures known { OnOk result (AreKnown host.now known.new) }
{
    let Some(node) = *found else {
        return Ok(NO_NODE);
    };
    if let Some(facts) = known.facts.get(&node) {
        return Ok(*facts);
    }
    let facts = facts_of(host, gic, node, &mut known.on_gic)?;
    known.facts.insert(node, facts)?;
    Ok(facts)
}
