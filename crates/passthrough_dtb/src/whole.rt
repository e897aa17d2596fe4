// The item of a partial tree as a whole.
ghost use Rattle.std.specs.Prelude.{◌≡◌, ◌<◌, ◌∷◌, ◌||◌, List, IfOk, length};
ghost use Rattle.fdt_nodes.specs.Nodes.{Node};
ghost use Rattle.fdt_nodes.specs.Held.{node_of};
ghost use Rattle.fdt_nodes.specs.Held.{Are};
ghost use Rattle.passthrough_dtb.specs.Gic.{guest_gic};
ghost use Rattle.passthrough_dtb.specs.Whole.{lacks_passthrough, has_bad_gic, has_memory_node, has_clash, is_repeated, passed_nodes, partial_reason, partial_item, properties_found};
ghost use Rattle.fdt_nodes.specs.Values.{is_memory as says_memory};

use crate::items::item_in;
use crate::seen::Phandles;
use described::{Described, Part, What, Why, described};
use fdt_nodes::{has_other_length, is_memory, u32_at};
use fdt_tree::{NodeId, Tree};
use std::alloc::{AllocError, Global};
use texts::List;

fn has_bad_gic(partial: &Tree) -> bool
    ensures { result ≡ has_bad_gic partial.now.tree }
{
    match partial.find(b"/gic") {
        None => false,
        Some(gic) => has_other_length(partial, gic, b"phandle", 4),
    }
}

/// Whether a path finds a memory node.
fn is_memory_at(partial: &Tree, path: &[u8]) -> bool
    ensures { result ≡ says_memory (properties_found partial.now.tree path.now) }
{
    match partial.find(path) {
        None => false,
        Some(node) => is_memory(partial, node),
    }
}

fn has_memory_node(partial: &Tree) -> bool
    ensures { result ≡ has_memory_node partial.now.tree }
{
    is_memory_at(partial, b"/passthrough")
        || is_memory_at(partial, b"/aliases")
        || is_memory_at(partial, b"/__symbols__")
}

/// Notes the phandle of a node; whether it was met before.
fn is_met(tree: &Tree, node: NodeId, met: &mut Phandles) -> Result<bool, AllocError>
    requires { node < length tree.now.places }
    ensures { (rest : List Node) → IfOk result (λ twice. is_repeated met.old (node_of tree.now node ∷ rest) ≡ (twice || is_repeated met.new rest)) }
{
    match u32_at(tree, node, b"phandle") {
        None => Ok(false),
        Some(phandle) => Ok(!met.add(phandle)?),
    }
}

/// Whether one of the passed nodes has the phandle of one before it, or of the guest's GIC.
fn has_clash(
    alloc: Global,
    partial: &Tree,
    gic: u32,
    passed: &List<NodeId>,
) -> Result<bool, AllocError>
    requires gic { gic ≡ guest_gic partial.now.tree }
    requires passed { Are partial.now (passed_nodes partial.now.tree) passed.now }
    ensures { IfOk result (λ clash. clash ≡ has_clash partial.now.tree) }
{
    let mut met = Phandles::new(alloc);
    met.add(gic)?;
    for node in passed.as_slice() {
        if is_met(partial, *node, &mut met)? {
            return Ok(true);
        }
    }
    Ok(false)
}

/// The first reason against a partial tree.
fn partial_reason(
    alloc: Global,
    partial: &Tree,
    gic: u32,
    passed: &List<NodeId>,
) -> Result<Option<Why>, AllocError>
    requires gic { gic ≡ guest_gic partial.now.tree }
    requires passed { Are partial.now (passed_nodes partial.now.tree) passed.now }
    ensures { IfOk result (λ why. why ≡ partial_reason partial.now.tree) }
{
    if partial.find(b"/passthrough").is_none() {
        return Ok(Some(Why::Missing));
    }
    if has_bad_gic(partial) {
        return Ok(Some(Why::BadLength));
    }
    if has_memory_node(partial) {
        return Ok(Some(Why::BadValue));
    }
    if has_clash(alloc, partial, gic, passed)? {
        return Ok(Some(Why::PhandleClash));
    }
    Ok(None)
}

/// The item of a partial tree.
pub(crate) fn partial_item(
    alloc: Global,
    partial: &Tree,
    gic: u32,
    guest: u32,
    passed: &List<NodeId>,
) -> Result<Described, AllocError>
    requires gic { gic ≡ guest_gic partial.now.tree }
    requires passed { Are partial.now (passed_nodes partial.now.tree) passed.now }
    ensures { IfOk result (λ item. item ≡ partial_item partial.now.tree guest) }
{
    let own = partial_reason(alloc, partial, gic, passed)?;
    let item = item_in(alloc, Part::Partial, guest, b"/", 0)?;
    Ok(described(item, own, What::Partial { gic }))
}
