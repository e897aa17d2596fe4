// The first reason against a device.
ghost use Rattle.std.specs.Prelude.{◌≡◌, ◌≤◌, ◌<◌, Option, length, not, option_map, IfSome};
ghost use Rattle.fdt_tree.specs.Tree.{Tree as Trees};
ghost use Rattle.fdt_nodes.specs.Nodes.{Node};
ghost use Rattle.passthrough_dtb.specs.PrivateFacts.{AreFacts};
ghost use Rattle.fdt_tree.specs.Document.{properties_of};
ghost use Rattle.fdt_nodes.specs.Held.{node_of};
ghost use Rattle.fdt_nodes.specs.Values.{passes};
ghost use Rattle.fdt_nodes.specs.Entries.{is_whole};
ghost use Rattle.passthrough_dtb.specs.Devices.{is_forced, lacks_path, is_path, has_bad_path, has_bad_cells, lacks_host, lacks_iommu, is_extended, is_no_list, has_bad_reg, has_bad_interrupts, has_bad_length, is_off_gic, reason_at};

use crate::facts::Facts;
use described::Why;
use fdt_nodes::{has, string_at};
use fdt_tree::{NodeId, Tree};

fn is_forced(tree: &Tree, device: NodeId) -> bool
    requires { device < length tree.now.places }
    ensures { result ≡ is_forced (properties_of tree.now device) }
{
    has(tree, device, b"xen,force-assign-without-iommu")
}

fn lacks_path(tree: &Tree, device: NodeId) -> bool
    requires { device < length tree.now.places }
    ensures { result ≡ lacks_path (properties_of tree.now device) }
{
    !has(tree, device, b"xen,path")
        && !(is_forced(tree, device)
            && !has(tree, device, b"interrupts")
            && !has(tree, device, b"interrupts-extended"))
}

fn is_path(text: Option<&[u8]>) -> bool
    ensures { result ≡ is_path (option_map (λ t. t.now) text.entry) }
{
    match text {
        None => false,
        Some([]) => false,
        Some([first, ..]) => *first == b'/',
    }
}

fn has_bad_path(tree: &Tree, device: NodeId) -> bool
    requires { device < length tree.now.places }
    ensures { result ≡ has_bad_path (properties_of tree.now device) }
{
    has(tree, device, b"xen,path") && !is_path(string_at(tree, device, b"xen,path"))
}

fn has_bad_cells(tree: &Tree, device: NodeId, cells: Option<(u32, u32)>) -> bool
    requires device { device < length tree.now.places }
    requires cells { (node_of tree.now device).cells ≡ cells }
    ensures { result ≡ has_bad_cells (node_of tree.now device) }
{
    has(tree, device, b"xen,reg") && cells.is_none()
}

fn lacks_host(tree: &Tree, device: NodeId, facts: Facts) -> bool
    requires device { device < length tree.now.places }
    ensures { (host : Trees) (found : Option Node) → AreFacts host found facts → result ≡ lacks_host (properties_of tree.now device) found }
{
    has(tree, device, b"xen,path") && !facts.is_there
}

fn lacks_iommu(tree: &Tree, device: NodeId, facts: Facts) -> bool
    requires device { device < length tree.now.places }
    ensures { (host : Trees) (found : Option Node) → AreFacts host found facts → result ≡ lacks_iommu (properties_of tree.now device) found }
{
    facts.is_there && !facts.has_iommus && !is_forced(tree, device)
}

fn is_extended(tree: &Tree, device: NodeId, facts: Facts) -> bool
    requires device { device < length tree.now.places }
    ensures { (host : Trees) (found : Option Node) → AreFacts host found facts → result ≡ is_extended (properties_of tree.now device) found }
{
    has(tree, device, b"interrupts-extended") || facts.is_extended
}

/// Whether a value of `xen,reg` is empty or no whole entries.
fn is_no_list(cells: (u32, u32), value: &[u8]) -> bool
    requires address { (1 ≤ cells.0) × (cells.0 ≤ 2) }
    requires size { (1 ≤ cells.1) × (cells.1 ≤ 2) }
    ensures { result ≡ is_no_list cells value.now }
{
    let size = 4 * (2 * cells.0 + cells.1) as usize;
    value.is_empty() || value.len() % size != 0
}

fn has_bad_reg(tree: &Tree, device: NodeId, cells: Option<(u32, u32)>) -> bool
    requires device { device < length tree.now.places }
    requires cells { (node_of tree.now device).cells ≡ cells }
    requires within { IfSome cells (λ counts. (1 ≤ counts.0) × (counts.0 ≤ 2) × (1 ≤ counts.1) × (counts.1 ≤ 2)) }
    ensures { result ≡ has_bad_reg (node_of tree.now device) }
{
    let Some(cells) = cells else {
        return false;
    };
    match tree.prop(device, b"xen,reg") {
        None => false,
        Some(value) => is_no_list(cells, value),
    }
}

/// Whether `interrupts` is there and no whole threes of cells.
pub(crate) fn has_bad_threes(value: Option<&[u8]>) -> bool
    ensures { result ≡ passes (λ v. not (is_whole 3 v)) (option_map (λ v. v.now) value.entry) }
{
    match value {
        None => false,
        Some(value) => value.len() % 12 != 0,
    }
}

fn has_bad_length(tree: &Tree, device: NodeId, cells: Option<(u32, u32)>, facts: Facts) -> bool
    requires device { device < length tree.now.places }
    requires cells { (node_of tree.now device).cells ≡ cells }
    requires within { IfSome cells (λ counts. (1 ≤ counts.0) × (counts.0 ≤ 2) × (1 ≤ counts.1) × (counts.1 ≤ 2)) }
    ensures { (host : Trees) (found : Option Node) → AreFacts host found facts → result ≡ has_bad_length (node_of tree.now device) found }
{
    has_bad_reg(tree, device, cells)
        || has_bad_threes(tree.prop(device, b"interrupts"))
        || facts.has_bad_interrupts
}

fn is_off_gic(tree: &Tree, device: NodeId, facts: Facts) -> bool
    requires device { device < length tree.now.places }
    ensures { (host : Trees) (found : Option Node) → AreFacts host found facts → result ≡ is_off_gic host (properties_of tree.now device) found }
{
    has(tree, device, b"interrupts") && !facts.is_on_gic
}

/// The first reason against a device whose ranges are counted in these cells, by the facts of the host's node that it
/// stands for.
pub(crate) fn reason_at(
    tree: &Tree,
    device: NodeId,
    cells: Option<(u32, u32)>,
    facts: Facts,
) -> Option<Why>
    requires device { device < length tree.now.places }
    requires cells { (node_of tree.now device).cells ≡ cells }
    requires within { IfSome cells (λ counts. (1 ≤ counts.0) × (counts.0 ≤ 2) × (1 ≤ counts.1) × (counts.1 ≤ 2)) }
    ensures { (host : Trees) (found : Option Node) → AreFacts host found facts → result ≡ reason_at host (node_of tree.now device) found }
{
    if lacks_path(tree, device) {
        return Some(Why::Missing);
    }
    if has_bad_path(tree, device) || has_bad_cells(tree, device, cells) {
        return Some(Why::BadValue);
    }
    if lacks_host(tree, device, facts) {
        return Some(Why::NoHostNode);
    }
    if lacks_iommu(tree, device, facts) {
        return Some(Why::NoIommu);
    }
    if is_extended(tree, device, facts) {
        return Some(Why::ExtendedInterrupts);
    }
    if has_bad_length(tree, device, cells, facts) {
        return Some(Why::BadLength);
    }
    if is_off_gic(tree, device, facts) {
        return Some(Why::NotGic);
    }
    None
}
