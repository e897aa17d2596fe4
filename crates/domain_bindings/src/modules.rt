// Modules that a boot loader has loaded.
ghost use Rattle.std.specs.Prelude.{◌≡◌, ◌<◌, ◌≤◌, ◌++◌, ◌∷◌, [], ℕ, List, Option, All, IfOk, IfSome, OnOk, length, map, option_map};
ghost use Rattle.fdt_nodes.specs.Held.{node_of, Are};
ghost use Rattle.domain_bindings.specs.Modules.{are_alike, first_of_kind, host_module_items, kind_of, module_item, module_items, module_reason, place_of};
ghost use Rattle.domain_bindings.specs.PrivateFirsts.{AreFirsts};
ghost use Rattle.fdt_nodes.specs.Nodes.{Node};

use crate::reasons::is_too_high;
use described::{Described, ModuleKind, Part, What, Why, described};
use fdt_nodes::{has, is_compatible, item_of, region};
use fdt_tree::{NodeId, Tree};
use std::alloc::{AllocError, Global};
use texts::{BaseSize, List};

/// The kind of a module: the first of the three that it names.
pub(crate) fn kind_of(tree: &Tree, node: NodeId) -> ModuleKind
    requires { node < length tree.now.places }
    ensures { result ≡ kind_of (node_of tree.now node) }
{
    if is_compatible(tree, node, b"multiboot,kernel") {
        ModuleKind::Kernel
    } else if is_compatible(tree, node, b"multiboot,ramdisk") {
        ModuleKind::Ramdisk
    } else if is_compatible(tree, node, b"multiboot,device-tree") {
        ModuleKind::DeviceTree
    } else {
        ModuleKind::Other
    }
}

/// Whether two modules are of one of the three kinds.
fn are_alike(one: ModuleKind, other: ModuleKind) -> bool
    ensures { result ≡ are_alike one other }
{
    match one {
        ModuleKind::Kernel => matches!(other, ModuleKind::Kernel),
        ModuleKind::Ramdisk => matches!(other, ModuleKind::Ramdisk),
        ModuleKind::DeviceTree => matches!(other, ModuleKind::DeviceTree),
        ModuleKind::Other => false,
    }
}

/// Whether a kind is one of the three of which a guest has one module each.
fn is_one_of_three(kind: ModuleKind) -> bool
    ensures { result ≡ are_alike kind kind }
{
    !matches!(kind, ModuleKind::Other)
}

/// The first module of a kind.
pub(crate) fn first_of_kind(tree: &Tree, modules: &[NodeId], kind: ModuleKind) -> Option<NodeId>
    requires { All (λ n. n < length tree.now.places) modules.now }
    ensures live { IfSome result (λ n. n < length tree.now.places) }
    ensures cells { (counts : Option (ℕ × ℕ)) → All (λ n. (node_of tree.now n).cells ≡ counts) modules.now → IfSome result (λ n. (node_of tree.now n).cells ≡ counts) }
    ensures first { option_map (λ n. node_of tree.now n) result ≡ first_of_kind kind (map (λ n. node_of tree.now n) modules.now) }
{
    for node in modules {
        if are_alike(kind, kind_of(tree, *node)) {
            return Some(*node);
        }
    }
    None
}

/// Where a module lies: the one entry of its `reg`, if that is well formed.
pub(crate) fn place_of(tree: &Tree, node: NodeId, cells: Option<(u32, u32)>) -> Option<BaseSize>
    requires live { node < length tree.now.places }
    requires cells { (node_of tree.now node).cells ≡ cells }
    requires within { IfSome cells (λ counts. (1 ≤ counts.0) × (counts.0 ≤ 2) × (1 ≤ counts.1) × (counts.1 ≤ 2)) }
    ensures { result ≡ place_of (node_of tree.now node) }
{
    let Some(cells) = cells else {
        return None;
    };
    let Some(value) = tree.prop(node, b"reg") else {
        return None;
    };
    if value.len() != 4 * (cells.0 + cells.1) as usize {
        return None;
    }
    Some(region(value, cells))
}

/// The first own reason of a module after some others.
fn module_reason(
    alloc: Global,
    tree: &Tree,
    earlier: &[NodeId],
    node: NodeId,
    cells: Option<(u32, u32)>,
) -> Result<Option<Why>, AllocError>
    requires live { node < length tree.now.places }
    requires cells { (node_of tree.now node).cells ≡ cells }
    requires within { IfSome cells (λ counts. (1 ≤ counts.0) × (counts.0 ≤ 2) × (1 ≤ counts.1) × (counts.1 ≤ 2)) }
    requires lives { All (λ n. n < length tree.now.places) earlier.now }
    ensures { IfOk result (λ why. why ≡ module_reason (map (λ n. node_of tree.now n) earlier.now) (node_of tree.now node)) }
{
    if cells.is_none() {
        return Ok(Some(Why::BadValue));
    }
    if !has(tree, node, b"reg") {
        return Ok(Some(Why::Missing));
    }
    let Some(place) = place_of(tree, node, cells) else {
        return Ok(Some(Why::BadLength));
    };
    if let Some(first) = first_of_kind(tree, earlier, kind_of(tree, node)) {
        let item = item_of(alloc, tree, Part::Module, first, 0)?;
        return Ok(Some(Why::Twice(item)));
    }
    if is_too_high(place) {
        return Ok(Some(Why::TooHigh));
    }
    Ok(None)
}

/// A module after some others.
fn module_item(
    alloc: Global,
    tree: &Tree,
    earlier: &[NodeId],
    node: NodeId,
    cells: Option<(u32, u32)>,
) -> Result<Described, AllocError>
    requires live { node < length tree.now.places }
    requires cells { (node_of tree.now node).cells ≡ cells }
    requires within { IfSome cells (λ counts. (1 ≤ counts.0) × (counts.0 ≤ 2) × (1 ≤ counts.1) × (counts.1 ≤ 2)) }
    requires lives { All (λ n. n < length tree.now.places) earlier.now }
    ensures { IfOk result (λ item. item ≡ module_item (map (λ n. node_of tree.now n) earlier.now) (node_of tree.now node)) }
{
    let own = module_reason(alloc, tree, earlier, node, cells)?;
    let at = place_of(tree, node, cells).unwrap_or(BaseSize { base: 0, size: 0 });
    let kind = kind_of(tree, node);
    let item = item_of(alloc, tree, Part::Module, node, 0)?;
    Ok(described(item, own, What::Module { kind, at }))
}

/// Notes a module, where it is the first of one of the three kinds.
fn note_kind(tree: &Tree, node: NodeId, firsts: &mut Vec<NodeId>) -> Result<(), AllocError>
    requires live { node < length tree.now.places }
    requires lives { All (λ n. n < length tree.now.places) firsts.old.items }
    ensures firsts { (earlier : List Node) → AreFirsts tree.now earlier firsts.old.items → OnOk result (AreFirsts tree.now (earlier ++ node_of tree.now node ∷ []) firsts.new.items) }
    ensures lives { OnOk result (All (λ n. n < length tree.now.places) firsts.new.items) }
{
    let kind = kind_of(tree, node);
    if is_one_of_three(kind) && first_of_kind(tree, firsts, kind).is_none() {
        firsts.push(node)?;
    }
    Ok(())
}

/// Adds the modules of a guest. After want of memory what was added is no matter.
pub(crate) fn append_modules(
    alloc: Global,
    tree: &Tree,
    modules: &[NodeId],
    cells: Option<(u32, u32)>,
    items: &mut List<Described>,
) -> Result<(), AllocError>
    requires live { All (λ n. n < length tree.now.places) modules.now }
    requires cells { All (λ n. (node_of tree.now n).cells ≡ cells) modules.now }
    requires within { IfSome cells (λ counts. (1 ≤ counts.0) × (counts.0 ≤ 2) × (1 ≤ counts.1) × (counts.1 ≤ 2)) }
    ensures { OnOk result (items.new ≡ items.old ++ module_items [] (map (λ n. node_of tree.now n) modules.now)) }
{
    let mut firsts = Vec::new(alloc);
    for node in modules {
        let item = module_item(alloc, tree, &firsts, *node, cells)?;
        items.push(item)?;
        note_kind(tree, *node, &mut firsts)?;
    }
    Ok(())
}

/// The modules of dom0.
pub(crate) fn host_modules(
    alloc: Global,
    tree: &Tree,
    modules: &[NodeId],
    cells: Option<(u32, u32)>,
) -> Result<List<Described>, AllocError>
    requires live { All (λ n. n < length tree.now.places) modules.now }
    requires cells { All (λ n. (node_of tree.now n).cells ≡ cells) modules.now }
    requires within { IfSome cells (λ counts. (1 ≤ counts.0) × (counts.0 ≤ 2) × (1 ≤ counts.1) × (counts.1 ≤ 2)) }
    ensures { IfOk result (λ items. items ≡ host_module_items (map (λ n. node_of tree.now n) modules.now)) }
{
    let mut items = List::new(alloc);
    for node in modules {
        let item = module_item(alloc, tree, &[], *node, cells)?;
        items.push(item)?;
    }
    Ok(items)
}
