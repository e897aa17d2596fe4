// The items of the host.
ghost use Rattle.std.specs.Prelude.{◌≡◌, ◌<◌, ◌≤◌, ◌++◌, ◌∷◌, [], All, OnOk, IfOk, IfSome, length, map, option_map};
ghost use Rattle.fdt_nodes.specs.Held.{node_of, Are};
ghost use Rattle.fdt_nodes.specs.Controllers.{gic_of};
ghost use Rattle.domain_bindings.specs.Hosts.{dom0_items, have_one_phandle, host_item, host_items, host_reason, items_behind, memory_nodes, ram_regions};
ghost use Rattle.domain_bindings.specs.HostDevices.{areas_of, console_of, HasUsableDevices};
ghost use Rattle.domain_bindings.specs.Ram.{IsRam};
ghost use Rattle.described.specs.Sound.{AreSound};
ghost use Rattle.frame_alloc.specs.Frames.{AreFrameRanges};

use crate::host_devices::{areas_of, console_of};
use crate::memory::{append_memory, append_reserved, append_reserves};
use crate::modules::host_modules;
use crate::ram::ram_of;
use crate::roles::{Role, found_with, siblings_with};
use described::{Described, Part, What, Why, described};
use fdt_nodes::{gic, item_of};
use fdt_tree::{NodeId, PhandleFault, Reserve, Tree, phandles};
use std::alloc::{AllocError, Global};
use texts::{BaseSize, FrameRange, List};

/// What a tree describes of the host: its memory and what is reserved, the modules of dom0, its memory as sorted ranges
/// that are apart and do not touch, its interrupt controller, and where this and its console stand.
#[derive(Debug, Drop)]
pub struct Host {
    pub items: List<Described>,
    pub modules: List<Described>,
    pub ram: List<FrameRange>,
    pub gic: Option<NodeId>,
    /// The distributor and the redistributors of the interrupt controller: the address and the size of each, in bytes.
    pub areas: Option<((u64, u64), (u64, u64))>,
    /// The address of the console's registers, in bytes.
    pub console: Option<u64>,
}

/// Whether two nodes have one phandle.
fn have_one_phandle(alloc: Global, tree: &Tree) -> Result<bool, AllocError>
    ensures { IfOk result (λ clash. clash ≡ have_one_phandle tree.now.tree) }
{
    match phandles(alloc, tree) {
        Ok(_) => Ok(false),
        Err(PhandleFault::Twice(_)) => Ok(true),
        Err(PhandleFault::Memory) => Err(AllocError),
    }
}

/// The first own reason of the host.
fn host_reason(alloc: Global, tree: &Tree, memory: &[NodeId]) -> Result<Option<Why>, AllocError>
    requires { Are tree.now (memory_nodes tree.now.tree) memory.now }
    ensures { IfOk result (λ why. why ≡ host_reason tree.now.tree) }
{
    if memory.is_empty() {
        return Ok(Some(Why::Missing));
    }
    if have_one_phandle(alloc, tree)? {
        return Ok(Some(Why::PhandleClash));
    }
    Ok(None)
}

/// The host itself.
fn host_item(alloc: Global, tree: &Tree, memory: &[NodeId]) -> Result<Described, AllocError>
    requires { Are tree.now (memory_nodes tree.now.tree) memory.now }
    ensures { IfOk result (λ item. item ≡ host_item tree.now.tree) }
{
    let own = host_reason(alloc, tree, memory)?;
    let item = item_of(alloc, tree, Part::Host, tree.root(), 0)?;
    Ok(described(item, own, What::Host))
}

/// Adds all items of the host behind its own. After want of memory what was added is no matter.
fn append_host_items(
    alloc: Global,
    tree: &Tree,
    reserves: &[Reserve],
    memory: &[NodeId],
    cells: Option<(u32, u32)>,
    items: &mut List<Described>,
    regions: &mut Vec<BaseSize>,
) -> Result<(), AllocError>
    requires memory { Are tree.now (memory_nodes tree.now.tree) memory.now }
    requires cells { All (λ n. (node_of tree.now n).cells ≡ cells) memory.now }
    requires within { IfSome cells (λ counts. (1 ≤ counts.0) × (counts.0 ≤ 2) × (1 ≤ counts.1) × (counts.1 ≤ 2)) }
    requires none { regions.old.items ≡ [] }
    ensures items { OnOk result (items.new ≡ items.old ++ items_behind tree.now.tree reserves.now) }
    ensures regions { OnOk result (regions.new.items ≡ ram_regions tree.now.tree) }
{
    append_memory(alloc, tree, memory, cells, items, regions)?;
    let reserved = found_with(alloc, tree, b"/reserved-memory", Role::Reserved)?;
    append_reserved(
        alloc,
        tree,
        reserved.nodes.as_slice(),
        reserved.cells,
        items,
    )?;
    append_reserves(alloc, reserves, items)?;
    Ok(())
}

/// The modules of dom0.
fn dom0_items(alloc: Global, tree: &Tree) -> Result<List<Described>, AllocError>
    ensures { IfOk result (λ items. items ≡ dom0_items tree.now.tree) }
{
    let modules = found_with(alloc, tree, b"/chosen", Role::Module)?;
    let items = host_modules(alloc, tree, modules.nodes.as_slice(), modules.cells)?;
    Ok(items)
}

/// The items of the host, each with its first own reason; the other fields are read whatever the items' reasons are.
pub fn read_host(alloc: Global, tree: &Tree, reserves: &[Reserve]) -> Result<Host, AllocError>
    ensures items { IfOk result (λ host. host.items ≡ host_items tree.now.tree reserves.now) }
    ensures modules { IfOk result (λ host. host.modules ≡ dom0_items tree.now.tree) }
    ensures sound { IfOk result (λ host. AreSound host.items) }
    ensures sound_modules { IfOk result (λ host. AreSound host.modules) }
    ensures ram { IfOk result (λ host. IsRam (ram_regions tree.now.tree) host.ram) }
    ensures apart { IfOk result (λ host. AreFrameRanges host.ram) }
    ensures gic { IfOk result (λ host. option_map (λ node. node_of tree.now node) host.gic ≡ gic_of tree.now.tree) }
    ensures live { IfOk result (λ host. IfSome host.gic (λ node. node < length tree.now.places)) }
    ensures areas { IfOk result (λ host. host.areas ≡ areas_of tree.now.tree) }
    ensures console { IfOk result (λ host. host.console ≡ console_of tree.now.tree) }
    ensures usable { IfOk result HasUsableDevices }
{
    let memory = siblings_with(alloc, tree, tree.root(), Role::Memory)?;
    let mut items = List::new(alloc);
    let first = host_item(alloc, tree, memory.nodes.as_slice())?;
    items.push(first)?;
    let mut regions = Vec::new(alloc);
    append_host_items(
        alloc,
        tree,
        reserves,
        memory.nodes.as_slice(),
        memory.cells,
        &mut items,
        &mut regions,
    )?;
    let ram = ram_of(alloc, regions.as_slice())?;
    let modules = dom0_items(alloc, tree)?;
    let gic = gic(alloc, tree)?;
    let areas = areas_of(alloc, tree, &gic)?;
    let console = console_of(alloc, tree)?;
    Ok(Host {
        items,
        modules,
        ram,
        gic,
        areas,
        console,
    })
}
