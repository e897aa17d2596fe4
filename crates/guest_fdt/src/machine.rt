// The nodes of a guest's machine.
ghost use Rattle.std.specs.Prelude.{◌≡◌, ◌<◌, ◌≤◌, ◌+◌, ◌^◌, ◌∷◌, [], length, OnOk, IfOk, IsTrue};
ghost use Rattle.fdt_tree.specs.Tree.{is_node_name};
ghost use Rattle.tree_parts.specs.Nodes.{trees_of, leaf, named_at};
ghost use Rattle.tree_parts.specs.Grown.{Grows};
ghost use Rattle.guest_fdt.specs.Machine.{cpu, psci, memory, interrupt_controller, timer, hypervisor, console, region, affinity};

use crate::nodes::add_leaf_at;
use fdt_tree::{NodeId, Tree};
use std::alloc::{AllocError, Global};
use texts::{BaseSize, Bytes};
use tree_parts::{Row, add_leaf};

/// Adds a vCPU.
#[tactic(auto, unfolding(crate::specs::Machine::cpu))]
pub(crate) fn add_cpu(
    alloc: Global,
    tree: &mut Tree,
    cpus: NodeId,
    number: u32,
) -> Result<(), AllocError>
    requires live { cpus < length tree.old.places }
    requires few { number < 128 }
    ensures { OnOk result (Grows tree.old tree.new cpus (trees_of (cpu number ∷ []))) }
{
    let affinity = 256 * (number / 16) + number % 16;
    let rows = [
        Row::Text(b"device_type", b"cpu"),
        Row::Text(b"compatible", b"arm,armv8"),
        Row::Text(b"enable-method", b"psci"),
        Row::Cells(b"reg", &[affinity]),
    ];
    add_leaf_at(alloc, tree, cpus, b"cpu", affinity as u64, &rows)
}

/// Adds how vCPUs are switched on and off.
#[tactic(auto, unfolding(crate::specs::Machine::psci))]
pub(crate) fn add_psci(alloc: Global, tree: &mut Tree, root: NodeId) -> Result<(), AllocError>
    requires { root < length tree.old.places }
    ensures { OnOk result (Grows tree.old tree.new root (trees_of (psci ∷ []))) }
{
    let rows = [
        Row::Text(b"compatible", b"arm,psci-1.0"),
        Row::Text(b"method", b"hvc"),
    ];
    add_leaf(alloc, tree, root, b"psci", &rows)
}

/// Adds memory.
#[tactic(auto, unfolding(crate::specs::Machine::memory))]
pub(crate) fn add_memory(
    alloc: Global,
    tree: &mut Tree,
    root: NodeId,
    page: u64,
    count: u64,
) -> Result<(), AllocError>
    requires live { root < length tree.old.places }
    requires low { page + count ≤ 2 ^ 28 }
    ensures { OnOk result (Grows tree.old tree.new root (trees_of (memory (page, count) ∷ []))) }
{
    let address = page * 4096;
    let rows = [
        Row::Text(b"device_type", b"memory"),
        Row::WideCells(b"reg", &[address, count * 4096]),
    ];
    add_leaf_at(alloc, tree, root, b"memory", address, &rows)
}

/// Adds the interrupt controller.
#[tactic(auto, unfolding(crate::specs::Machine::interrupt_controller))]
pub(crate) fn add_interrupt_controller(
    alloc: Global,
    tree: &mut Tree,
    root: NodeId,
    distributor: BaseSize,
    redistributors: BaseSize,
    gic: u32,
) -> Result<(), AllocError>
    requires { root < length tree.old.places }
    ensures { OnOk result (Grows tree.old tree.new root (trees_of (interrupt_controller distributor redistributors gic ∷ []))) }
{
    let rows = [
        Row::Text(b"compatible", b"arm,gic-v3"),
        Row::Cells(b"#interrupt-cells", &[3]),
        Row::Cells(b"#address-cells", &[0]),
        Row::Flag(b"interrupt-controller"),
        Row::WideCells(
            b"reg",
            &[
                distributor.base,
                distributor.size,
                redistributors.base,
                redistributors.size,
            ],
        ),
        Row::Cells(b"phandle", &[gic]),
    ];
    add_leaf_at(
        alloc,
        tree,
        root,
        b"interrupt-controller",
        distributor.base,
        &rows,
    )
}

/// Adds the timer.
#[tactic(auto, unfolding(crate::specs::Machine::timer))]
pub(crate) fn add_timer(alloc: Global, tree: &mut Tree, root: NodeId) -> Result<(), AllocError>
    requires { root < length tree.old.places }
    ensures { OnOk result (Grows tree.old tree.new root (trees_of (timer ∷ []))) }
{
    let rows = [
        Row::Text(b"compatible", b"arm,armv8-timer"),
        Row::Cells(b"interrupts", &[1, 13, 4, 1, 14, 4, 1, 11, 4]),
    ];
    add_leaf(alloc, tree, root, b"timer", &rows)
}

/// Adds Xen and its grant table.
#[tactic(auto, unfolding(crate::specs::Machine::hypervisor))]
pub(crate) fn add_hypervisor(
    alloc: Global,
    tree: &mut Tree,
    root: NodeId,
    grant: BaseSize,
) -> Result<(), AllocError>
    requires { root < length tree.old.places }
    ensures { OnOk result (Grows tree.old tree.new root (trees_of (hypervisor grant ∷ []))) }
{
    let rows = [
        Row::Text(b"compatible", b"xen,xen"),
        Row::WideCells(b"reg", &[grant.base, grant.size]),
    ];
    add_leaf_at(alloc, tree, root, b"hypervisor", grant.base, &rows)
}

/// Adds the console.
#[tactic(auto, unfolding(crate::specs::Machine::console))]
pub(crate) fn add_console(
    alloc: Global,
    tree: &mut Tree,
    root: NodeId,
    area: BaseSize,
) -> Result<(), AllocError>
    requires { root < length tree.old.places }
    ensures { OnOk result (Grows tree.old tree.new root (trees_of (console area ∷ []))) }
{
    let rows = [
        Row::Text(b"compatible", b"arm,sbsa-uart"),
        Row::WideCells(b"reg", &[area.base, area.size]),
        Row::Cells(b"interrupts", &[0, 0, 4]),
        Row::Cells(b"current-speed", &[115200]),
    ];
    add_leaf_at(alloc, tree, root, b"pl011", area.base, &rows)
}

/// Adds a region that is shared.
#[tactic(auto, unfolding(crate::specs::Machine::region))]
pub(crate) fn add_region(
    alloc: Global,
    tree: &mut Tree,
    parent: NodeId,
    id: &[u8],
    page: u64,
    count: u64,
) -> Result<(), AllocError>
    requires live { parent < length tree.old.places }
    requires low { page + count ≤ 2 ^ 28 }
    ensures { OnOk result (Grows tree.old tree.new parent (trees_of (region (id.now, page, count) ∷ []))) }
{
    let address = page * 4096;
    let rows = [
        Row::Text(b"compatible", b"xen,shared-memory-v1"),
        Row::WideCells(b"reg", &[address, count * 4096]),
        Row::Text(b"xen,id", id),
    ];
    add_leaf_at(alloc, tree, parent, b"xen-shmem", address, &rows)
}
