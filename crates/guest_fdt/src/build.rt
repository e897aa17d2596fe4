// The device tree of a guest.
ghost use Rattle.std.specs.Prelude.{◌≡◌, ◌<◌, ◌≤◌, ◌∷◌, [], length, option_map, OnOk, IfOk};
ghost use Rattle.std.specs.Option.{option_copied};
ghost use Rattle.guest_fdt.specs.Bounds.{IsBounded};
ghost use Rattle.guest_fdt.specs.Copies.{copies};
ghost use Rattle.tree_parts.specs.Grown.{Grows, with_more};
ghost use Rattle.guest_fdt.specs.GuestTree.{first_nodes, device_nodes, console_nodes, machine_nodes, guest_tree};
ghost use Rattle.guest_fdt.specs.Machine.{root_properties};
ghost use Rattle.tree_parts.specs.Nodes.{trees_of};

use crate::copies::add_copies;
use crate::machine::{add_console, add_hypervisor, add_interrupt_controller, add_psci, add_timer};
use crate::parts::{add_chosen, add_cpus, add_memories, add_ports, add_regions};
use described::Layout;
use domain_plan::GuestPlan;
use fdt_tree::{NodeId, Tree};
use std::alloc::{AllocError, Global};
use tree_parts::{Row, add_rows};

/// Gives the root its properties.
#[tactic(auto, unfolding(crate::specs::Machine::root_properties))]
fn add_root(alloc: Global, tree: &mut Tree, root: NodeId, gic: u32) -> Result<(), AllocError>
    requires { root < length tree.old.places }
    ensures { OnOk result (tree.new ≡ with_more tree.old root (root_properties gic)) }
{
    let rows = [
        Row::Cells(b"#address-cells", &[2]),
        Row::Cells(b"#size-cells", &[2]),
        Row::Text(b"compatible", b"xen,xenvm"),
        Row::Cells(b"interrupt-parent", &[gic]),
    ];
    add_rows(alloc, tree, root, &rows)
}

/// Adds what a guest starts with, and its vCPUs.
fn add_first(
    alloc: Global,
    tree: &mut Tree,
    root: NodeId,
    layout: &Layout,
    guest: &GuestPlan,
) -> Result<(), AllocError>
    requires live { root < length tree.old.places }
    requires bounded { IsBounded guest.now }
    ensures { OnOk result (Grows tree.old tree.new root (trees_of (first_nodes layout.now guest.now))) }
{
    add_chosen(
        alloc,
        tree,
        root,
        layout.console,
        guest.bootargs.as_ref(),
        guest.console,
    )?;
    add_cpus(alloc, tree, root, guest.cpus)?;
    add_psci(alloc, tree, root)
}

/// Adds the devices that every guest has.
fn add_devices(
    alloc: Global,
    tree: &mut Tree,
    root: NodeId,
    layout: &Layout,
    guest: &GuestPlan,
) -> Result<(), AllocError>
    requires { root < length tree.old.places }
    ensures { OnOk result (Grows tree.old tree.new root (trees_of (device_nodes layout.now guest.now))) }
{
    add_interrupt_controller(
        alloc,
        tree,
        root,
        layout.distributor,
        layout.redistributors,
        guest.gic,
    )?;
    add_timer(alloc, tree, root)?;
    add_hypervisor(alloc, tree, root, layout.grant)
}

/// Adds the console, where the guest has one.
fn add_wanted_console(
    alloc: Global,
    tree: &mut Tree,
    root: NodeId,
    layout: &Layout,
    guest: &GuestPlan,
) -> Result<(), AllocError>
    requires { root < length tree.old.places }
    ensures { OnOk result (Grows tree.old tree.new root (trees_of (console_nodes layout.now guest.now))) }
{
    if guest.console {
        add_console(alloc, tree, root, layout.console)
    } else {
        Ok(())
    }
}

/// Adds the machine of a guest.
fn add_machine(
    alloc: Global,
    tree: &mut Tree,
    root: NodeId,
    layout: &Layout,
    guest: &GuestPlan,
) -> Result<(), AllocError>
    requires live { root < length tree.old.places }
    requires bounded { IsBounded guest.now }
    ensures { OnOk result (Grows tree.old tree.new root (trees_of (machine_nodes layout.now guest.now))) }
{
    add_first(alloc, tree, root, layout, guest)?;
    add_memories(alloc, tree, root, guest.memories.as_slice())?;
    add_devices(alloc, tree, root, layout, guest)?;
    add_wanted_console(alloc, tree, root, layout, guest)?;
    add_regions(alloc, tree, root, guest.shared.as_slice())?;
    add_ports(alloc, tree, root, guest.ports.as_slice())
}

/// Adds what is copied from a guest's partial tree, if there is one.
fn add_partial(tree: &mut Tree, root: NodeId, partial: Option<&Tree>) -> Result<(), AllocError>
    requires { root < length tree.old.places }
    ensures { OnOk result (Grows tree.old tree.new root (trees_of (copies (option_map (λ d. d.tree) (option_copied partial.entry))))) }
{
    match partial {
        Some(partial) => add_copies(tree, root, partial),
        None => Ok(()),
    }
}

/// The device tree that a guest is given: its processors, memory, interrupt controller, timer, console, shared regions and
/// ports, where the plan's layout puts the devices, and what is copied from its partial tree, where it has one, without the properties that bind a device to the
/// host. The only error is want of memory.
pub fn build_tree(
    alloc: Global,
    guest: &GuestPlan,
    partial: Option<&Tree>,
) -> Result<Tree, AllocError>
    requires { IsBounded guest.now }
    ensures { IfOk result (λ tree. tree.tree ≡ guest_tree guest.now (option_map (λ d. d.tree) (option_copied partial.entry))) }
{
    let mut tree = Tree::new(alloc)?;
    let root = tree.root();
    add_root(alloc, &mut tree, root, guest.gic)?;
    add_machine(alloc, &mut tree, root, &guest.layout, guest)?;
    add_partial(&mut tree, root, partial)?;
    Ok(tree)
}
