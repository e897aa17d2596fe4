// The parts of a guest's machine: nodes with children, and lists of nodes.
ghost use Rattle.std.specs.Prelude.{◌≡◌, ◌<◌, ◌≤◌, ◌+◌, ◌^◌, ◌∷◌, ◌++◌, [], ℕ, List, length, map, codes, OnOk, IfOk, IsTrue, All, flat_map};
ghost use Rattle.std.specs.Option.{option_copied};
ghost use Rattle.tree_parts.specs.Nodes.{trees_of, on, on_some, on_any, text};
ghost use Rattle.tree_parts.specs.Grown.{Grows, with_more};
ghost use Rattle.guest_fdt.specs.Machine.{chosen, cpus, psci, memory, interrupt_controller, timer, hypervisor, console, console_name, reserved_memory, static_ports, port_cells};
ghost use Rattle.guest_fdt.specs.GuestTree.{first_nodes, device_nodes};

use crate::machine::{
    add_console, add_cpu, add_hypervisor, add_interrupt_controller, add_memory, add_psci,
    add_region, add_timer,
};
use crate::nodes::name_at;
use fdt_tree::{NodeId, Tree};
use std::alloc::{AllocError, Global};
use texts::{BaseSize, Bytes};
use tree_parts::{Row, add_empty, add_leaf, add_open, add_rows};

/// Gives a node the command line, if there is one.
fn add_bootargs(
    alloc: Global,
    tree: &mut Tree,
    node: NodeId,
    bootargs: Option<&Bytes>,
) -> Result<(), AllocError>
    requires { node < length tree.old.places }
    ensures { OnOk result (tree.new ≡ with_more tree.old node (on_some (option_copied bootargs.entry) (λ bytes. (codes "bootargs", bytes) ∷ []))) }
{
    match bootargs {
        Some(bytes) => add_rows(
            alloc,
            tree,
            node,
            &[Row::Bytes(b"bootargs", bytes.as_slice())],
        ),
        None => Ok(()),
    }
}

/// The path of the console.
fn console_path(alloc: Global, area: BaseSize) -> Result<Bytes, AllocError>
    ensures { IfOk result (λ path. path ≡ codes "/" ++ console_name area) }
{
    let mut path = Bytes::new(alloc);
    path.append(b"/")?;
    path.append(name_at(alloc, b"pl011", area.base)?.as_slice())?;
    Ok(path)
}

/// Gives a node the path of the console, if there is one.
fn add_output(
    alloc: Global,
    tree: &mut Tree,
    node: NodeId,
    area: BaseSize,
    console: bool,
) -> Result<(), AllocError>
    requires { node < length tree.old.places }
    ensures { OnOk result (tree.new ≡ with_more tree.old node (on console (text (codes "stdout-path") (codes "/" ++ console_name area) ∷ []))) }
{
    if console {
        let path = console_path(alloc, area)?;
        add_rows(
            alloc,
            tree,
            node,
            &[Row::Text(b"stdout-path", path.as_slice())],
        )
    } else {
        Ok(())
    }
}

/// Adds what the guest starts with.
pub(crate) fn add_chosen(
    alloc: Global,
    tree: &mut Tree,
    root: NodeId,
    area: BaseSize,
    bootargs: Option<&Bytes>,
    console: bool,
) -> Result<(), AllocError>
    requires { root < length tree.old.places }
    ensures { OnOk result (Grows tree.old tree.new root (trees_of (chosen area (option_copied bootargs.entry) console ∷ []))) }
{
    tree.numbering();
    let node = add_empty(tree, root, b"chosen")?;
    add_bootargs(alloc, tree, node, bootargs)?;
    add_output(alloc, tree, node, area, console)?;
    Ok(())
}

/// Adds so many vCPUs.
pub(crate) fn add_cpus(
    alloc: Global,
    tree: &mut Tree,
    root: NodeId,
    count: u32,
) -> Result<(), AllocError>
    requires live { root < length tree.old.places }
    requires few { count ≤ 128 }
    ensures { OnOk result (Grows tree.old tree.new root (trees_of (cpus count ∷ []))) }
{
    tree.numbering();
    let rows = [
        Row::Cells(b"#address-cells", &[1]),
        Row::Cells(b"#size-cells", &[0]),
    ];
    let cpus = add_open(alloc, tree, root, b"cpus", &rows)?;
    for number in 0..count {
        add_cpu(alloc, tree, cpus, number)?;
    }
    Ok(())
}

/// Adds a guest's memory.
pub(crate) fn add_memories(
    alloc: Global,
    tree: &mut Tree,
    root: NodeId,
    memories: &[(u64, u64)],
) -> Result<(), AllocError>
    requires live { root < length tree.old.places }
    requires low { All (λ (page, count). page + count ≤ 2 ^ 28) memories.now }
    ensures { OnOk result (Grows tree.old tree.new root (trees_of (map memory memories.now))) }
{
    for (page, count) in memories {
        add_memory(alloc, tree, root, *page, *count)?;
    }
    Ok(())
}

/// Adds the regions that a guest shares.
fn add_reserved(
    alloc: Global,
    tree: &mut Tree,
    root: NodeId,
    shared: &[(Bytes, u64, u64)],
) -> Result<(), AllocError>
    requires live { root < length tree.old.places }
    requires low { All (λ (id, page, count). page + count ≤ 2 ^ 28) shared.now }
    ensures { OnOk result (Grows tree.old tree.new root (trees_of (reserved_memory shared.now ∷ []))) }
{
    tree.numbering();
    let rows = [
        Row::Cells(b"#address-cells", &[2]),
        Row::Cells(b"#size-cells", &[2]),
        Row::Flag(b"ranges"),
    ];
    let parent = add_open(alloc, tree, root, b"reserved-memory", &rows)?;
    for (id, page, count) in shared {
        add_region(alloc, tree, parent, id.as_slice(), *page, *count)?;
    }
    Ok(())
}

/// Adds the regions that a guest shares, if there are some.
pub(crate) fn add_regions(
    alloc: Global,
    tree: &mut Tree,
    root: NodeId,
    shared: &[(Bytes, u64, u64)],
) -> Result<(), AllocError>
    requires live { root < length tree.old.places }
    requires low { All (λ (id, page, count). page + count ≤ 2 ^ 28) shared.now }
    ensures { OnOk result (Grows tree.old tree.new root (trees_of (on_any shared.now (reserved_memory shared.now ∷ [])))) }
{
    if shared.is_empty() {
        Ok(())
    } else {
        add_reserved(alloc, tree, root, shared)
    }
}

/// The cells of ports.
fn cells_of_ports(alloc: Global, ports: &[(u32, u64, u32)]) -> Result<Vec<u32>, AllocError>
    requires { All (λ (port, peer, peer_port). peer < 2 ^ 32) ports.now }
    ensures { IfOk result (λ cells. cells.items ≡ flat_map port_cells ports.now) }
{
    let mut cells = Vec::new(alloc);
    for (port, peer, peer_port) in ports {
        cells.extend_from_slice(&[*port, *peer as u32, *peer_port])?;
    }
    Ok(cells)
}

/// Adds a guest's ports.
#[tactic(auto, unfolding(crate::specs::Machine::static_ports))]
fn add_static_ports(
    alloc: Global,
    tree: &mut Tree,
    root: NodeId,
    ports: &[(u32, u64, u32)],
) -> Result<(), AllocError>
    requires live { root < length tree.old.places }
    requires peers { All (λ (port, peer, peer_port). peer < 2 ^ 32) ports.now }
    ensures { OnOk result (Grows tree.old tree.new root (trees_of (static_ports ports.now ∷ []))) }
{
    let cells = cells_of_ports(alloc, ports)?;
    let rows = [
        Row::Text(b"compatible", b"dom0less,static-ports"),
        Row::Cells(b"ports", cells.as_slice()),
    ];
    add_leaf(alloc, tree, root, b"static-ports", &rows)
}

/// Adds a guest's ports, if there are some.
pub(crate) fn add_ports(
    alloc: Global,
    tree: &mut Tree,
    root: NodeId,
    ports: &[(u32, u64, u32)],
) -> Result<(), AllocError>
    requires live { root < length tree.old.places }
    requires peers { All (λ (port, peer, peer_port). peer < 2 ^ 32) ports.now }
    ensures { OnOk result (Grows tree.old tree.new root (trees_of (on_any ports.now (static_ports ports.now ∷ [])))) }
{
    if ports.is_empty() {
        Ok(())
    } else {
        add_static_ports(alloc, tree, root, ports)
    }
}
