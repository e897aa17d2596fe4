// Commands of what guests share: memory regions and event channels.
ghost use Rattle.std.specs.Prelude.{◌≡◌, ◌≤◌, ◌+◌, ◌++◌, ◌∷◌, [], OnOk, codes, length};
ghost use Rattle.std.specs.List.{flat_map, enumerate_from};
ghost use Rattle.ib_script.specs.Guests.{shared_commands, channel_commands, port_commands};
ghost use Rattle.ib_script.specs.Phandles.{groups_before};
ghost use Rattle.ib_script.specs.Properties.{cells};

use crate::command::Command;
use crate::names::{below, numbered};
use crate::phandles::peer_phandle;
use crate::properties::{put_cell, put_cells, put_node, put_wide, put_word};
use ib_config::{Config, PortGroup, ShmGroup};
use std::alloc::{AllocError, Global};
use texts::List;

/// Adds the commands of a region that a guest shares, the `number`-th.
fn put_region(
    alloc: Global,
    out: &mut List<Command>,
    path: &str,
    number: usize,
    group: &ShmGroup,
) -> Result<(), AllocError>
    ensures { OnOk result (out.new ≡ out.old ++ shared_commands path.now (number, group.now)) }
{
    let region = numbered(alloc, "shm", number as u64)?;
    let name = region.as_str();
    let child = below(alloc, path, name)?;
    let node = child.as_str();
    let id = group.id.as_str();
    put_node(alloc, out, path, name)?;
    put_word(
        alloc,
        out,
        node,
        "compatible",
        "xen,domain-shared-memory-v1",
    )?;
    put_word(alloc, out, node, "xen,shm-id", id)?;
    let reach = [group.host, group.guest, group.size];
    put_wide(alloc, out, node, "xen,shared-mem", &reach)?;
    Ok(())
}

/// Adds the commands of the regions that a guest shares.
pub(crate) fn put_regions(
    alloc: Global,
    out: &mut List<Command>,
    path: &str,
    groups: &[ShmGroup],
) -> Result<(), AllocError>
    ensures { OnOk result (out.new ≡ out.old ++ flat_map (shared_commands path.now) (enumerate_from 0 groups.now)) }
{
    for (number, group) in groups.iter().enumerate() {
        put_region(alloc, out, path, number, group)?;
    }
    Ok(())
}

/// Adds the command of both ends of an event channel: the port, and the phandle of the peer's end.
fn put_ends(
    alloc: Global,
    out: &mut List<Command>,
    node: &str,
    port: u32,
    peer: u32,
) -> Result<(), AllocError>
    ensures { OnOk result (out.new ≡ out.old ++ Command.Set node.now (codes "xen,evtchn") (cells (port ∷ peer ∷ [])) ∷ []) }
{
    let mut numbers = List::new(alloc);
    numbers.push(port)?;
    numbers.push(peer)?;
    put_cells(alloc, out, node, "xen,evtchn", numbers)?;
    Ok(())
}

/// Adds the commands of an event channel of a guest, the `number`-th, by its phandle, its port and the peer's phandle.
fn put_channel(
    alloc: Global,
    out: &mut List<Command>,
    path: &str,
    number: usize,
    phandle: u32,
    port: u32,
    peer: u32,
) -> Result<(), AllocError>
    ensures { OnOk result (out.new ≡ out.old ++ channel_commands path.now number phandle port peer) }
{
    let channel = numbered(alloc, "evtchn", number as u64)?;
    let name = channel.as_str();
    let child = below(alloc, path, name)?;
    let node = child.as_str();
    put_node(alloc, out, path, name)?;
    put_word(alloc, out, node, "compatible", "xen,evtchn-v1")?;
    put_cell(alloc, out, node, "phandle", phandle)?;
    put_ends(alloc, out, node, port, peer)?;
    Ok(())
}

/// Adds the commands of the port groups of a guest, of which the first has the phandle `first`.
#[tactic(auto, unfolding(crate::specs::Guests::port_commands))]
pub(crate) fn put_channels(
    alloc: Global,
    out: &mut List<Command>,
    path: &str,
    config: &Config,
    groups: &[PortGroup],
    first: u32,
    highest: u32,
) -> Result<(), AllocError>
    requires first { first + length groups.now ≤ 0xffffffff }
    requires room { highest + groups_before config.now.guests (length config.now.guests) ≤ 0xfffffffe }
    ensures { OnOk result (out.new ≡ out.old ++ flat_map (port_commands path.now config.now.guests highest first) (enumerate_from 0 groups.now)) }
{
    for (number, group) in groups.iter().enumerate() {
        let phandle = first + number as u32;
        let peer = peer_phandle(config, highest, *group);
        put_channel(alloc, out, path, number, phandle, group.port, peer)?;
    }
    Ok(())
}
