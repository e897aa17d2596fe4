// The event channel ports of a domain.
ghost use Rattle.std.specs.Prelude.{◌≡◌, ◌<◌, filter, find, is_some, length, map, option_map, IfOk, IfSome};
ghost use Rattle.std.specs.Option.{ForSome};
ghost use Rattle.fdt_tree.specs.Document.{properties_of};
ghost use Rattle.fdt_nodes.specs.Held.{node_of};
ghost use Rattle.static_links.specs.Channels.{event_channels, ends_of, other_end};
ghost use Rattle.static_links.specs.Ports.{holds, lacks_port, port_reason, port_what, port_item, port_items};
ghost use Rattle.described.specs.Sound.{AreSound};
ghost use Rattle.static_links.specs.PrivateHeld.{ends_at, channel_at, has_ends, IsPeer, ArePeers};

use crate::channels::{End, Peer, end_of, is_port, other_end, peers};
use crate::nodes::children_with;
use described::{Described, Item, Part, What, Why, described};
use fdt_nodes::{has, item_of};
use fdt_tree::{NodeId, Tree};
use std::alloc::{AllocError, Global};
use texts::List;

/// Whether a node says no port, or has no phandle.
fn lacks_port(tree: &Tree, node: NodeId) -> bool
    requires { node < length tree.now.places }
    ensures { result ≡ lacks_port (properties_of tree.now node) }
{
    !has(tree, node, b"xen,evtchn") || !has(tree, node, b"phandle")
}

/// Whether an item is a port of this number.
fn holds(port: u32, item: &Described) -> bool
    ensures { result ≡ holds port item.now }
{
    match &item.what {
        What::Port { port: held, .. } => *held == port,
        _ => false,
    }
}

/// The first of some items that is a port of this number.
fn holder(before: &[Described], port: u32) -> Option<&Item>
    ensures { option_map (λ item. item.now) result ≡ option_map (λ found. found.item) (find (holds port) before.now) }
{
    for item in before {
        if holds(port, item) {
            return Some(&item.item);
        }
    }
    None
}

/// The other end of a node that says `end`.
fn peer_of<'a>(tree: &Tree, peers: &'a [Peer], node: NodeId, end: &Option<End>) -> Option<&'a Peer>
    requires live { node < length tree.now.places }
    requires peers { ArePeers tree.now peers.now }
    requires all { map (channel_at tree.now) peers.now ≡ filter has_ends (event_channels tree.now.tree) }
    requires end { option_map ends_at end.now ≡ ends_of (properties_of tree.now node) }
    ensures found { option_map (λ peer. channel_at tree.now peer.now) result ≡ other_end tree.now.tree (node_of tree.now node) }
    ensures peer { IfSome result (λ peer. IsPeer tree.now peer.now) }
{
    match end {
        None => None,
        Some(end) => other_end(tree, peers, node, end),
    }
}

/// The first reason against an event channel node, after these ports of its domain, fewer than 64.
fn port_reason(
    alloc: Global,
    tree: &Tree,
    before: &[Described],
    node: NodeId,
    end: &Option<End>,
    has_peer: bool,
) -> Result<Option<Why>, AllocError>
    requires live { node < length tree.now.places }
    requires few { length before.now < 64 }
    requires end { option_map ends_at end.now ≡ ends_of (properties_of tree.now node) }
    requires peer { has_peer ≡ is_some (other_end tree.now.tree (node_of tree.now node)) }
    ensures { IfOk result (λ why. why ≡ port_reason tree.now.tree before.now (node_of tree.now node)) }
{
    if lacks_port(tree, node) {
        return Ok(Some(Why::Missing));
    }
    let Some(end) = end else {
        return Ok(Some(Why::BadLength));
    };
    if !is_port(end.port) {
        return Ok(Some(Why::BadValue));
    }
    if let Some(item) = holder(before, end.port) {
        return Ok(Some(Why::PortTaken(item.copy(alloc)?)));
    }
    if !has_peer {
        return Ok(Some(Why::EvtchnLink));
    }
    Ok(None)
}

/// What an event channel node describes.
fn port_what(tree: &Tree, node: NodeId, end: &Option<End>, peer: Option<&Peer>) -> What
    requires end { option_map ends_at end.now ≡ ends_of (properties_of tree.now node) }
    requires found { option_map (λ p. channel_at tree.now p.now) peer ≡ other_end tree.now.tree (node_of tree.now node) }
    requires peer { ForSome peer (λ p. IsPeer tree.now p.now) }
    ensures { result ≡ port_what tree.now.tree (node_of tree.now node) }
{
    let Some(end) = end else {
        return What::Unread;
    };
    match peer {
        None => What::Unread,
        Some(peer) => What::Port {
            port: end.port,
            peer: peer.guest,
            peer_port: peer.end.port,
        },
    }
}

/// The item of an event channel node, after these ports of its domain.
fn port_item(
    alloc: Global,
    tree: &Tree,
    peers: &[Peer],
    before: &[Described],
    node: NodeId,
) -> Result<Described, AllocError>
    requires live { node < length tree.now.places }
    requires peers { ArePeers tree.now peers.now }
    requires all { map (channel_at tree.now) peers.now ≡ filter has_ends (event_channels tree.now.tree) }
    ensures { IfOk result (λ item. item ≡ port_item tree.now.tree before.now (node_of tree.now node)) }
{
    let item = item_of(alloc, tree, Part::Port, node, 0)?;
    if before.len() >= 64 {
        return Ok(Described {
            item,
            own: Some(Why::TooMany),
            what: What::Unread,
        });
    }
    let end = end_of(tree, node);
    let peer = peer_of(tree, peers, node, &end);
    let own = port_reason(alloc, tree, before, node, &end, peer.is_some())?;
    Ok(described(item, own, port_what(tree, node, &end, peer)))
}

/// Reads the event channel nodes of a domain. No description is refused: an item that breaks its binding carries its own
/// reason.
pub fn read_ports(alloc: Global, tree: &Tree, domain: NodeId) -> Result<List<Described>, AllocError>
    requires { domain < length tree.now.places }
    ensures items { IfOk result (λ items. items ≡ port_items tree.now.tree (node_of tree.now domain)) }
    ensures sound { IfOk result (λ items. AreSound items) }
{
    let nodes = children_with(alloc, tree, domain, b"xen,evtchn-v1")?;
    let mut items = List::new(alloc);
    if nodes.as_slice().is_empty() {
        return Ok(items);
    }
    let peers = peers(alloc, tree)?;
    for node in nodes.as_slice() {
        let item = port_item(alloc, tree, &peers, items.as_slice(), *node)?;
        items.push(item)?;
    }
    Ok(items)
}
