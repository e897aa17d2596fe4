//! The guests of a generated tree.
ghost use Rattle.std.specs.Prelude.{◌≡◌, ◌<◌, ◌+◌, ◌%◌, ◌^◌, ◌∷◌, [], true, false, length, OnOk, IfOk, IsTrue};
ghost use Rattle.fdt_tree.specs.Tree.{is_node_name};
ghost use Rattle.fdt_tree.specs.Document.{place_of, with_node};
ghost use Rattle.tree_parts.specs.Nodes.{trees_of, on};
ghost use Rattle.tree_parts.specs.Grown.{Grows};
ghost use Rattle.tree_generator.specs.Guests.{is_even, peer, is_linked, properties_by, guest_name, kernel, region, port, guest};

use fdt_tree::{NodeId, Tree};
use std::alloc::{AllocError, Global};
use texts::Bytes;
use tree_parts::{Row, add_leaf, add_open};

/// The guest has an even number.
fn is_even(n: u32) -> bool
    ensures { result ≡ is_even n }
{
    n % 2 == 0
}

/// The other guest of a pair.
fn peer(n: u32) -> u32
    requires { n < 16 }
    ensures { result ≡ peer n }
{
    if n % 2 == 0 { n + 1 } else { n - 1 }
}

/// The other guest of the pair is there, among so many guests.
fn is_linked(guests: u32, n: u32) -> bool
    requires { n < 16 }
    ensures { result ≡ is_linked guests n }
{
    peer(n) < guests
}

/// A guest's name, as it is spelled.
fn spelled_name(alloc: Global, n: u32) -> Result<Bytes, AllocError>
    ensures { IfOk result (λ name. name ≡ guest_name n) }
{
    let mut name = Bytes::new(alloc);
    name.append(b"domU")?;
    name.append_decimal(alloc, n as u64)?;
    Ok(name)
}

/// A guest's name, which is a name that a node may have.
fn guest_name(alloc: Global, n: u32) -> Result<Bytes, AllocError>
    ensures spelled { IfOk result (λ name. name ≡ guest_name n) }
    ensures node_name { IfOk result (λ name. IsTrue (is_node_name name)) }
{
    let name = spelled_name(alloc, n)?;
    Ok(name)
}

/// Adds the kernel of a guest.
#[tactic(auto, unfolding(crate::specs::Guests::kernel))]
fn add_kernel(alloc: Global, tree: &mut Tree, domain: NodeId, n: u32) -> Result<(), AllocError>
    requires live { domain < length tree.old.places }
    requires few { n < 16 }
    ensures { OnOk result (Grows tree.old tree.new domain (trees_of (kernel n ∷ []))) }
{
    let address = 0x20_0000 * (n as u64 + 1);
    let rows = [
        Row::Text(b"compatible", b"multiboot,kernel\0multiboot,module"),
        Row::WideCells(b"reg", &[address, 0x20_0000]),
    ];
    add_leaf(alloc, tree, domain, b"kernel", &rows)
}

/// Adds the region that all guests share.
#[tactic(auto, unfolding(crate::specs::Guests::region))]
fn add_region(alloc: Global, tree: &mut Tree, domain: NodeId) -> Result<(), AllocError>
    requires { domain < length tree.old.places }
    ensures { OnOk result (Grows tree.old tree.new domain (trees_of (region ∷ []))) }
{
    let rows = [
        Row::Text(b"compatible", b"xen,domain-shared-memory-v1"),
        Row::Text(b"xen,shm-id", b"ring"),
        Row::WideCells(
            b"xen,shared-mem",
            &[0x7_0000_0000, 0x80_0000_0000, 0x20_0000],
        ),
    ];
    add_leaf(alloc, tree, domain, b"shm0", &rows)
}

/// Adds the port to its peer.
#[tactic(auto, unfolding(crate::specs::Guests::port))]
fn add_port(alloc: Global, tree: &mut Tree, domain: NodeId, n: u32) -> Result<(), AllocError>
    requires live { domain < length tree.old.places }
    requires few { n < 16 }
    ensures { OnOk result (Grows tree.old tree.new domain (trees_of (port n ∷ []))) }
{
    let other = peer(n) + 1;
    let rows = [
        Row::Text(b"compatible", b"xen,evtchn-v1"),
        Row::Cells(b"phandle", &[n + 1]),
        Row::Cells(b"xen,evtchn", &[1, other]),
    ];
    add_leaf(alloc, tree, domain, b"evtchn0", &rows)
}

/// Adds the port to its peer, where there is one.
fn add_wanted_port(
    alloc: Global,
    tree: &mut Tree,
    domain: NodeId,
    linked: bool,
    n: u32,
) -> Result<(), AllocError>
    requires live { domain < length tree.old.places }
    requires few { n < 16 }
    ensures { OnOk result (Grows tree.old tree.new domain (trees_of (on linked (port n ∷ [])))) }
{
    if linked {
        add_port(alloc, tree, domain, n)
    } else {
        Ok(())
    }
}

/// Adds the node of a guest with memory from the heap, with its properties.
fn add_heap_domain(
    alloc: Global,
    tree: &mut Tree,
    chosen: NodeId,
    linked: bool,
    n: u32,
    pages: u64,
) -> Result<NodeId, AllocError>
    requires live { chosen < length tree.old.places }
    requires few { n < 16 }
    requires some { pages < 2 ^ 24 }
    ensures ok { OnOk result (tree.new ≡ with_node tree.old (place_of tree.old chosen) (guest_name n) (properties_by true linked n pages)) }
    ensures newest { IfOk result (λ node. node ≡ length tree.old.places) }
    ensures longer { IfOk result (λ node. node < length tree.new.places) }
{
    let name = guest_name(alloc, n)?;
    let kib = 4 * pages;
    if linked {
        let rows = [
            Row::Text(b"compatible", b"xen,domain"),
            Row::Cells(b"#address-cells", &[2]),
            Row::Cells(b"#size-cells", &[2]),
            Row::WideCells(b"memory", &[kib]),
            Row::Cells(b"cpus", &[1]),
            Row::Text(b"xen,enhanced", b"no-xenstore"),
        ];
        add_open(alloc, tree, chosen, name.as_slice(), &rows)
    } else {
        let rows = [
            Row::Text(b"compatible", b"xen,domain"),
            Row::Cells(b"#address-cells", &[2]),
            Row::Cells(b"#size-cells", &[2]),
            Row::WideCells(b"memory", &[kib]),
            Row::Cells(b"cpus", &[1]),
        ];
        add_open(alloc, tree, chosen, name.as_slice(), &rows)
    }
}

/// Adds the node of a guest with static memory, with its properties.
fn add_static_domain(
    alloc: Global,
    tree: &mut Tree,
    chosen: NodeId,
    linked: bool,
    n: u32,
    pages: u64,
) -> Result<NodeId, AllocError>
    requires live { chosen < length tree.old.places }
    requires few { n < 16 }
    requires some { pages < 2 ^ 24 }
    ensures ok { OnOk result (tree.new ≡ with_node tree.old (place_of tree.old chosen) (guest_name n) (properties_by false linked n pages)) }
    ensures newest { IfOk result (λ node. node ≡ length tree.old.places) }
    ensures longer { IfOk result (λ node. node < length tree.new.places) }
{
    let name = guest_name(alloc, n)?;
    let base = 0x8_0000_0000 + n as u64 * 0x8000_0000;
    let size = 4096 * pages;
    if linked {
        let rows = [
            Row::Text(b"compatible", b"xen,domain"),
            Row::Cells(b"#address-cells", &[2]),
            Row::Cells(b"#size-cells", &[2]),
            Row::Cells(b"cpus", &[1]),
            Row::Cells(b"#xen,static-mem-address-cells", &[2]),
            Row::Cells(b"#xen,static-mem-size-cells", &[2]),
            Row::WideCells(b"xen,static-mem", &[base, size]),
            Row::Text(b"xen,enhanced", b"no-xenstore"),
        ];
        add_open(alloc, tree, chosen, name.as_slice(), &rows)
    } else {
        let rows = [
            Row::Text(b"compatible", b"xen,domain"),
            Row::Cells(b"#address-cells", &[2]),
            Row::Cells(b"#size-cells", &[2]),
            Row::Cells(b"cpus", &[1]),
            Row::Cells(b"#xen,static-mem-address-cells", &[2]),
            Row::Cells(b"#xen,static-mem-size-cells", &[2]),
            Row::WideCells(b"xen,static-mem", &[base, size]),
        ];
        add_open(alloc, tree, chosen, name.as_slice(), &rows)
    }
}

/// Adds the node of a guest with its properties.
fn add_domain(
    alloc: Global,
    tree: &mut Tree,
    chosen: NodeId,
    even: bool,
    linked: bool,
    n: u32,
    pages: u64,
) -> Result<NodeId, AllocError>
    requires live { chosen < length tree.old.places }
    requires few { n < 16 }
    requires some { pages < 2 ^ 24 }
    ensures ok { OnOk result (tree.new ≡ with_node tree.old (place_of tree.old chosen) (guest_name n) (properties_by even linked n pages)) }
    ensures newest { IfOk result (λ node. node ≡ length tree.old.places) }
    ensures longer { IfOk result (λ node. node < length tree.new.places) }
{
    if even {
        add_heap_domain(alloc, tree, chosen, linked, n, pages)
    } else {
        add_static_domain(alloc, tree, chosen, linked, n, pages)
    }
}

/// Adds a guest, among so many, with memory of so many pages.
pub(crate) fn add_guest(
    alloc: Global,
    tree: &mut Tree,
    chosen: NodeId,
    guests: u32,
    n: u32,
    pages: u64,
) -> Result<(), AllocError>
    requires live { chosen < length tree.old.places }
    requires few { n < 16 }
    requires some { pages < 2 ^ 24 }
    ensures { OnOk result (Grows tree.old tree.new chosen (trees_of (guest guests n pages ∷ []))) }
{
    tree.numbering();
    let linked = is_linked(guests, n);
    let domain = add_domain(alloc, tree, chosen, is_even(n), linked, n, pages)?;
    add_kernel(alloc, tree, domain, n)?;
    add_region(alloc, tree, domain)?;
    add_wanted_port(alloc, tree, domain, linked, n)
}
