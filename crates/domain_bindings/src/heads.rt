// The heads of guests.
ghost use Rattle.std.specs.Prelude.{◌≡◌, ◌<◌, IfOk, length};
ghost use Rattle.fdt_nodes.specs.Held.{node_of, Are};
ghost use Rattle.domain_bindings.specs.Modules.{modules_of};
ghost use Rattle.domain_bindings.specs.Heads.{channels_of, has_bad_length, has_bad_value, has_no_cpus, has_no_kernel, has_no_memory, has_plain_channel, head_item, head_reason, head_what, heap_pages, is_direct_alone, is_enhanced, is_past_limit, is_too_large};

use crate::modules::first_of_kind;
use described::{Described, ModuleKind, Part, What, Why, described};
use fdt_nodes::{has, has_other_length, is_value, item_of, u32_at, u64_at};
use fdt_tree::{NodeId, Tree};
use std::alloc::{AllocError, Global};

/// Whether a guest says nothing of its memory.
fn has_no_memory(tree: &Tree, node: NodeId) -> bool
    requires { node < length tree.now.places }
    ensures { result ≡ has_no_memory (node_of tree.now node) }
{
    !has(tree, node, b"memory") && !has(tree, node, b"xen,static-mem")
}

/// Whether a guest has no kernel.
fn has_no_kernel(tree: &Tree, node: NodeId, modules: &[NodeId]) -> bool
    requires { Are tree.now (modules_of (node_of tree.now node)) modules.now }
    ensures { result ≡ has_no_kernel (node_of tree.now node) }
{
    first_of_kind(tree, modules, ModuleKind::Kernel).is_none()
}

/// Whether a number of a guest has another length than its own.
fn has_bad_length(tree: &Tree, node: NodeId) -> bool
    requires { node < length tree.now.places }
    ensures { result ≡ has_bad_length (node_of tree.now node) }
{
    has_other_length(tree, node, b"memory", 8)
        || has_other_length(tree, node, b"cpus", 4)
        || has_other_length(tree, node, b"nr_spis", 4)
}

/// Whether a guest has memory of no KiB or of no whole pages, no processor, or too many shared interrupts.
fn has_bad_value(tree: &Tree, node: NodeId) -> bool
    requires { node < length tree.now.places }
    ensures { result ≡ has_bad_value (node_of tree.now node) }
{
    let memory = match u64_at(tree, node, b"memory") {
        Some(memory) => memory == 0 || memory % 4 != 0,
        None => false,
    };
    let cpus = match u32_at(tree, node, b"cpus") {
        Some(cpus) => cpus == 0,
        None => false,
    };
    let spis = match u32_at(tree, node, b"nr_spis") {
        Some(spis) => spis > 960,
        None => false,
    };
    memory || cpus || spis
}

/// Whether a guest has too many processors, or too much memory.
fn is_too_large(tree: &Tree, node: NodeId) -> bool
    requires { node < length tree.now.places }
    ensures { result ≡ is_too_large (node_of tree.now node) }
{
    let cpus = match u32_at(tree, node, b"cpus") {
        Some(cpus) => cpus > 128,
        None => false,
    };
    let memory = match u64_at(tree, node, b"memory") {
        Some(memory) => memory > 16_777_216,
        None => false,
    };
    cpus || memory
}

/// Whether memory that is not static is to be mapped at the host's addresses.
fn is_direct_alone(tree: &Tree, node: NodeId) -> bool
    requires { node < length tree.now.places }
    ensures { result ≡ is_direct_alone (node_of tree.now node) }
{
    has(tree, node, b"direct-map") && !has(tree, node, b"xen,static-mem")
}

/// Whether a guest may use event channels.
fn is_enhanced(tree: &Tree, node: NodeId) -> bool
    requires { node < length tree.now.places }
    ensures { result ≡ is_enhanced (node_of tree.now node) }
{
    is_value(tree, node, b"xen,enhanced", b"")
        || is_value(tree, node, b"xen,enhanced", b"enabled\0")
        || is_value(tree, node, b"xen,enhanced", b"no-xenstore\0")
}

/// Whether a guest has event channels that it may not use.
fn has_plain_channel(tree: &Tree, node: NodeId, channels: &[NodeId]) -> bool
    requires live { node < length tree.now.places }
    requires channels { Are tree.now (channels_of (node_of tree.now node)) channels.now }
    ensures { result ≡ has_plain_channel (node_of tree.now node) }
{
    !channels.is_empty() && !is_enhanced(tree, node)
}

/// The first own reason of the head of a guest.
fn head_reason(
    tree: &Tree,
    node: NodeId,
    number: u64,
    modules: &[NodeId],
    channels: &[NodeId],
) -> Option<Why>
    requires live { node < length tree.now.places }
    requires modules { Are tree.now (modules_of (node_of tree.now node)) modules.now }
    requires channels { Are tree.now (channels_of (node_of tree.now node)) channels.now }
    ensures { result ≡ head_reason number (node_of tree.now node) }
{
    if number >= 16 {
        return Some(Why::TooMany);
    }
    if !has(tree, node, b"cpus")
        || has_no_memory(tree, node)
        || has_no_kernel(tree, node, modules)
    {
        return Some(Why::Missing);
    }
    if has_bad_length(tree, node) {
        return Some(Why::BadLength);
    }
    if has_bad_value(tree, node) {
        return Some(Why::BadValue);
    }
    if is_too_large(tree, node) {
        return Some(Why::TooLarge);
    }
    if is_direct_alone(tree, node) {
        return Some(Why::DirectWithoutStatic);
    }
    if has_plain_channel(tree, node, channels) {
        return Some(Why::EvtchnPlain);
    }
    None
}

/// How many pages a guest is to be given beside its static memory.
fn heap_pages(tree: &Tree, node: NodeId) -> u64
    requires { node < length tree.now.places }
    ensures { result ≡ heap_pages (node_of tree.now node) }
{
    if has(tree, node, b"xen,static-mem") {
        0
    } else {
        u64_at(tree, node, b"memory").unwrap_or(0) / 4
    }
}

/// What a head describes.
fn head_what(tree: &Tree, node: NodeId) -> What
    requires { node < length tree.now.places }
    ensures { result ≡ head_what (node_of tree.now node) }
{
    What::Head {
        cpus: u32_at(tree, node, b"cpus").unwrap_or(0),
        pages: heap_pages(tree, node),
        spis: u32_at(tree, node, b"nr_spis"),
        direct: has(tree, node, b"direct-map"),
        console: has(tree, node, b"vpl011"),
    }
}

/// The head of a guest.
pub(crate) fn head_item(
    alloc: Global,
    tree: &Tree,
    node: NodeId,
    number: u64,
    modules: &[NodeId],
    channels: &[NodeId],
) -> Result<Described, AllocError>
    requires live { node < length tree.now.places }
    requires modules { Are tree.now (modules_of (node_of tree.now node)) modules.now }
    requires channels { Are tree.now (channels_of (node_of tree.now node)) channels.now }
    ensures { IfOk result (λ item. item ≡ head_item number (node_of tree.now node)) }
{
    let own = head_reason(tree, node, number, modules, channels);
    let item = item_of(alloc, tree, Part::Head, node, 0)?;
    Ok(described(item, own, head_what(tree, node)))
}
