// The guests.
ghost use Rattle.std.specs.Prelude.{◌≡◌, ◌<◌, ◌≤◌, ◌∷◌, ◌++◌, [], IfOk, IfSome, All, length, map};
ghost use Rattle.fdt_nodes.specs.Held.{node_of, Are};
ghost use Rattle.domain_bindings.specs.Modules.{modules_of, module_items};
ghost use Rattle.domain_bindings.specs.Heads.{head_item};
ghost use Rattle.domain_bindings.specs.Statics.{static_items};
ghost use Rattle.domain_bindings.specs.Domains.{bootargs_of, partial_of, said_console, said_cpus, said_direct, said_pages, said_spis};
ghost use Rattle.domain_bindings.specs.Results.{AreDomains, domain_at, domains_at};
ghost use Rattle.domain_bindings.specs.Assured.{HasHead, HasListedRanges, HasStaticLimit};
ghost use Rattle.described.specs.Sound.{AreSound};

use crate::heads::head_item;
use crate::modules::{append_modules, first_of_kind, place_of};
use crate::roles::{Role, children_with, found_with, siblings_with};
use crate::statics::append_statics;
use described::{Described, ModuleKind, What};
use fdt_nodes::path;
use fdt_tree::{NodeId, Tree};
use std::alloc::{AllocError, Global};
use texts::{Bytes, List};

/// What a tree describes of a guest by the guest's own node and its modules. Of a guest whose head has a reason of its
/// own, no number is told.
#[derive(Debug, Drop)]
pub struct Domain {
    pub node: NodeId,
    pub path: Bytes,
    /// Guests are numbered from 0, in document order.
    pub number: u64,
    pub cpus: u32,
    /// The pages that the guest is to be given beside its static memory.
    pub pages: u64,
    /// It has a console.
    pub console: bool,
    /// How many shared interrupts it has, where the tree says so.
    pub spis: Option<u32>,
    /// Its memory is mapped at the host's addresses.
    pub direct: bool,
    /// The words that its kernel is started with.
    pub bootargs: Option<Bytes>,
    /// The address of its partial device tree.
    pub partial: Option<u64>,
    pub items: List<Described>,
}

/// The numbers of a head. Of one with a reason of its own none is told.
#[derive(Clone, Copy)]
struct Numbers {
    cpus: u32,
    pages: u64,
    spis: Option<u32>,
    direct: bool,
    console: bool,
}

/// The numbers that a head says.
fn numbers_of(head: &What) -> Numbers
    ensures cpus { result.cpus ≡ said_cpus head.now }
    ensures pages { result.pages ≡ said_pages head.now }
    ensures spis { result.spis ≡ said_spis head.now }
    ensures direct { result.direct ≡ said_direct head.now }
    ensures console { result.console ≡ said_console head.now }
{
    match head {
        What::Head {
            cpus,
            pages,
            spis,
            direct,
            console,
        } => Numbers {
            cpus: *cpus,
            pages: *pages,
            spis: *spis,
            direct: *direct,
            console: *console,
        },
        _ => Numbers {
            cpus: 0,
            pages: 0,
            spis: None,
            direct: false,
            console: false,
        },
    }
}

/// The words that a guest's kernel is started with.
fn bootargs_of(
    alloc: Global,
    tree: &Tree,
    node: NodeId,
    modules: &[NodeId],
) -> Result<Option<Bytes>, AllocError>
    requires { Are tree.now (modules_of (node_of tree.now node)) modules.now }
    ensures { IfOk result (λ words. words ≡ bootargs_of (node_of tree.now node)) }
{
    let Some(kernel) = first_of_kind(tree, modules, ModuleKind::Kernel) else {
        return Ok(None);
    };
    let Some(value) = tree.prop(kernel, b"bootargs") else {
        return Ok(None);
    };
    let mut words = Bytes::new(alloc);
    words.append(value)?;
    Ok(Some(words))
}

/// The address of a guest's partial device tree.
fn partial_of(
    tree: &Tree,
    node: NodeId,
    modules: &[NodeId],
    cells: Option<(u32, u32)>,
) -> Option<u64>
    requires modules { Are tree.now (modules_of (node_of tree.now node)) modules.now }
    requires cells { All (λ n. (node_of tree.now n).cells ≡ cells) modules.now }
    requires within { IfSome cells (λ counts. (1 ≤ counts.0) × (counts.0 ≤ 2) × (1 ≤ counts.1) × (counts.1 ≤ 2)) }
    ensures { result ≡ partial_of (node_of tree.now node) }
{
    let first = first_of_kind(tree, modules, ModuleKind::DeviceTree)?;
    let place = place_of(tree, first, cells)?;
    Some(place.base)
}

/// The items of a guest, of which the head is there.
fn domain_items(
    alloc: Global,
    tree: &Tree,
    node: NodeId,
    modules: &[NodeId],
    cells: Option<(u32, u32)>,
    head: Described,
) -> Result<List<Described>, AllocError>
    requires live { node < length tree.now.places }
    requires modules { Are tree.now (modules_of (node_of tree.now node)) modules.now }
    requires cells { All (λ n. (node_of tree.now n).cells ≡ cells) modules.now }
    requires within { IfSome cells (λ counts. (1 ≤ counts.0) × (counts.0 ≤ 2) × (1 ≤ counts.1) × (counts.1 ≤ 2)) }
    ensures { IfOk result (λ items. items ≡ head ∷ (static_items (node_of tree.now node) ++ module_items [] (modules_of (node_of tree.now node)))) }
{
    let mut items = List::new(alloc);
    items.push(head)?;
    append_statics(alloc, tree, node, &mut items)?;
    append_modules(alloc, tree, modules, cells, &mut items)?;
    Ok(items)
}

/// The guest of a node, of which the head and the modules are there.
fn domain_of(
    alloc: Global,
    tree: &Tree,
    node: NodeId,
    number: u64,
    modules: &[NodeId],
    cells: Option<(u32, u32)>,
    head: Described,
) -> Result<Domain, AllocError>
    requires live { node < length tree.now.places }
    requires modules { Are tree.now (modules_of (node_of tree.now node)) modules.now }
    requires cells { All (λ n. (node_of tree.now n).cells ≡ cells) modules.now }
    requires within { IfSome cells (λ counts. (1 ≤ counts.0) × (counts.0 ≤ 2) × (1 ≤ counts.1) × (counts.1 ≤ 2)) }
    requires head { head ≡ head_item number (node_of tree.now node) }
    ensures { IfOk result (λ domain. domain ≡ domain_at tree.now number node) }
{
    let said = numbers_of(&head.what);
    let path = path(alloc, tree, node)?;
    let bootargs = bootargs_of(alloc, tree, node, modules)?;
    let partial = partial_of(tree, node, modules, cells);
    let items = domain_items(alloc, tree, node, modules, cells, head)?;
    Ok(Domain {
        node,
        path,
        number,
        cpus: said.cpus,
        pages: said.pages,
        console: said.console,
        spis: said.spis,
        direct: said.direct,
        bootargs,
        partial,
        items,
    })
}

/// The guest of a node.
fn read_domain(alloc: Global, tree: &Tree, node: NodeId, number: u64) -> Result<Domain, AllocError>
    requires { node < length tree.now.places }
    ensures { IfOk result (λ domain. domain ≡ domain_at tree.now number node) }
{
    let modules = siblings_with(alloc, tree, node, Role::Module)?;
    let channels = children_with(alloc, tree, node, Role::Channel)?;
    let head = head_item(
        alloc,
        tree,
        node,
        number,
        modules.nodes.as_slice(),
        channels.as_slice(),
    )?;
    domain_of(
        alloc,
        tree,
        node,
        number,
        modules.nodes.as_slice(),
        modules.cells,
        head,
    )
}

/// The guests in document order, each with its items and their first own reasons.
pub fn read_domains(alloc: Global, tree: &Tree) -> Result<List<Domain>, AllocError>
    ensures domains { IfOk result (λ domains. AreDomains tree.now domains) }
    ensures sound { IfOk result (λ domains. All (λ domain. AreSound domain.items) domains) }
    ensures heads { IfOk result (λ domains. All HasHead domains) }
    ensures ranges { IfOk result (λ domains. All HasListedRanges domains) }
    ensures limit { IfOk result (λ domains. All HasStaticLimit domains) }
{
    let guests = found_with(alloc, tree, b"/chosen", Role::Domain)?;
    let nodes = guests.nodes.as_slice();
    let mut domains = List::new(alloc);
    for index in 0..nodes.len() {
        let domain = read_domain(alloc, tree, nodes[index], index as u64)?;
        domains.push(domain)?;
    }
    Ok(domains)
}
