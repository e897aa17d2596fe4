// The first bank of a guest.
ghost use Rattle.std.specs.Prelude.{◌≡◌, ◌<◌, ◌≤◌, ◌^◌, length, IfSome};
ghost use Rattle.fdt_nodes.specs.Held.{node_of};
ghost use Rattle.guest_load.specs.Banks.{whole_entries, memory_of, memories, bank_of, first_of, first_bank};
ghost use Rattle.guest_load.specs.LoadPlaces.{end_of};

use crate::places::Place;
use fdt_nodes::{is_memory, own_cells, region};
use fdt_tree::{NodeId, Tree};
use texts::BaseSize;

/// The first entry of some bytes, where they are whole entries.
fn first_entry(bytes: &[u8], cells: (u32, u32)) -> Option<BaseSize>
    requires address { (1 ≤ cells.0) × (cells.0 ≤ 2) }
    requires size { (1 ≤ cells.1) × (cells.1 ≤ 2) }
    ensures { result ≡ first_of (whole_entries cells bytes.now) }
{
    let size = 4 * (cells.0 + cells.1) as usize;
    if bytes.len() < size || bytes.len() % size != 0 {
        return None;
    }
    Some(region(&bytes[..size], cells))
}

/// The first memory that a node says.
fn memory_of(tree: &Tree, node: NodeId) -> Option<BaseSize>
    requires { node < length tree.now.places }
    ensures { result ≡ first_of (memory_of (node_of tree.now node)) }
{
    if !is_memory(tree, node) {
        return None;
    }
    match own_cells(tree, node) {
        Err(_) => None,
        Ok(cells) => match tree.prop(node, b"reg") {
            None => None,
            Some(value) => first_entry(value, cells),
        },
    }
}

/// The first memory of a tree.
fn first_memory(tree: &Tree) -> Option<BaseSize>
    ensures { result ≡ first_of (memories tree.now.tree) }
{
    tree.numbering();
    let root = tree.root();
    let mut at = tree.first_child(root);
    while let Some(node) = at {
        let found = memory_of(tree, node);
        if found.is_some() {
            return found;
        }
        at = tree.next_sibling(node);
    }
    None
}

/// The bank that a memory is, unless it has no byte or ends past 2^40.
fn bank_of(memory: BaseSize) -> Option<Place>
    ensures bank { result ≡ bank_of memory }
    ensures low { IfSome result (λ bank. end_of bank ≤ 2 ^ 40) }
{
    if memory.size == 0 || memory.size > 1 << 40 || memory.base > (1 << 40) - memory.size {
        return None;
    }
    Some(Place {
        address: memory.base,
        size: memory.size,
    })
}

/// The first bank of the guest that a tree is for: the first entry of the memory nodes below the root. None where there is
/// none, the root counts cells badly, the entry has no byte, or it ends past 2^40. Takes no memory.
pub fn first_bank(tree: &Tree) -> Option<Place>
    ensures bank { result ≡ first_bank tree.now.tree }
    ensures low { IfSome result (λ bank. end_of bank ≤ 2 ^ 40) }
{
    match first_memory(tree) {
        None => None,
        Some(memory) => bank_of(memory),
    }
}
