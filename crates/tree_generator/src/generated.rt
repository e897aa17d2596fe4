//! The tree that is generated for a number.
ghost use Rattle.std.specs.Prelude.{◌≡◌, ◌<◌, ◌≤◌, ◌^◌, ◌∷◌, [], length, IfOk, OnOk};
ghost use Rattle.fdt_write.specs.Flattened.{flattened};
ghost use Rattle.tree_parts.specs.Nodes.{trees_of, two_and_two};
ghost use Rattle.tree_parts.specs.Grown.{Grows, with_more};
ghost use Rattle.tree_generator.specs.Generated.{guest_count, pages_of, memory, chosen, generated_tree};

use crate::guest::add_guest;
use fdt_tree::{NodeId, Tree};
use fdt_write::{WriteFault, write};
use std::alloc::{AllocError, Global};
use tree_parts::{Row, add_leaf, add_open, add_rows};

/// The tree that is generated for a number up to 1,000,000, to try a build on: a host with 64 GiB of memory, and 1 + `number`
/// % 16 guests. Those with an even number have memory from the heap, the others static memory; all share one region, and
/// guests 2k and 2k + 1 are linked by a port where both are there.
pub fn generated_tree(alloc: Global, number: u32) -> Result<Tree, AllocError>
    requires { number ≤ 1000000 }
    ensures { IfOk result (λ tree. tree.tree ≡ generated_tree number) }
{
    let mut tree = Tree::new(alloc)?;
    let root = tree.root();
    add_root(alloc, &mut tree, root)?;
    add_memory(alloc, &mut tree, root)?;
    add_chosen(alloc, &mut tree, root, number)?;
    Ok(tree)
}

/// The bytes of the tree that is generated for a number up to 1,000,000, as they are written (Devicetree Specification 0.4,
/// chapter 5): without reservations, and with boot processor 0.
pub fn generate(alloc: Global, number: u32) -> Result<Vec<u8>, AllocError>
    requires { number ≤ 1000000 }
    ensures { IfOk result (λ bytes. bytes.items ≡ flattened [] 0 (generated_tree number)) }
{
    let tree = generated_tree(alloc, number)?;
    match write(alloc, &tree, &[], 0) {
        Ok(bytes) => Ok(bytes),
        Err(WriteFault::Memory) => Err(AllocError),
        Err(WriteFault::TooLong(_)) => unreachable!(),
    }
}

/// Gives the root its properties.
fn add_root(alloc: Global, tree: &mut Tree, root: NodeId) -> Result<(), AllocError>
    requires { root < length tree.old.places }
    ensures { OnOk result (tree.new ≡ with_more tree.old root two_and_two) }
{
    let rows = [
        Row::Cells(b"#address-cells", &[2]),
        Row::Cells(b"#size-cells", &[2]),
    ];
    add_rows(alloc, tree, root, &rows)
}

/// Adds the host's memory.
#[tactic(auto, unfolding(crate::specs::Generated::memory))]
fn add_memory(alloc: Global, tree: &mut Tree, root: NodeId) -> Result<(), AllocError>
    requires { root < length tree.old.places }
    ensures { OnOk result (Grows tree.old tree.new root (trees_of (memory ∷ []))) }
{
    let rows = [
        Row::Text(b"device_type", b"memory"),
        Row::WideCells(b"reg", &[0, 0x10_0000_0000]),
    ];
    add_leaf(alloc, tree, root, b"memory@0", &rows)
}

/// How many pages of 4,096 bytes the n-th guest has.
fn pages_of(number: u32, n: u32) -> u64
    requires few { n < 16 }
    requires small { number ≤ 1000000 }
    ensures pages { result ≡ pages_of number n }
    ensures bound { result < 2 ^ 24 }
{
    let number = u64::from(number);
    let n = u64::from(n);
    512 * (1 + (37 * number + 101 * n) % 1023) + (7 * number + 13 * n) % 512
}

/// Adds the guests.
fn add_chosen(alloc: Global, tree: &mut Tree, root: NodeId, number: u32) -> Result<(), AllocError>
    requires live { root < length tree.old.places }
    requires small { number ≤ 1000000 }
    ensures { OnOk result (Grows tree.old tree.new root (trees_of (chosen (guest_count number) (pages_of number) ∷ []))) }
{
    tree.numbering();
    let guests = 1 + number % 16;
    let chosen = add_open(alloc, tree, root, b"chosen", &[])?;
    for n in 0..guests {
        add_guest(alloc, tree, chosen, guests, n, pages_of(number, n))?;
    }
    Ok(())
}
