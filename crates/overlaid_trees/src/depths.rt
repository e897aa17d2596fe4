// How deep what is below a node is.
ghost use Rattle.std.specs.Prelude.{◌≡◌, ◌<◌, length, nat_le};
ghost use Rattle.fdt_tree.specs.Document.{children_of};
ghost use Rattle.fdt_tree.specs.Whole.{height};

use fdt_tree::{NodeId, Tree};

/// Whether what is below a node is no deeper than this.
pub(crate) fn fits(tree: &Tree, node: NodeId, room: usize) -> bool
    requires { node < length tree.now.places }
    ensures { result ≡ nat_le (height (children_of tree.now node)) room }
{
    tree.numbering();
    let mut next = tree.first_child(node);
    while let Some(child) = next {
        next = tree.next_sibling(child);
        if room == 0 || !fits(tree, child, room - 1) {
            return false;
        }
    }
    true
}
