// The children of a node by their names.
ghost use Rattle.std.specs.Prelude.{◌≡◌, ◌<◌, IfSome, length, option_map};
ghost use Rattle.fdt_tree.specs.Document.{place_of};
ghost use Rattle.indexed_tree.specs.Lookups.{child_place};

use fdt_tree::{NodeId, Tree};

/// The first child of a node that has this name.
pub(crate) fn child_named(tree: &Tree, node: NodeId, name: &[u8]) -> Option<NodeId>
    requires { node < length tree.now.places }
    ensures live { IfSome result (λ child. child < length tree.now.places) }
    ensures place { option_map (λ child. place_of tree.now child) result ≡ child_place tree.now node name.now }
{
    tree.numbering();
    let mut next = tree.first_child(node);
    while let Some(child) = next {
        if tree.name(child) == name {
            return Some(child);
        }
        next = tree.next_sibling(child);
    }
    None
}
