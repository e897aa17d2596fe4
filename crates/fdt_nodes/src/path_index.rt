// The nodes of a tree, to be looked up by path.
ghost use Rattle.std.specs.Prelude.{◌≡◌, ◌<◌, ◌==◌, ◌++◌, ◌∷◌, [], length, option_map, position, IfOk, IfSome};
ghost use Rattle.std.specs.List.{slice_split};
ghost use Rattle.fdt_tree.specs.Tree.{descend, find_place};
ghost use Rattle.fdt_tree.specs.Document.{place_of, children_of};
ghost use Rattle.fdt_nodes.specs.Nodes.{node_found};
ghost use Rattle.fdt_nodes.specs.Held.{node_of};
ghost use Rattle.fdt_nodes.specs.ChildMaps.{IsChildMap};

use crate::below::{children, nodes};
use fdt_tree::{NodeId, Tree};
use std::alloc::{AllocError, Global};
use std::collections::BTreeMap;
use std::marker::Model;

/// The nodes of a tree by their paths. `Tree::find` takes no memory, but looks at each sibling before the one that it
/// finds; `find` here compares a component of the path with about as many names as the number of siblings has binary
/// digits.
#[derive(Drop)]
pub struct PathIndex<'a> {
    tree: &'a Tree,
    // For each node the first of its children of each name.
    children: BTreeMap<NodeId, BTreeMap<Vec<u8>, NodeId>>,
}

impl<'a> Model for PathIndex<'a> {
    ghost use Rattle.fdt_tree.specs.Assembled.{coded_document};
    ghost use Rattle.fdt_tree.specs.Document.{Document};
    ghost use Rattle.fdt_nodes.specs.ChildMaps.{HasAllChildren};

    ghost Value = { Document };

    ghost coded = { coded_document };

    ghost view = { λ index. index.tree.now };

    ghost invariant = { λ index. HasAllChildren index.tree.now index.children };
}

impl<'a> PathIndex<'a> {
    /// The index of a tree, which contracts see as the tree itself.
    pub fn new(alloc: Global, tree: &'a Tree) -> Result<PathIndex<'a>, AllocError>
        ensures { IfOk result (λ index. index ≡ tree.now) }
    {
        tree.numbering();
        let all = nodes(alloc, tree)?;
        let mut held = BTreeMap::new(alloc);
        for node in all.as_slice() {
            held.insert(*node, children_by_name(alloc, tree, *node)?)?;
        }
        Ok(PathIndex {
            tree,
            children: held,
        })
    }

    /// The node that a path finds (Devicetree Specification 0.4, 2.2.3), as `Tree::find` does.
    pub fn find(&self, path: &[u8]) -> Option<NodeId>
        ensures live { IfSome result (λ node. node < length self.now.places) }
        ensures place { option_map (λ node. place_of self.now node) result ≡ find_place self.now.tree path.now }
        ensures node { option_map (λ node. node_of self.now node) result ≡ node_found self.now.tree path.now }
    {
        match path {
            [b'/'] => Some(self.tree.root()),
            [b'/', names @ ..] => self.find_below(self.tree.root(), names),
            _ => None,
        }
    }

    // The node to which names, parted by `/`, lead from a node.
    fn find_below(&self, above: NodeId, names: &[u8]) -> Option<NodeId>
        requires { above < length self.now.places }
        ensures live { IfSome result (λ node. node < length self.now.places) }
        ensures place { option_map (λ node. place_of self.now node) result ≡ option_map (λ p. place_of self.now above ++ p) (descend (slice_split (λ b. b == 47) names.now) (children_of self.now above)) }
    {
        match slash_in(names) {
            None => self.child(above, names),
            Some(at) => match self.child(above, &names[..at]) {
                None => None,
                Some(child) => self.find_below(child, &names[at + 1..]),
            },
        }
    }

    // The first child of this name, which is none where the name is empty.
    fn child(&self, above: NodeId, name: &[u8]) -> Option<NodeId>
        requires { above < length self.now.places }
        ensures live { IfSome result (λ child. child < length self.now.places) }
        ensures place { option_map (λ child. place_of self.now child) result ≡ option_map (λ p. place_of self.now above ++ p) (descend (name.now ∷ []) (children_of self.now above)) }
    {
        if name.is_empty() {
            return None;
        }
        match self.children.get(&above) {
            None => None,
            Some(named) => named.get(name).copied(),
        }
    }
}

// The index of the first `/`, if there is one.
fn slash_in(names: &[u8]) -> Option<usize>
    ensures { result ≡ position (λ b. b == 47) names.now }
{
    names.iter().position(|byte| *byte == b'/')
}

// The first of a node's children of each name. They are added from the last on, so that the first of a name stays.
fn children_by_name(
    alloc: Global,
    tree: &Tree,
    node: NodeId,
) -> Result<BTreeMap<Vec<u8>, NodeId>, AllocError>
    requires { node < length tree.now.places }
    ensures { IfOk result (IsChildMap tree.now node) }
{
    tree.numbering();
    let mut named = BTreeMap::new(alloc);
    let mut rest = children(alloc, tree, node)?.into_vec();
    while let Some(child) = rest.pop() {
        named.insert(tree.name(child).to_vec(alloc)?, child)?;
    }
    Ok(named)
}
