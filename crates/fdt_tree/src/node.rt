// A node and a property as the arena of a tree holds them.
ghost use Rattle.std.specs.Prelude.{◌≡◌, ◌<◌, length, OnOk, OnErr, IfSome};
ghost use Rattle.fdt_tree.specs.PrivateLinks.{fresh, linked};

use crate::excerpt::Held;
use std::alloc::AllocError;
use texts::Bytes;

/// A node, by the numbers of its parent and of the nodes and slots next to it. The root's parent is itself.
#[derive(Drop)]
pub(crate) struct Node {
    pub(crate) parent: usize,
    pub(crate) name: Bytes,
    pub(crate) first_child: Option<usize>,
    pub(crate) last_child: Option<usize>,
    pub(crate) next_sibling: Option<usize>,
    pub(crate) first_property: Option<usize>,
    pub(crate) last_property: Option<usize>,
    /// How many properties it has.
    pub(crate) property_count: usize,
    /// How many of its properties stand side by side right after the first one.
    pub(crate) run: usize,
}

/// A property, by the number of its node and of the next property of that node.
#[derive(Drop)]
pub(crate) struct Slot {
    pub(crate) owner: usize,
    pub(crate) name: Held,
    pub(crate) value: Held,
    pub(crate) next: Option<usize>,
}

/// A node below `parent` with no property and no child.
pub(crate) fn alone(parent: usize, name: Bytes) -> Node
    ensures { result ≡ fresh parent name }
{
    Node {
        parent,
        name,
        first_child: None,
        last_child: None,
        next_sibling: None,
        first_property: None,
        last_property: None,
        property_count: 0,
        run: 0,
    }
}

/// Adds `node` as the last node, and links it as the child of `parent` after its last one. Memory is taken before any
/// link is set, so after want of memory the nodes are as they were.
pub(crate) fn link(
    nodes: &mut Vec<Node>,
    parent: usize,
    last: Option<usize>,
    node: Node,
) -> Result<(), AllocError>
    requires live { parent < length nodes.old.items }
    requires last { IfSome last (λ child. child < length nodes.old.items) }
    ensures ok { OnOk result (nodes.new.items ≡ linked nodes.old.items parent last node) }
    ensures err { OnErr result (nodes.new.items ≡ nodes.old.items) }
{
    let number = nodes.len();
    nodes.push(node)?;
    match last {
        None => {
            let above = &mut nodes[parent];
            above.first_child = Some(number);
        }
        Some(before) => {
            let sibling = &mut nodes[before];
            sibling.next_sibling = Some(number);
        }
    }
    let above = &mut nodes[parent];
    above.last_child = Some(number);
    Ok(())
}
