// Copies of nodes of a partial tree.
ghost use Rattle.std.specs.Prelude.{◌≡◌, ◌≢◌, ◌<◌, [], ◌∷◌, Some, length, OnOk, IfOk, IsTrue};
ghost use Rattle.fdt_tree.specs.Document.{place_of, name_of, properties_of, children_of, with_node};
ghost use Rattle.guest_fdt.specs.Copies.{is_binding, kept, cleaned_in, copied, copies};
ghost use Rattle.fdt_tree.specs.Tree.{find_place};
ghost use Rattle.tree_parts.specs.Nodes.{trees_of};
ghost use Rattle.tree_parts.specs.Grown.{Grows, with_more};
ghost use Rattle.fdt_tree.specs.Document.{IsNamed, have_names};

use fdt_tree::{NodeId, Tree};
use std::alloc::AllocError;
use tree_parts::add_empty;

/// Whether a property of this name binds a device to the host.
#[tactic(auto, unfolding(crate::specs::Copies::is_binding))]
fn is_binding(name: &[u8]) -> bool
    ensures { result ≡ is_binding name.now }
{
    name == b"xen,reg".as_slice()
        || name == b"xen,path".as_slice()
        || name == b"xen,force-assign-without-iommu".as_slice()
}

/// Gives a node the properties of another, but those that bind a device to the host.
fn copy_properties(
    tree: &mut Tree,
    copy: NodeId,
    source: &Tree,
    node: NodeId,
) -> Result<(), AllocError>
    requires copy_live { copy < length tree.old.places }
    requires live { node < length source.now.places }
    requires named { IsNamed source.now }
    ensures { OnOk result (tree.new ≡ with_more tree.old copy (kept (properties_of source.now node))) }
{
    for index in 0..source.prop_count(node) {
        let (name, value) = source.prop_at(node, index);
        if !is_binding(name) {
            tree.add_prop(copy, name, value)?;
        }
    }
    Ok(())
}

/// Copies a node that is not the root, without the nodes below it, as a last child.
fn copy_node(
    tree: &mut Tree,
    parent: NodeId,
    source: &Tree,
    node: NodeId,
) -> Result<NodeId, AllocError>
    requires parent_live { parent < length tree.old.places }
    requires live { node < length source.now.places }
    requires below { place_of source.now node ≢ [] }
    requires named { IsNamed source.now }
    ensures ok { OnOk result (tree.new ≡ with_node tree.old (place_of tree.old parent) (name_of source.now node) (kept (properties_of source.now node))) }
    ensures newest { IfOk result (λ copy. copy ≡ length tree.old.places) }
{
    tree.numbering();
    let copy = add_empty(tree, parent, source.name(node))?;
    copy_properties(tree, copy, source, node)?;
    Ok(copy)
}

/// Copies what is below a node, as last children.
fn copy_children(
    tree: &mut Tree,
    parent: NodeId,
    source: &Tree,
    node: NodeId,
) -> Result<(), AllocError>
    requires parent_live { parent < length tree.old.places }
    requires live { node < length source.now.places }
    requires named { IsNamed source.now }
    ensures { OnOk result (Grows tree.old tree.new parent (cleaned_in (children_of source.now node))) }
{
    source.numbering();
    let mut next = source.first_child(node);
    while let Some(child) = next {
        tree.numbering();
        let copy = copy_node(tree, parent, source, child)?;
        copy_children(tree, copy, source, child)?;
        next = source.next_sibling(child);
    }
    Ok(())
}

/// Copies the node that a path finds, if there is one, and all below it, as a last child.
fn copy_found(tree: &mut Tree, parent: NodeId, source: &Tree, path: &[u8]) -> Result<(), AllocError>
    requires parent_live { parent < length tree.old.places }
    requires named { IsNamed source.now }
    requires below { find_place source.now.tree path.now ≢ Some [] }
    ensures { OnOk result (Grows tree.old tree.new parent (trees_of (copied (Some source.now.tree) path.now))) }
{
    tree.numbering();
    source.numbering();
    match source.find(path) {
        None => Ok(()),
        Some(node) => {
            let copy = copy_node(tree, parent, source, node)?;
            copy_children(tree, copy, source, node)
        }
    }
}

/// Copies all that is copied from a partial tree.
pub(crate) fn add_copies(tree: &mut Tree, parent: NodeId, partial: &Tree) -> Result<(), AllocError>
    requires { parent < length tree.old.places }
    ensures { OnOk result (Grows tree.old tree.new parent (trees_of (copies (Some partial.now.tree)))) }
{
    partial.names();
    copy_found(tree, parent, partial, b"/passthrough")?;
    copy_found(tree, parent, partial, b"/aliases")?;
    copy_found(tree, parent, partial, b"/__symbols__")
}
