// Nodes that are added to a tree.
ghost use Rattle.std.specs.Prelude.{◌≡◌, ◌<◌, ◌∷◌, [], length, OnOk, IfOk, IsTrue};
ghost use Rattle.fdt_tree.specs.Tree.{is_node_name};
ghost use Rattle.fdt_tree.specs.Document.{place_of, with_child, with_node};
ghost use Rattle.tree_parts.specs.Nodes.{trees_of, leaf, named_at};
ghost use Rattle.tree_parts.specs.Grown.{Grows};
ghost use Rattle.fdt_tree.specs.Document.{have_names};
ghost use Rattle.tree_parts.specs.Rows.{properties};

use fdt_tree::{NodeId, Tree};
use std::alloc::{AllocError, Global};
use texts::Bytes;
use tree_parts::{Row, add_leaf};

/// A name, `@` and an address in hexadecimal digits.
fn spelled_at(alloc: Global, name: &[u8], address: u64) -> Result<Bytes, AllocError>
    ensures { IfOk result (λ named. named ≡ named_at name.now address) }
{
    let digits = format!(in alloc; "{address:x}")?;
    let mut named = Bytes::new(alloc);
    named.append(name)?;
    named.append(b"@")?;
    named.append(digits.as_bytes())?;
    Ok(named)
}

/// A name with a unit address, which is a name that a node may have.
pub(crate) fn name_at(alloc: Global, name: &[u8], address: u64) -> Result<Bytes, AllocError>
    requires { IsTrue (is_node_name name.now) }
    ensures spelled { IfOk result (λ named. named ≡ named_at name.now address) }
    ensures node_name { IfOk result (λ named. IsTrue (is_node_name named)) }
{
    let named = spelled_at(alloc, name, address)?;
    Ok(named)
}

/// Adds a last child with a unit address, with these properties and no children.
pub(crate) fn add_leaf_at(
    alloc: Global,
    tree: &mut Tree,
    parent: NodeId,
    name: &[u8],
    address: u64,
    rows: &[Row<'_>],
) -> Result<(), AllocError>
    requires live { parent < length tree.old.places }
    requires node_name { IsTrue (is_node_name name.now) }
    requires named { IsTrue (have_names (properties rows.now)) }
    ensures { OnOk result (Grows tree.old tree.new parent (trees_of (leaf (named_at name.now address) (properties rows.now) ∷ []))) }
{
    let named = name_at(alloc, name, address)?;
    add_leaf(alloc, tree, parent, named.as_slice(), rows)
}
