// A tree that is being read, token by token.
ghost use Rattle.std.specs.Prelude.{◌≡◌, ◌==◌, ℕ, suc, not, List, [], ◌∷◌, ◌++◌, OnOk, Some};
ghost use Rattle.std.specs.List.{list_all};
ghost use Rattle.fdt_tree.specs.Tree.{is_node_name};
ghost use Rattle.fdt_read.specs.Tokens.{Token, begin_node, end_node, property};
ghost use Rattle.source_text.specs.PrivateTurns.{above};
ghost use Rattle.source_text.specs.PrivateReadings.{IsGrown};

use fdt_tree::{NodeId, Tree};
use std::alloc::AllocError;

/// A tree that is being read, and its open node.
#[derive(Drop)]
pub(crate) struct Growing {
    pub(crate) tree: Tree,
    pub(crate) current: NodeId,
}

/// Whether a byte does not stand in a name.
fn has_no(name: &[u8], byte: u8) -> bool
    ensures { result ≡ list_all (λ c. not (c == byte)) name.now }
{
    name.iter().all(|c| *c != byte)
}

/// Whether a name is one that a node may have in memory: not empty, with no NUL and no `/`.
fn is_name(name: &[u8]) -> bool
    ensures { result ≡ is_node_name name.now }
{
    !name.is_empty() && (has_no(name, 0) && has_no(name, b'/'))
}

/// Opens a last child of the open node. What is read always has a name, and is never too deep.
pub(crate) fn open(growing: &mut Growing, name: &[u8]) -> Result<(), AllocError>
    requires { (tokens : List Token) × (depth : ℕ) × IsGrown tokens depth growing.old }
    ensures { (tokens : List Token) (depth : ℕ) → IsGrown tokens depth growing.old
        → OnOk result (IsGrown (tokens ++ begin_node name.now ∷ []) (suc depth) growing.new) }
{
    if !is_name(name) {
        return Err(AllocError);
    }
    match growing.tree.add_node(growing.current, name) {
        Ok(node) => {
            growing.current = node;
            Ok(())
        }
        Err(_) => Err(AllocError),
    }
}

/// Gives the open node a last property. What is read always has a name, and stands before all children.
pub(crate) fn give(growing: &mut Growing, name: &[u8], value: &[u8]) -> Result<(), AllocError>
    requires { (tokens : List Token) × (depth : ℕ) × IsGrown tokens depth growing.old }
    ensures { (tokens : List Token) (depth : ℕ) → IsGrown tokens depth growing.old
        → OnOk result (IsGrown (tokens ++ property (Some name.now) value.now ∷ []) depth growing.new) }
{
    if !is_name(name) {
        return Err(AllocError);
    }
    match growing.tree.first_child(growing.current) {
        Some(_) => Err(AllocError),
        None => growing.tree.add_prop(growing.current, name, value),
    }
}

/// Closes the open node, which is never the root.
pub(crate) fn close(growing: &mut Growing) -> Result<(), AllocError>
    requires { (tokens : List Token) × (depth : ℕ) × IsGrown tokens depth growing.old }
    ensures { (tokens : List Token) (depth : ℕ) → IsGrown tokens depth growing.old
        → OnOk result (IsGrown (tokens ++ end_node ∷ []) (above depth) growing.new) }
{
    match growing.tree.parent(growing.current) {
        Some(above) => {
            growing.current = above;
            Ok(())
        }
        None => Err(AllocError),
    }
}
