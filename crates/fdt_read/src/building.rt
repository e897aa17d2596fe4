// A tree that is being read, token by token.
ghost use Rattle.std.specs.Prelude.{◌≡◌, IsTrue, List, [], ◌∷◌, ◌++◌, OnOk, None, Some, false};
ghost use Rattle.fdt_read.specs.Built.{IsBuilding, IsFine, has_no_nul, ends_names};
ghost use Rattle.fdt_read.specs.Found.{meant};
ghost use Rattle.fdt_read.specs.Tokens.{Token, begin_node, end_node, property, nop, is_final};

use crate::tokens::Found;
use fdt_tree::{Excerpt, NodeId, Tree};
use std::alloc::AllocError;

/// A tree that is being read: its open node, and what is known of the tokens so far.
#[derive(Drop)]
pub struct Building {
    pub tree: Tree,
    /// The open node, if one is.
    pub current: Option<NodeId>,
    /// Whether the root has begun.
    pub started: bool,
    /// Whether the last token that is no PROP and no NOP was END_NODE.
    pub past_child: bool,
    /// How many nodes are open.
    pub level: u32,
}

/// Closes the open node: its parent is open then, if it has one.
fn close(building: &mut Building)
    requires built { (done : List Token) × IsBuilding done building.old }
    requires fine { IsFine building.old end_node }
    ensures { (done : List Token) → IsBuilding done building.old
        → IsBuilding (done ++ end_node ∷ []) building.new }
{
    let Some(node) = building.current else {
        return;
    };
    let above = building.tree.parent(node);
    building.current = above;
    building.past_child = true;
    building.level = building.level.saturating_sub(1);
}

/// Opens the root, or a last child of the open node.
fn begin(building: &mut Building, name: &[u8]) -> Result<(), AllocError>
    requires built { (done : List Token) × IsBuilding done building.old }
    requires fine { IsFine building.old (begin_node name.now) }
    requires no_nul { IsTrue (has_no_nul name.now) }
    ensures { (done : List Token) → IsBuilding done building.old
        → OnOk result (IsBuilding (done ++ begin_node name.now ∷ []) building.new) }
{
    let Some(parent) = building.current else {
        building.current = Some(building.tree.root());
        building.started = true;
        building.past_child = false;
        building.level = 1;
        return Ok(());
    };
    match building.tree.add_node(parent, name) {
        Ok(node) => {
            building.current = Some(node);
            building.past_child = false;
            building.level = building.level.saturating_add(1);
            Ok(())
        }
        Err(_) => Err(AllocError),
    }
}

/// Gives the open node a last property.
fn give(building: &mut Building, name: &Excerpt, value: &Excerpt) -> Result<(), AllocError>
    requires built { (done : List Token) × IsBuilding done building.old }
    requires fine { IsFine building.old (property (Some name.now) value.now) }
    requires no_nul { IsTrue (has_no_nul name.now) }
    ensures { (done : List Token) → IsBuilding done building.old
        → OnOk result (IsBuilding (done ++ property (Some name.now) value.now ∷ []) building.new) }
{
    let Some(node) = building.current else {
        return Err(AllocError);
    };
    building.tree.add_shared_prop(node, name, value)
}

/// Takes a token that has no fault and is not the last.
pub fn apply(building: &mut Building, found: &Found) -> Result<(), AllocError>
    requires built { (done : List Token) × IsBuilding done building.old }
    requires fine { IsFine building.old (meant found.now) }
    requires no_nul { IsTrue (ends_names (meant found.now)) }
    requires goes_on { is_final (meant found.now) ≡ false }
    ensures { (done : List Token) → IsBuilding done building.old
        → OnOk result (IsBuilding (done ++ meant found.now ∷ []) building.new) }
{
    match found {
        Found::Begin(name) => begin(building, name),
        Found::EndNode => {
            close(building);
            Ok(())
        }
        Found::Property(Some(name), value) => give(building, name, value),
        Found::Nop => Ok(()),
        Found::Property(None, _) | Found::End | Found::Broken => unreachable!(),
    }
}
