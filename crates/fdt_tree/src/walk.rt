// The nodes of a tree in document order.
ghost use Rattle.std.specs.Prelude.{◌≡◌, ◌<◌, ◌≤◌, [], length, map, All, IfNone, IfSome};
ghost use Rattle.fdt_tree.specs.Tree.{depth_limit};
ghost use Rattle.fdt_tree.specs.Document.{place_of, children_of, IsNumbering};
ghost use Rattle.fdt_tree.specs.Visits.{visits, visits_below, entered, seen, IsLive};
ghost use Rattle.fdt_tree.specs.Upcoming.{visits_left};
ghost use Rattle.fdt_tree.specs.PrivateTurns.{opened_after, IsTurn};
ghost use Rattle.fdt_tree.specs.declared.walk.Step.TheVariants.{Entered, Left};

use crate::node_id::NodeId;
use crate::tree::Tree;
use std::marker::Model;

/// What a walk over a tree meets next.
#[derive(Clone, Copy)]
pub enum Visit {
    /// A node is entered, before its children.
    Enter(NodeId),
    /// The innermost node that was entered is left, after its children.
    Leave,
}

impl Visit {
    /// The node that is entered; none where a node is left.
    pub fn entered(self) -> Option<NodeId>
        ensures { result ≡ entered self }
    {
        match self {
            Visit::Enter(node) => Some(node),
            Visit::Leave => None,
        }
    }
}

/// Where a walk stands at a node.
#[derive(Clone, Copy)]
pub(crate) enum Step {
    /// Before it is entered.
    Before,
    /// After it was entered.
    Entered,
    /// After it was left.
    Left,
}

/// A walk over a whole tree, or over the nodes below one of its nodes, in document order (Devicetree Specification 0.4,
/// 5.4.2): each node is entered, then its children are visited in their order, then it is left. Takes no memory, and time
/// in what is visited alone. Contracts see the visits that are to come.
#[derive(Drop)]
pub struct Walk<'a> {
    tree: &'a Tree,
    node: NodeId,
    step: Step,
    /// How many nodes are entered and not yet left. The walk ends before it leaves a node that it did not enter.
    opened: usize,
}

impl<'a> Model for Walk<'a> {
    ghost use Rattle.std.specs.Prelude.{List};
    ghost use Rattle.fdt_tree.specs.declared.walk.Visit.{Visit};

    ghost Value = { List Visit };

    ghost use Rattle.fdt_tree.specs.Upcoming.{upcoming, IsAt};

    ghost view = { λ walk. upcoming walk.tree.now walk.node walk.step walk.opened };

    ghost invariant = { λ walk. IsAt walk.tree.now walk.node walk.step walk.opened };
}

impl<'a> Walk<'a> {
    /// A walk over all nodes of a tree, from the root on.
    pub fn new(tree: &'a Tree) -> Walk<'a>
        ensures visits { map (seen tree.now) result ≡ visits tree.now.tree }
        ensures live { All (IsLive tree.now) result }
    {
        tree.numbering();
        tree.names();
        Walk {
            tree,
            node: tree.root(),
            step: Step::Before,
            opened: 0,
        }
    }

    /// A walk over all nodes below a node, which is itself neither entered nor left.
    pub fn below(tree: &'a Tree, node: NodeId) -> Walk<'a>
        requires { node < length tree.now.places }
        ensures visits { map (seen tree.now) result ≡ visits_below (children_of tree.now node) (place_of tree.now node) 0 }
        ensures live { All (IsLive tree.now) result }
    {
        tree.numbering();
        tree.names();
        Walk {
            tree,
            node,
            step: Step::Entered,
            opened: 0,
        }
    }
}

/// A visit, and where a walk stands after it.
#[derive(Clone, Copy)]
pub(crate) struct Turn {
    visit: Visit,
    node: NodeId,
    step: Step,
}

/// The turn that enters a node.
fn entering(node: NodeId) -> Turn
    ensures { result ≡ record { visit = Visit.Enter node; node = node; step = Entered } }
{
    Turn {
        visit: Visit::Enter(node),
        node,
        step: Step::Entered,
    }
}

/// The turn that leaves a node.
fn leaving(node: NodeId) -> Turn
    ensures { result ≡ record { visit = Visit.Leave; node = node; step = Left } }
{
    Turn {
        visit: Visit::Leave,
        node,
        step: Step::Left,
    }
}

/// The turn after a node was entered.
fn turn_inside(tree: &Tree, node: NodeId) -> Turn
    requires live { node < length tree.now.places }
    requires numbered { IsNumbering tree.now }
    ensures { IsTurn tree.now node Entered result }
{
    match tree.first_child(node) {
        Some(child) => entering(child),
        None => leaving(node),
    }
}

/// The turn after a node was left, if there is one.
fn turn_past(tree: &Tree, node: NodeId) -> Option<Turn>
    requires live { node < length tree.now.places }
    requires numbered { IsNumbering tree.now }
    ensures turn { IfSome result (IsTurn tree.now node Left) }
    ensures end { IfNone result (visits_left tree.now node Left ≡ []) }
{
    if let Some(sibling) = tree.next_sibling(node) {
        return Some(entering(sibling));
    }
    match tree.parent(node) {
        Some(above) => Some(leaving(above)),
        None => None,
    }
}

/// How many nodes are entered and not yet left after a visit, where so many were before it; none where it leaves a node
/// that was not entered.
fn opened_after(visit: Visit, opened: usize) -> Option<usize>
    requires { opened ≤ depth_limit }
    ensures { result ≡ opened_after visit opened }
{
    match visit {
        Visit::Enter(_) => Some(opened + 1),
        Visit::Leave => opened.checked_sub(1),
    }
}

/// The next turn of a walk that stands at a node, if there is one.
fn next_turn(tree: &Tree, node: NodeId, step: Step) -> Option<Turn>
    requires live { node < length tree.now.places }
    requires numbered { IsNumbering tree.now }
    ensures turn { IfSome result (IsTurn tree.now node step) }
    ensures end { IfNone result (visits_left tree.now node step ≡ []) }
{
    match step {
        Step::Before => Some(entering(node)),
        Step::Entered => Some(turn_inside(tree, node)),
        Step::Left => turn_past(tree, node),
    }
}

impl<'a> Iterator for Walk<'a> {
    type Item = Visit;

    ghost use Rattle.std.specs.Iterator.{YieldsFirst, item_count};

    ghost next_gives = { YieldsFirst (λ walk. walk) };

    ghost remaining = { item_count (λ walk. walk) };

    fn next(&mut self) -> Option<Visit> {
        let Some(turn) = next_turn(self.tree, self.node, self.step) else {
            return None;
        };
        match opened_after(turn.visit, self.opened) {
            None => None,
            Some(opened) => {
                self.node = turn.node;
                self.step = turn.step;
                self.opened = opened;
                Some(turn.visit)
            }
        }
    }
}
