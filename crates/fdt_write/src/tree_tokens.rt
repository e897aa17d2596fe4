// The tokens that spell a tree, one after another.
ghost use Rattle.std.specs.Prelude.{◌≡◌, ◌∷◌, List, All, IfNone, IfSome};
ghost use Rattle.fdt_tree.specs.Visits.{IsLive};
ghost use Rattle.fdt_tree.specs.declared.walk.Visit.{Visit};
ghost use Rattle.fdt_read.specs.Spelling.{spelled_whole};
ghost use Rattle.fdt_write.specs.Left.{tokens_of, left_at, AreLive, HasLiveNode};
ghost use Rattle.fdt_write.specs.Meaning.{meaning};

use fdt_tree::{NodeId, Tree, Visit, Walk};
use std::marker::Model;

/// A token of the structure block (Devicetree Specification 0.4, 5.4.1), with what it holds of the tree.
#[derive(Clone, Copy)]
pub enum TreeToken<'a> {
    /// A node of this name begins. The root's name is empty.
    BeginNode(&'a [u8]),
    /// The innermost node that is open has a property of this name and this value.
    Property(&'a [u8], &'a [u8]),
    /// The innermost node that is open ends.
    EndNode,
    /// The tree ends.
    End,
}

/// Where the tokens of a tree stand.
#[derive(Clone, Copy)]
pub(crate) enum Step {
    /// Before the next visit of the walk.
    Between,
    /// Before the property of this number of this node, or past its last one.
    Inside(NodeId, usize),
    /// After END.
    Done,
}

/// The tokens that spell a tree, one after another (Devicetree Specification 0.4, 5.4.2). Takes no memory. Contracts see
/// the tokens that are left.
#[derive(Drop)]
pub struct TreeTokens<'a> {
    tree: &'a Tree,
    walk: Walk<'a>,
    step: Step,
}

impl<'a> Model for TreeTokens<'a> {
    ghost use Rattle.std.specs.Prelude.{List};
    ghost use Rattle.fdt_read.specs.Tokens.{Token};

    ghost Value = { List Token };

    ghost use Rattle.fdt_write.specs.Left.{left_at, AreLive};

    ghost view = { λ tokens. left_at tokens.tree.now tokens.walk tokens.step };

    ghost invariant = { λ tokens. AreLive tokens.tree.now tokens.walk tokens.step };
}

impl<'a> TreeTokens<'a> {
    /// All tokens of a tree, in document order.
    pub fn new(tree: &'a Tree) -> TreeTokens<'a>
        ensures { result ≡ spelled_whole tree.now.tree }
    {
        TreeTokens {
            tree,
            walk: Walk::new(tree),
            step: Step::Between,
        }
    }
}

/// The token that a visit begins with, and where the tokens stand after it.
fn visited<'a>(tree: &'a Tree, visit: Visit) -> (TreeToken<'a>, Step)
    requires { IsLive tree.now visit }
    ensures token { (left : List Visit) → tokens_of tree.now (visit ∷ left) ≡ meaning result.0 ∷ left_at tree.now left result.1 }
    ensures live { HasLiveNode tree.now result.1 }
{
    match visit.entered() {
        Some(node) => (TreeToken::BeginNode(tree.name(node)), Step::Inside(node, 0)),
        None => (TreeToken::EndNode, Step::Between),
    }
}

/// The token of the next visit of a walk, or END, and where the tokens stand after it.
fn next_visited<'a>(tree: &'a Tree, walk: &mut Walk<'a>) -> (TreeToken<'a>, Step)
    requires { All (IsLive tree.now) walk.old }
    ensures token { tokens_of tree.now walk.old ≡ meaning result.0 ∷ left_at tree.now walk.new result.1 }
    ensures live { AreLive tree.now walk.new result.1 }
{
    match walk.next() {
        Some(visit) => visited(tree, visit),
        None => (TreeToken::End, Step::Done),
    }
}

/// The next token, and where the tokens stand after it; none after END.
fn next_token<'a>(tree: &'a Tree, walk: &mut Walk<'a>, step: Step) -> Option<(TreeToken<'a>, Step)>
    requires { AreLive tree.now walk.old step }
    ensures token { IfSome result (λ next. left_at tree.now walk.old step ≡ meaning next.0 ∷ left_at tree.now walk.new next.1) }
    ensures live { IfSome result (λ next. AreLive tree.now walk.new next.1) }
    ensures end { IfNone result (step ≡ Step.Done) }
    ensures kept { IfNone result (walk.new ≡ walk.old) }
{
    match step {
        Step::Done => None,
        Step::Between => Some(next_visited(tree, walk)),
        Step::Inside(node, index) => {
            if index < tree.prop_count(node) {
                let (name, value) = tree.prop_at(node, index);
                Some((
                    TreeToken::Property(name, value),
                    Step::Inside(node, index + 1),
                ))
            } else {
                Some(next_visited(tree, walk))
            }
        }
    }
}

impl<'a> Iterator for TreeTokens<'a> {
    type Item = TreeToken<'a>;

    ghost use Rattle.std.specs.Iterator.{YieldsFirstBy, item_count};
    ghost use Rattle.fdt_write.specs.Meaning.{meaning};

    ghost next_gives = { YieldsFirstBy meaning (λ tokens. tokens) };

    ghost remaining = { item_count (λ tokens. tokens) };

    fn next(&mut self) -> Option<TreeToken<'a>> {
        match next_token(self.tree, &mut self.walk, self.step) {
            None => None,
            Some((token, step)) => {
                self.step = step;
                Some(token)
            }
        }
    }
}
