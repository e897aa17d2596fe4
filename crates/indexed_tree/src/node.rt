use std::marker::Model;

/// A node of an indexed tree, by number: the root is 0, and each node that is added takes the next number. It is live in
/// the tree that gave it.
#[derive(Debug, Clone, Copy, PartialEq, Eq)]
pub struct IndexedNode {
    pub(crate) number: usize,
}

impl Model for IndexedNode {
    ghost use Rattle.std.specs.Prelude.{ℕ};

    ghost Value = { ℕ };

    ghost view = { λ node. node.number };

    ghost inverse = { λ number. record { number = number } };
}
