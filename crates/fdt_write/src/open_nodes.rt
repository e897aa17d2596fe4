// The nodes that a walk over a tree is in.
ghost use Rattle.std.specs.Prelude.{◌≡◌, ◌==◌, length, ◌∷◌, List, [], drop, OnOk};
ghost use Rattle.fdt_tree.specs.Tree.{Bytes};
ghost use Rattle.fdt_write.specs.Opened.{path_below, path_inside, shown};

use std::alloc::{AllocError, Global};
use std::marker::Model;

/// The nodes that a walk over a tree is in, which contracts see as their paths, the innermost first. The root's path is
/// empty.
#[derive(Drop)]
pub struct OpenNodes {
    /// The path of the innermost node.
    path: Vec<u8>,
    /// For each node, the outermost first, how many bytes of its path are that of the node above.
    lengths: Vec<usize>,
}

impl Model for OpenNodes {
    ghost use Rattle.std.specs.Prelude.{ℕ, List, reverse};
    ghost use Rattle.fdt_write.specs.Opened.{paths};

    ghost Value = { List (List ℕ) };

    ghost view = { λ nodes. paths nodes.path.items (reverse nodes.lengths.items) };
}

impl OpenNodes {
    /// No nodes. Takes no memory.
    pub fn new(alloc: Global) -> OpenNodes
        ensures { result ≡ [] }
    {
        OpenNodes {
            path: Vec::new(alloc),
            lengths: Vec::new(alloc),
        }
    }

    /// Goes into a node of this name inside the innermost one, or, where there is none, into the root, whatever its name.
    /// After want of memory the nodes are no matter.
    pub fn enter(&mut self, name: &[u8]) -> Result<(), AllocError>
        ensures { OnOk result (self.new ≡ path_inside self.old name.now ∷ self.old) }
    {
        let above = self.path.len();
        if self.lengths.is_empty() {
            // Nothing is above the root, whatever was there before.
            self.path.clear();
        } else {
            append_name(&mut self.path, name)?;
        }
        self.lengths.push(above)?;
        Ok(())
    }

    /// Leaves the innermost node, if there is one.
    pub fn leave(&mut self)
        ensures { self.new ≡ drop 1 self.old }
    {
        if let Some(above) = self.lengths.pop() {
            self.path.truncate(above);
        }
    }

    /// Whether the walk is in no node.
    pub fn is_empty(&self) -> bool
        ensures { result ≡ (length self.now == 0) }
    {
        self.lengths.is_empty()
    }

    /// The path of the innermost node, as it is shown: `/` for the root.
    pub fn shown(&self) -> &[u8]
        ensures { (path : Bytes) (others : List Bytes) → self.now ≡ path ∷ others → result.now ≡ shown path }
    {
        let path = self.path.as_slice();
        if path.is_empty() { b"/" } else { path }
    }
}

/// Goes on from the path of a node to that of a node of this name below it.
fn append_name(path: &mut Vec<u8>, name: &[u8]) -> Result<(), AllocError>
    ensures { OnOk result (path.new.items ≡ path_below path.old.items name.now) }
{
    path.push(b'/')?;
    path.extend_from_slice(name)
}
