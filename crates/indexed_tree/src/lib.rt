//! Device trees that are edited by name in the time of a search: the children of a node, its properties and the nodes that
//! have a phandle are found in sorted maps, however many there are.
#![tactic(auto)]

mod arena;
mod copies;
mod entry;
mod holder_map;
mod names;
mod node;
mod own_bytes;
mod phandles;
mod properties;
mod tree;
mod trees;

pub use node::IndexedNode;
pub use tree::IndexedTree;
