//! The writer of flattened device trees (Devicetree Specification 0.4, chapter 5): a tree has one canonical row of bytes.
#![tactic(auto)]

mod blocks;
mod fault;
mod flat;
pub mod laws;
mod names;
mod open_nodes;
mod sizes;
mod tree_tokens;

pub use fault::WriteFault;
pub use flat::write;
pub use open_nodes::OpenNodes;
pub use tree_tokens::{TreeToken, TreeTokens};
