//! The device tree that is written for a guest, and what a reader finds in it.
#![tactic(auto)]

mod build;
mod copies;
pub mod laws;
mod machine;
mod nodes;
mod parts;

pub use build::build_tree;
