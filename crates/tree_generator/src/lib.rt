//! A device tree that is generated for a number, to try a build on.
#![tactic(auto)]

mod generated;
mod guest;

pub use generated::{generate, generated_tree};
