//! Boot scripts: reading one, and running it on a device tree.
#![tactic(auto)]

mod classes;
mod commands;
pub mod laws;
mod machine;
mod numbers;
mod script;
mod words;

pub use machine::{Machine, StepFault, StepWhy, run, tree_load};
pub use script::{LineWhy, ScriptFault, parse};
