//! The reader of flattened device trees (Devicetree Specification 0.4, chapter 5): a file is read as reservations, a
//! boot processor and a tree, or its first fault is named with its offset.
#![tactic(auto)]

mod building;
mod fault;
mod flat;
mod header;
pub mod laws;
mod reservations;
mod strings;
mod structure;
mod token_fault;
mod tokens;
mod words;

pub use fault::FdtFault;
pub use flat::{Flat, read};
