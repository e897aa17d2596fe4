//! Builds the least stage 2 tables of ranges of guest pages, in frames of a pool.
#![tactic(auto)]

mod build;
mod draw;
mod fault;
pub mod laws;
mod leaf;
mod least;
mod regions;
mod spread;
mod sweep;
mod words;

pub use build::build_tables;
pub use fault::TableFault;
