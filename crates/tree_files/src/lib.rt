//! The steps of a run that read and write the file of a flattened tree.
#![tactic(auto)]

mod messages;
mod reading;
mod writing;

pub use reading::{TreeFile, read_flattened, read_tree};
pub use writing::{one_output, write_tree};
