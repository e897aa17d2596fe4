//! Where the files of a configuration are loaded: one after the other, each at a multiple of 2 MiB.
#![tactic(auto)]

mod order;
mod places;

pub use order::files;
pub use places::{FilePlace, PlaceFault, Places, place};
