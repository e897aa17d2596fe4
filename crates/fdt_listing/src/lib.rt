//! The listing of a device tree as text: its reservations, its nodes by their paths, and their properties.
#![tactic(auto)]

mod lines;
mod listing;

pub use listing::list;
