//! Device tree overlays, as `dtc` writes them with symbols, applied to a base tree.
#![tactic(auto)]

mod applied;
mod children;
mod copies;
mod depths;
mod digits;
mod fault;
mod fragments;
mod held;
mod local_words;
mod merge;
mod resolve;
mod shift;
mod spots;
mod targets;
mod values;
mod word_values;

pub use applied::apply;
pub use fault::OverlayFault;
