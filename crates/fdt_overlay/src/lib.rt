//! The call of the program that applies device tree overlays to a base tree; what an overlay makes of a tree is that of
//! `overlaid_trees`, and found here too.
#![tactic(auto)]

mod applier;
pub mod laws;
mod lines;
mod no_report;
mod prepare;
mod top;
mod words;

pub use applier::FdtOverlay;
pub use overlaid_trees::{OverlayFault, apply};
pub use top::run;
