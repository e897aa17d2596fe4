//! What U-Boot and Xen trip over in a configuration of ImageBuilder that is right by its own rules: each variable with
//! what happens, as it was seen with U-Boot 2023.01 and Xen 4.17.
#![tactic(auto)]

mod configuration;
mod guests;
mod rows;
mod shown;
mod warning;

pub use configuration::lint;
pub use warning::{Trouble, Variable, Warning};
