//! The devices that a guest is given, as its partial device tree describes them.
#![tactic(auto)]

mod counts;
mod device;
mod devices;
mod facts;
mod gic;
mod hosts;
mod interrupts;
mod items;
mod ranges;
mod read;
mod seen;
mod whole;

pub use interrupts::Interrupt;
pub use read::{Partial, read_partial};
