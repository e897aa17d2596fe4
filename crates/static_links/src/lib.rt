//! What domains share: regions of memory, and event channels.
#![tactic(auto)]

mod channels;
mod nodes;
mod ports;
mod shared;

pub use ports::read_ports;
pub use shared::read_shared;
