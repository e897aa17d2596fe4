//! Configurations of ImageBuilder: the lines of a file, the variables that they assign, and the values and defaults of
//! these.
#![tactic(auto)]

mod assignments;
mod classes;
mod config;
mod fault;
mod groups;
mod guests;
mod lines;
mod names;
mod settings;
mod shown;
mod unused;
mod values;
mod variables;

pub use config::{Config, read_config};
pub use fault::ConfigFault;
pub use groups::{PortGroup, ShmGroup};
