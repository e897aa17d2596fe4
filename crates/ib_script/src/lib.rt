//! The commands of a boot script, and their text.
#![tactic(auto)]

mod command;
mod guests;
mod lines;
mod links;
mod machine;
mod make;
mod modules;
mod names;
mod phandles;
mod properties;
mod script;
mod start;
mod words;

pub use command::{Command, Piece};
pub use lines::print;
pub use make::{HostFacts, LoadKind, MakeFault, commands};
