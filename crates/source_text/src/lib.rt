//! Device tree source (Devicetree Specification 0.4, appendix A): the one printed text of a tree, and a reader of a
//! stated subset.
#![tactic(auto)]

mod characters;
mod fault;
mod growing;
pub mod laws;
mod lines;
mod print;
mod read;
mod reading;
mod state;
mod tabs;
mod turns;
mod values;

pub use fault::{PrintFault, SourceFault};
pub use print::print_source;
pub use read::{Source, read_source};
