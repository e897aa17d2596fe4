//! The call of the program that prints trees as device tree source and builds them of it; the printer, the reader and their
//! laws are those of `source_text`, and found here too.
#![tactic(auto)]

pub mod laws;
mod messages;
mod prepare;
mod text_building;
mod top;
mod translator;
mod tree_printing;
mod words;

pub use source_text::{PrintFault, Source, SourceFault, print_source, read_source};
pub use top::run;
pub use translator::FdtSource;
