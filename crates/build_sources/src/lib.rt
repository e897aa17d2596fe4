//! What a build stands on, from where it begins: a configuration, a script with a tree, or a ready tree. The files are
//! read, the script is made and run, and the guests' partial device trees are read.
#![tactic(auto)]

mod configuration;
mod loads;
mod messages;
mod partials;
mod replay;
mod script;
mod source;
mod stand;

pub use configuration::{Made, make_script};
pub use partials::read_partials;
pub use source::{folder_of, read_source};
pub use stand::Stand;
