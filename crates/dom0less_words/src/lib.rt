//! The words of the command line: what they ask for, or why they are refused.
#![tactic(auto)]

mod asked;
mod command;
mod options;
mod read;

pub use asked::{Asked, ScriptAsked, Source};
pub use read::{WordsFault, read_words};
