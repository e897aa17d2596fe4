//! The outside as it is: files of the file system, streams, and the words of the command line; and the start of every program
//! over them.
#![tactic(auto)]

mod command_line;
mod folder;
mod replaced;
mod starting;
mod stream;

pub use command_line::{unread_words, words};
pub use folder::Folder;
pub use starting::{VERSION, start, start_filter};
pub use stream::Stream;
