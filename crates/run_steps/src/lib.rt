//! The steps that the runs of this project's programs are made of: files are read within limits and measured, what was made
//! is written, and a message is said on one line behind the program's name.
#![tactic(auto)]

mod lines;
mod messages;
mod names;
mod output;
mod reading;
mod sizes;
mod stop;
mod writing;

pub use lines::say;
pub use messages::make_file_message;
pub use names::join;
pub use output::{Build, Output};
pub use reading::read_file;
pub use sizes::{measure, measure_all};
pub use stop::Stop;
pub use writing::write_all;
