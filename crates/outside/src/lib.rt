//! The outside of a program: its exit statuses, and the traits by which it reaches files, outputs and streams, each with a
//! form in memory.
#![tactic(auto)]

mod fake_files;
mod fake_outs;
mod fake_sink;
mod files;
mod outs;
mod places;
mod sink;
mod status;
mod sure;

pub use fake_files::MemFiles;
pub use fake_outs::MemOuts;
pub use fake_sink::MemSink;
pub use files::{FileError, Files, SizeError};
pub use outs::{Failed, Outs};
pub use sink::Sink;
pub use status::Status;
pub use sure::{NullOuts, NullSink, SureFiles};
