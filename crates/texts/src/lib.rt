//! Texts, numbers and ranges, which every crate stands on: bytes that are written to, texts that can be compared, lists
//! that keep their order, and how numbers are read and written.
#![tactic(auto)]

mod bytes;
mod list;
mod number;
mod pieces;
mod ranges;
mod text;

pub use bytes::Bytes;
pub use list::List;
pub use number::{NumberFault, read_number};
pub use pieces::{cut, mark_at};
pub use ranges::{BaseSize, FrameRange};
pub use text::Text;
