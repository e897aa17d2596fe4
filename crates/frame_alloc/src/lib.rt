//! Host frames: the pool of those that are free, and what is drawn from it (chunks, pairs, runs and single frames); and
//! ranges of frames: which frames bytes touch, whether ranges have frames in common or lie in others, and what is left of
//! some without others, where no frame is looked at one by one.
#![tactic(auto)]

mod extent_list;
mod extents;
mod groups;
mod pool;
mod ranges;
mod removal;
mod slots;
mod sweep;

pub use pool::{FramePool, PoolFault};
pub use ranges::{lies_in, meet, meets_any, touched, touched_from};
pub use sweep::{frames_left, gaps};
