//! The types and traits that all programs share, under one name: texts, numbers and ranges of `texts`, the outside of
//! `outside`, items and maps of `described`.
#![tactic(auto)]

pub use described::{
    Described, Item, Kind, Layout, Loaded, MapRange, ModuleKind, Part, What, Why, described,
    is_not_page, is_too_high, is_too_large, usual_layout,
};
pub use outside::{
    Failed, FileError, Files, MemFiles, MemOuts, MemSink, NullOuts, NullSink, Outs, Sink,
    SizeError, Status, SureFiles,
};
pub use texts::{BaseSize, Bytes, FrameRange, List, NumberFault, Text, cut, mark_at, read_number};
