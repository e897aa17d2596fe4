//! Looking at the nodes of a device tree: children, all nodes below a node in document order, paths, properties and lists
//! of entries.
#![tactic(auto)]

mod below;
mod controllers;
mod entries;
mod path_index;
mod paths;
mod properties;

pub use below::{children, descendants, found, nodes};
pub use controllers::{gic, is_gic};
pub use entries::{
    EntriesFault, Window, device_window, device_windows, region, regions, shared_window,
    shared_windows,
};
pub use path_index::PathIndex;
pub use paths::{item_of, path, with_index};
pub use properties::{
    cell_count, has, has_other_length, has_string, is_compatible, is_memory, is_value, own_cells,
    string_at, u32_at, u64_at,
};
