//! Device trees in memory (Devicetree Specification 0.4, chapter 2): a tree that grows by nodes and properties, paths in
//! it, and the values of properties.
#![tactic(auto)]

mod cell_counts;
mod edit_fault;
mod excerpt;
mod node;
mod node_id;
mod phandle_map;
mod reserve;
mod slots;
mod tree;
mod values;
mod walk;

pub use cell_counts::{BadCells, cells};
pub use edit_fault::EditFault;
pub use excerpt::Excerpt;
pub use node_id::NodeId;
pub use phandle_map::{PhandleFault, PhandleMap, highest_phandle, phandles};
pub use reserve::Reserve;
pub use tree::Tree;
pub use values::{BadLength, has_string, u32_of, u64_of};
pub use walk::{Visit, Walk};
