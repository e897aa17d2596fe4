//! What a description names: its items, each with the reason against it, and what becomes of them, maps of pages with
//! their kinds and the layout of a guest's own devices.
#![tactic(auto)]

mod item;
mod layout;
mod loaded;
mod map_range;
mod reasons;
mod run_lines;
mod shown;
mod why;

pub use item::{Described, Item, ModuleKind, Part, What};
pub use layout::{Layout, usual_layout};
pub use loaded::Loaded;
pub use map_range::{Kind, MapRange};
pub use reasons::{described, is_not_page, is_too_high, is_too_large};
pub use run_lines::{append_address, append_run, kind_text};
pub use shown::append_refusal;
pub use why::Why;
