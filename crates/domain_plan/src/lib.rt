//! The plan of a host's device tree: every guest's map and the frames that are left, or the first item that is refused
//! (Xen, docs/misc/arm/device-tree/booting.txt, dom0less).
#![tactic(auto)]

mod draws;
mod giving;
mod guest_plan;
pub mod laws;
mod ordering;
mod planned;
mod planning;
mod runs;
mod tree_guests;
mod tree_plans;

pub use item_checks::{Guest, PartialState, PlanFault};
pub use planned::{GuestPlan, Plan};
pub use planning::plan;
pub use runs::Run;
pub use tree_plans::plan_tree;
