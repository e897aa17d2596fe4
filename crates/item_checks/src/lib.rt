//! The judging of described items: the first that is refused with its first reason, or what all of them take.
#![tactic(auto)]

mod checking;
mod earliest;
mod faults;
mod guests;
mod irqs;
mod layouts;
mod passing;
mod reasons;
mod regions;
mod state;
mod takes;
mod takings;

pub use checking::{check_all, is_read, partial_items};
pub use faults::PlanFault;
pub use guests::{Guest, PartialState};
pub use passing::takes_of;
pub use reasons::Takes;
pub use state::{Owner, Region, State, Taken};
pub use takes::BANK_SIZE;
