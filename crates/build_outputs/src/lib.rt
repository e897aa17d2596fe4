//! What a build writes: the trees of the host and of all guests, their images and the report, from what is described; or the first
//! described item that is refused.
#![tactic(auto)]

mod build;
mod lengths;
mod names;
mod refusals;
mod report;
mod report_guests;
mod report_lines;
mod totals;
mod trees;
mod written;

pub use build::{Built, build_described};
pub use refusals::plan_stop;
pub use report_lines::append_generated;
pub use totals::Totals;
