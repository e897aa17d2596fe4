//! The program `ib_lint`: it prints what U-Boot and Xen trip over in a configuration of ImageBuilder, one line a warning,
//! `VARIABLE: what happens`; or why the configuration is refused.
#![tactic(auto)]

mod filter;
mod judging;
pub mod laws;
mod linting;
mod top;

pub use filter::IbLint;
pub use top::run;
