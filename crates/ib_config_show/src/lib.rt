//! The program `ib_config_show`: it prints what a configuration of ImageBuilder says, one line a variable that is set or
//! has a value, and one line a name that has no effect; or why the configuration is refused.
#![tactic(auto)]

mod filter;
mod guest;
pub mod laws;
mod line;
mod settings;
mod showing;
mod top;
mod word;

pub use filter::IbConfigShow;
pub use top::run;
