//! The step of a run that reads a configuration of ImageBuilder, for programs that are about configurations alone.
#![tactic(auto)]

mod reading;

pub use reading::read_config_file;
