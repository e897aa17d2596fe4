//! The program `fdt_canonical`: it rewrites a flattened device tree in its canonical spelling, or says why the tree is
//! refused.
#![tactic(auto)]

mod canonical;
mod filter;
pub mod laws;
mod respelling;
mod top;

pub use filter::FdtCanonical;
pub use top::run;
