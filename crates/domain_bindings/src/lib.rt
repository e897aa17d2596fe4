//! What a host tree describes: the host's items, and the guests with theirs (Xen, docs/misc/arm/device-tree/booting.txt).
#![tactic(auto)]

mod domain;
mod heads;
mod host;
mod host_devices;
mod memory;
mod modules;
mod ram;
mod reasons;
mod roles;
mod statics;

pub use domain::{Domain, read_domains};
pub use host::{Host, read_host};
