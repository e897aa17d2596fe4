//! The audit of the images of guests, hostile ones included: each is read from its file, tested and compared with what its
//! guest is planned to be given. An auditor needs to trust neither the builder of the images nor who sent them.
#![tactic(auto)]

mod audit;
mod differences;
mod finding;
mod findings_text;
mod frames;

pub use audit::audit_images;
pub use findings_text::make_checked_line;
