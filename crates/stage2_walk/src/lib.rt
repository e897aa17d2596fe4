//! Stage 2 table images (Arm ARM, VMSAv8-64 stage 2 translation, 4 KB granule, two concatenated root tables): their
//! words, the walk through them, and their file.
#![tactic(auto)]

mod audit;
mod audit_fault;
mod bytes;
mod descriptor;
mod file;
mod image;
mod image_fault;
mod levels;
mod page_index;
mod places;
mod reached;
mod read;
mod run;
mod run_list;
mod table_words;
mod walk;

pub use audit::runs;
pub use audit_fault::AuditFault;
pub use descriptor::Meaning;
pub use image::Image;
pub use image_fault::ImageFault;
pub use levels::pages_spanned;
pub use read::read_image;
pub use run::Run;
pub use table_words::{Counted, TableWords};
pub use walk::Step;
