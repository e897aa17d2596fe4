//! The image files of guests, whose tables are drawn from one pool, guest by guest.
#![tactic(auto)]

mod fault;
mod image;
mod images;
mod names;

pub use fault::ImagesFault;
pub use images::{GuestImage, build_images};
pub use names::{make_guest_name, make_image_name};
