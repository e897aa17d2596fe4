//! Why no images are built.
ghost use Rattle.std.specs.Prelude.{◌≡◌};
ghost use Rattle.guest_images.specs.declared.fault.ImagesFault.TheVariants.{Memory};

use described::{Item, Why};
use std::alloc::{AllocError, AllocFailed};

/// Why no images are built.
#[derive(Debug, Drop)]
pub enum ImagesFault {
    /// The first guest that cannot have its tables: its request as an item, and `NoTableFrame` with the tables needed and
    /// the frames left.
    Refused(Item, Why),
    /// Memory ran out.
    Memory,
}

impl From<AllocError> for ImagesFault {
    ghost from_gives = { λ _ fault. fault ≡ Memory };

    fn from(_error: AllocError) -> ImagesFault {
        ImagesFault::Memory
    }
}

impl<T: Drop> From<AllocFailed<T>> for ImagesFault {
    ghost from_gives = { λ _ fault. fault ≡ Memory };

    fn from(_error: AllocFailed<T>) -> ImagesFault {
        ImagesFault::Memory
    }
}
