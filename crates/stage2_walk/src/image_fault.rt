// Why a file is refused.
ghost use Rattle.std.specs.Prelude.{◌≡◌};

use std::alloc::{AllocError, AllocFailed};

/// Why a file is no image. Pages are counted from 0, in the order of the file.
#[derive(Clone, Copy, PartialEq, Eq, Debug)]
pub enum ImageFault {
    /// It has fewer than 24 bytes, or begins with other bytes than `S2IMAGE1`.
    Magic,
    /// Its length is not 24 bytes and 4,104 bytes for each page.
    Length,
    /// The frame of this page is 2^28 or more.
    TooHigh(u64),
    /// The frame of this page stands earlier.
    FrameTwice(u64),
    /// The root is odd, or one of the two root pages is missing.
    Root,
    /// No memory was left.
    Memory,
}

impl From<AllocError> for ImageFault {
    ghost use Rattle.stage2_walk.specs.declared.image_fault.ImageFault.{ImageFault};

    ghost from_gives = { λ _ fault. fault ≡ ImageFault.Memory };

    fn from(_error: AllocError) -> ImageFault {
        ImageFault::Memory
    }
}

impl<T: Drop> From<AllocFailed<T>> for ImageFault {
    ghost use Rattle.stage2_walk.specs.declared.image_fault.ImageFault.{ImageFault};

    ghost from_gives = { λ _ fault. fault ≡ ImageFault.Memory };

    fn from(_error: AllocFailed<T>) -> ImageFault {
        ImageFault::Memory
    }
}
