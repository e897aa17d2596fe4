// Why no tables were built.
ghost use Rattle.std.specs.Prelude.{◌≡◌};

use std::alloc::AllocError;

/// Why no tables were built. A refusal leaves the free frames as they were.
#[derive(Clone, Copy, PartialEq, Eq, Debug)]
pub enum TableFault {
    /// The tables need more frames than are free. Both are counts of frames of 4,096 bytes.
    NoFrame { needed: u64, free: u64 },
    /// Enough frames are free, but no two consecutive ones from an even one on, as the root tables need.
    NoPair { needed: u64, free: u64 },
    /// No memory was left for the image or for the pool.
    Memory,
}

impl From<AllocError> for TableFault {
    ghost use Rattle.stage2_tables.specs.declared.fault.TableFault.{TableFault};

    ghost from_gives = { λ _ fault. fault ≡ TableFault.Memory };

    fn from(_error: AllocError) -> TableFault {
        TableFault::Memory
    }
}
