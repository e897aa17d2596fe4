// Why a tree is not printed, and why a text is not read.
ghost use Rattle.std.specs.Prelude.{◌≡◌};
ghost use Rattle.source_text.specs.declared.fault.PrintFault.TheVariants as print_faults;
ghost use Rattle.source_text.specs.declared.fault.SourceFault.TheVariants as source_faults;

use std::alloc::{AllocError, AllocFailed};
use texts::Bytes;

/// Why a tree is not printed.
#[derive(Debug, Drop)]
pub enum PrintFault {
    /// The node at this path is the first whose own name, or that of one of its properties, has a character that source
    /// cannot have there.
    BadName(Bytes),
    /// No memory was left.
    Memory,
}

impl From<AllocError> for PrintFault {
    ghost from_gives = { λ _ e. e ≡ print_faults.Memory };

    fn from(_e: AllocError) -> PrintFault {
        PrintFault::Memory
    }
}

/// Why a text is not read.
#[derive(Debug, Drop)]
pub enum SourceFault {
    /// The text says nothing. It departs from every source at this offset.
    Syntax(u64),
    /// No memory was left.
    Memory,
}

impl From<AllocError> for SourceFault {
    ghost from_gives = { λ _ e. e ≡ source_faults.Memory };

    fn from(_e: AllocError) -> SourceFault {
        SourceFault::Memory
    }
}
