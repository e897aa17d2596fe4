// Why a run stops before its first write.
ghost use Rattle.std.specs.Prelude.{◌≡◌};
ghost use Rattle.run_steps.specs.declared.stop.Stop.TheVariants.{Memory};

use outside::Status;
use std::alloc::{AllocError, AllocFailed};
use texts::Bytes;

/// Why a run stops before its first write: memory ran out, or a status with the message that says why.
#[derive(Drop)]
pub enum Stop {
    /// Memory ran out.
    Memory,
    /// The run ends with this status, and the message is said.
    Because(Status, Bytes),
}

impl From<AllocError> for Stop {
    ghost from_gives = { λ _ e. e ≡ Memory };

    fn from(_e: AllocError) -> Stop {
        Stop::Memory
    }
}

impl<T: Drop> From<AllocFailed<T>> for Stop {
    ghost from_gives = { λ _ e. e ≡ Memory };

    fn from(_e: AllocFailed<T>) -> Stop {
        Stop::Memory
    }
}
