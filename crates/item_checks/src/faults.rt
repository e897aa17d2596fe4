// Why there is no plan.
use described::{Item, Why};
use std::alloc::AllocError;

/// Why there is no plan.
#[derive(Debug, Drop)]
pub enum PlanFault {
    /// The first item that has a reason against it, with its first reason.
    Refused(Item, Why),
    /// There is no memory for the plan.
    Memory,
}

/// Want of memory is the fault Memory.
impl From<AllocError> for PlanFault {
    ghost use Rattle.std.specs.Prelude.{◌≡◌};
    ghost use Rattle.item_checks.specs.declared.faults.PlanFault.{PlanFault};

    ghost from_gives = { λ _ fault. fault ≡ PlanFault.Memory };

    fn from(_error: AllocError) -> PlanFault {
        PlanFault::Memory
    }
}
