//! Refused items as stops of a run.
ghost use Rattle.std.specs.Prelude.{◌≡◌, ◌⊎◌, Some, None};
ghost use Rattle.described.specs.Items.{refusal_text};
ghost use Rattle.run_steps.specs.Stops.{IsOwnDue};
ghost use Rattle.item_checks.specs.Refusals.{Refusal};
ghost use Rattle.build_outputs.specs.Builds.{IsItemRefusal};

use described::{Item, Why, append_refusal};
use guest_images::ImagesFault;
use item_checks::PlanFault;
use outside::Status;
use run_steps::Stop;
use std::alloc::Global;
use texts::Bytes;

/// The stop at a refused item.
pub(crate) fn refused(alloc: Global, item: &Item, why: &Why) -> Stop
    ensures { IsOwnDue (IsItemRefusal (item.now, why.now)) result }
{
    let mut message = Bytes::new(alloc);
    match append_refusal(alloc, &mut message, item, why) {
        Ok(()) => Stop::Because(Status::Refused, message),
        Err(_) => Stop::Memory,
    }
}

/// The stop where there is no plan.
pub fn plan_stop(alloc: Global, fault: PlanFault) -> Stop
    ensures said { (item : _) → (why : _) → fault ≡ PlanFault.Refused item why → IsOwnDue (IsItemRefusal (item, why)) result }
    ensures memory { fault ≡ PlanFault.Memory → result ≡ Stop.Memory }
{
    match fault {
        PlanFault::Refused(item, why) => refused(alloc, &item, &why),
        PlanFault::Memory => Stop::Memory,
    }
}

/// The stop where there are no images.
pub(crate) fn images_stop(alloc: Global, fault: ImagesFault) -> Stop
    ensures said { (item : _) → (why : _) → fault ≡ ImagesFault.Refused item why → IsOwnDue (IsItemRefusal (item, why)) result }
    ensures memory { fault ≡ ImagesFault.Memory → result ≡ Stop.Memory }
{
    match fault {
        ImagesFault::Refused(item, why) => refused(alloc, &item, &why),
        ImagesFault::Memory => Stop::Memory,
    }
}
