// The plan of a description.
ghost use Rattle.std.specs.Prelude.{◌≡◌, ◌+◌, ◌^◌, ◌≤◌, ℕ, All, List, [], None, map, Ok, Err, IfOk, IfErr};
ghost use Rattle.frame_alloc.specs.Frames.{AreFrames};
ghost use Rattle.domain_plan.specs.Arguments.{AreRead};
ghost use Rattle.item_checks.specs.Taken.{Passed, passed_of};
ghost use Rattle.item_checks.specs.Entries.{joined};
ghost use Rattle.item_checks.specs.Layouts.{IsLayout};
ghost use Rattle.item_checks.specs.Refusals.{first_refused};
ghost use Rattle.domain_plan.specs.Draws.{free_frames};
ghost use Rattle.domain_plan.specs.Plans.{Draws, placed_of, draws, outcome, AreGuestPlans};

use crate::draws::{draw_for_guests, free_pool};
use crate::guest_plan::guest_plan;
use crate::planned::{GuestPlan, Plan};
use crate::runs::{Run, draw_for_regions};
use described::Loaded;
use domain_bindings::Host;
use item_checks::{Guest, PlanFault, check_all};
use std::alloc::{AllocError, Global};
use texts::{FrameRange, List};

/// What every guest is to be given, by its items and by what it drew.
fn guest_plans(
    alloc: Global,
    host: &Host,
    loads: &List<Loaded>,
    guests: &List<Guest>,
    runs: &List<Run>,
    drawn: &List<Vec<FrameRange>>,
) -> Result<List<GuestPlan>, AllocError>
    requires read { AreRead host.now loads.now guests.now }
    requires clear { first_refused host.now [] (joined host.now loads.now guests.now) ≡ None }
    requires drawn { (left : List ℕ) × (draws guests.now host.now.ram (passed_of host.now loads.now guests.now) ≡ Ok (record { runs = runs.now; heaps = record { drawn = map (λ frames. frames.items) drawn.now; left = left } })) }
    ensures { IfOk result (λ plans. AreGuestPlans host.now (placed_of runs.now host.now loads.now guests.now) 0 guests.now (map (λ frames. frames.items) drawn.now) plans) }
{
    let _ = loads;
    let guests = guests.as_slice();
    let runs = runs.as_slice();
    let drawn = drawn.as_slice();
    let mut plans = List::new(alloc);
    for i in 0..guests.len() {
        let plan = guest_plan(alloc, host, i as u64, &guests[i], runs, drawn[i].as_slice())?;
        plans.push(plan)?;
    }
    Ok(plans)
}

/// What every guest is to be given, and the frames that are left. Refused comes exactly where an item of the host, a
/// load, a module of dom0, an item of a guest, a region's request for frames or a guest's request for memory has a reason
/// against it; it names the first such item in that order, with its first reason. Memory is want of memory. The four areas
/// of each guest's layout are whole pages, and no two of them meet. The arguments are as the readers give them.
pub fn plan(
    alloc: Global,
    host: &Host,
    loads: &List<Loaded>,
    guests: &List<Guest>,
) -> Result<Plan, PlanFault>
    requires { AreRead host.now loads.now guests.now }
    ensures ascending { IfOk result (λ plan. AreFrames plan.pool.free) }
    ensures planned { IfOk result (λ plan. (draws : Draws) × (outcome host.now loads.now guests.now ≡ Ok draws)
        × (plan.pool.free ≡ draws.heaps.left) × AreGuestPlans host.now (placed_of draws.runs host.now loads.now guests.now) 0 guests.now draws.heaps.drawn plan.guests) }
    ensures layouts { IfOk result (λ plan. All (λ guest. IsLayout guest.layout) plan.guests) }
    ensures refused { IfErr result (λ fault. (item : _) → (why : _) → fault ≡ PlanFault.Refused item why → outcome host.now loads.now guests.now ≡ Err (item, why)) }
{
    let state = check_all(alloc, host, loads, guests)?;
    let mut pool = free_pool(alloc, &host.ram, state.claims())?;
    let runs = draw_for_regions(alloc, &mut pool, state.regions())?;
    let drawn = draw_for_guests(alloc, &mut pool, guests.as_slice())?;
    let guests = guest_plans(alloc, host, loads, guests, &runs, &drawn)?;
    let _ = pool.free_frames();
    Ok(Plan { guests, pool })
}
