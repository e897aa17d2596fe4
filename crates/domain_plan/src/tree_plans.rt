//! The plan of a host's tree.
ghost use Rattle.std.specs.Prelude.{◌≡◌, All, IfErr, IfOk, Ok};
ghost use Rattle.described.specs.Maps.{AreMapRanges, AreMerged};
ghost use Rattle.domain_plan.specs.Apart.{ArePlannedApart};
ghost use Rattle.domain_plan.specs.Descriptions.{description_of};
ghost use Rattle.domain_plan.specs.TreePlans.{IsFaultOf, is_common, plan_of};

use crate::planned::Plan;
use crate::planning::plan;
use crate::tree_guests::read_guests;
use described::Loaded;
use domain_bindings::read_host;
use fdt_tree::{Reserve, Tree};
use item_checks::PlanFault;
use std::alloc::Global;
use texts::List;

/// What every guest that a host's tree describes is given, and the frames that are left for tables; or the first item
/// that is refused, with the first reason against it. `reserves` are the tree's reservations, `loads` the files that were
/// loaded, and `partials` has, for each guest in document order, its partial device tree, where that was read; a guest
/// past their end has none that was read.
pub fn plan_tree(
    alloc: Global,
    tree: &Tree,
    reserves: &[Reserve],
    loads: &List<Loaded>,
    partials: &[Option<Tree>],
) -> Result<Plan, PlanFault>
    // Exactly the plan that the description determines.
    ensures planned { IfOk result (λ plan. plan_of (description_of tree.now reserves.now loads.now partials.now) ≡ Ok (record { guests = plan.guests; free = plan.pool.free })) }
    // Exactly the first refused item with its first reason.
    ensures refused { IfErr result (IsFaultOf (plan_of (description_of tree.now reserves.now loads.now partials.now))) }

    // What images are built from: maps in sorted, merged ranges, and apart from each other and from the frames left.
    ensures sorted { IfOk result (λ plan. All (λ guest. AreMapRanges guest.ranges) plan.guests) }
    ensures merged { IfOk result (λ plan. All (λ guest. AreMerged guest.ranges) plan.guests) }
    ensures apart { IfOk result (λ plan. ArePlannedApart (is_common (description_of tree.now reserves.now loads.now partials.now)) plan.guests plan.pool.free) }
{
    let host = read_host(alloc, tree, reserves)?;
    let guests = read_guests(alloc, tree, partials)?;
    plan(alloc, &host, loads, &guests)
}
