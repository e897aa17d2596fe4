//! The build of what is described.
ghost use Rattle.std.specs.Prelude.{◌≡◌, IfErr, IfOk, IsTrue, Ok, not};
ghost use Rattle.std.specs.List.{list_all};
ghost use Rattle.std.specs.Option.{option_copied};
ghost use Rattle.fdt_read.specs.Reservations.{is_last_pair};
ghost use Rattle.run_steps.specs.Steps.{nothing};
ghost use Rattle.run_steps.specs.Stops.{IsOwnDue};
ghost use Rattle.domain_plan.specs.Descriptions.{description_of};
ghost use Rattle.build_outputs.specs.Builds.{AfterItems};
ghost use Rattle.build_outputs.specs.Promises.{IsBuildOf};
ghost use Rattle.build_outputs.specs.Made.{files_in};

use crate::lengths::write_tree;
use crate::names::HOST;
use crate::refusals::{images_stop, plan_stop};
use crate::report::make_report;
use crate::totals::{Totals, count_totals};
use crate::trees::write_trees;
use crate::written::{name_images, put_in_turn};
use described::Loaded;
use domain_plan::{Plan, plan_tree};
use fdt_tree::{Reserve, Tree};
use guest_fdt::laws::{plans_are_bounded, plans_are_few, trees_list_the_guests};
use guest_images::build_images;
use run_steps::{Output, Stop};
use std::alloc::Global;
use texts::{Bytes, List};

/// What a build writes.
#[derive(Drop)]
pub struct Built {
    /// The files in their order: the host's tree, and guest by guest what is written for it.
    pub outputs: List<Output>,
    /// The report: the lines of each guest, and of the frames that are left.
    pub report: Bytes,
    /// What it comes to over all guests.
    pub totals: Totals,
}

/// What is written for the guests that a host's tree describes; or the first of all described items that is refused, with
/// the first reason against it, as a stop with its message.
///
/// `reserves` are the tree's reservations and `boot` is the physical number of the boot processor (Devicetree
/// Specification 0.4, 5.2). `loads` are the files that were loaded, and `partials` has, for each guest in document order,
/// its partial device tree, where that was read. The outputs have their names in `folder`, where one is given.
pub fn build_described(
    alloc: Global,
    tree: &Tree,
    reserves: &[Reserve],
    boot: u32,
    loads: &List<Loaded>,
    partials: &[Option<Tree>],
    folder: Option<&str>,
) -> Result<Built, Stop>
    requires { IsTrue (list_all (λ reserve. not (is_last_pair reserve)) reserves.now) }
    // Nothing is refused, and the files, the report and the totals are those of the plan; the images isolate the guests.
    ensures built { IfOk result (λ built. IsBuildOf boot (description_of tree.now reserves.now loads.now partials.now) (option_copied folder.entry) (files_in built.outputs) built.report built.totals) }
    // Memory ran out, or the first refused item is said with the first reason against it.
    ensures stopped { IfErr result (λ stop. IsOwnDue (AfterItems boot (description_of tree.now reserves.now loads.now partials.now) nothing) stop) }
{
    let Plan {
        guests: planned,
        mut pool,
    } = match plan_tree(alloc, tree, reserves, loads, partials) {
        Ok(plan) => plan,
        Err(fault) => return Err(plan_stop(alloc, fault)),
    };
    let guests = planned.as_slice();
    plans_are_bounded();
    plans_are_few();
    trees_list_the_guests();
    let images = match build_images(alloc, guests, &mut pool) {
        Ok(images) => images,
        Err(fault) => return Err(images_stop(alloc, fault)),
    };
    let host = match write_tree(alloc, HOST, tree, reserves, boot) {
        Ok(host) => host,
        Err(stop) => return Err(stop),
    };
    let trees = match write_trees(alloc, folder, guests, partials) {
        Ok(trees) => trees,
        Err(stop) => return Err(stop),
    };
    let left = pool.free_frames();
    let totals = count_totals(guests, images.as_slice(), left);
    let report = make_report(alloc, guests, images.as_slice(), left)?;
    let images = name_images(alloc, folder, guests, images)?;
    let outputs = put_in_turn(alloc, folder, host, trees, images)?;
    Ok(Built {
        outputs,
        report,
        totals,
    })
}
