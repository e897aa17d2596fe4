// The runs of frames that shared regions without a host address draw.
ghost use Rattle.std.specs.Prelude.{◌≡◌, ◌+◌, ◌*◌, ◌/◌, ◌<◌, List, [], ◌∷◌, ◌++◌, All, None, Ok, Err, IfOk, OnOk, IfErr, IfSome};
ghost use Rattle.described.specs.declared.why.Why.TheVariants as whys;
ghost use Rattle.frame_alloc.specs.Frames.{lowest_run, without};
ghost use Rattle.domain_plan.specs.Regions.{region_item, runs_drawn, host_in, placed_item};
ghost use Rattle.domain_plan.specs.PrivateRuns.{has_id, is_run_of, is_requested, request_of, asked, requests_in};

use described::{Described, Item, Part, What, Why};
use frame_alloc::{FramePool, PoolFault};
use item_checks::{PlanFault, Region};
use std::alloc::{AllocError, Global};
use texts::{Bytes, List};

/// The run of frames that was drawn for the shared regions of an id.
#[derive(Debug, Drop)]
pub struct Run {
    /// The id.
    pub id: Bytes,
    /// The host address of its first frame.
    pub host: u64,
}

/// Whether one of the regions has that id.
fn has_id(regions: &[Region], id: &[u8]) -> bool
    ensures { result ≡ has_id regions.now id.now }
{
    regions.iter().any(|region| id == region.id.as_slice())
}

/// Whether a region after others is to be drawn: it has no host address, and is the first of its id.
fn is_requested(before: &[Region], region: &Region) -> bool
    ensures { result ≡ is_requested before.now region.now }
{
    if region.host.is_some() {
        return false;
    }
    !has_id(before, region.id.as_slice())
}

/// The request for a region's frames, which cannot be met.
fn no_run(alloc: Global, region: &Region, count: u64, free: u64) -> Result<PlanFault, AllocError>
    ensures { IfOk result (λ fault. fault ≡ PlanFault.Refused (region_item (request_of region.now)) (whys.NoRam count free)) }
{
    let item = Item {
        part: Part::Region,
        path: region.item.path.copy(alloc)?,
        index: 0,
    };
    Ok(PlanFault::Refused(item, Why::NoRam(count, free)))
}

/// Takes the lowest run of a region's frames, and answers its host address.
fn draw_run(alloc: Global, pool: &mut FramePool, region: &Region) -> Result<Run, PlanFault>
    requires { 0 < region.now.size / 4096 }
    ensures drawn { IfOk result (λ run. runs_drawn (request_of region.now ∷ []) pool.old.free ≡ Ok (record { runs = run ∷ []; left = pool.new.free })) }
    ensures refused { IfErr result (λ fault. (item : Item) → (why : Why) → fault ≡ PlanFault.Refused item why → runs_drawn (request_of region.now ∷ []) pool.old.free ≡ Err (item, why)) }
{
    let count = region.size / 4096;
    let free = pool.free_frames();
    match pool.take_run(count) {
        Ok(first) => {
            let host = first * 4096;
            let id = region.id.copy(alloc)?;
            Ok(Run { id, host })
        }
        Err(PoolFault::NoRun) => Err(no_run(alloc, region, count, free)?),
        Err(_) => Err(PlanFault::Memory),
    }
}

/// Takes the frames of a region after others where it is to be drawn, and adds their run.
fn draw_asked(
    alloc: Global,
    pool: &mut FramePool,
    runs: &mut List<Run>,
    before: &[Region],
    region: &Region,
) -> Result<(), PlanFault>
    requires { 0 < region.now.size / 4096 }
    ensures drawn { OnOk result ((more : List Run) × (runs.new ≡ runs.old ++ more) × (runs_drawn (asked before.now region.now) pool.old.free ≡ Ok (record { runs = more; left = pool.new.free }))) }
    ensures refused { IfErr result (λ fault. (item : Item) → (why : Why) → fault ≡ PlanFault.Refused item why → runs_drawn (asked before.now region.now) pool.old.free ≡ Err (item, why)) }
{
    if !is_requested(before, region) {
        return Ok(());
    }
    let run = draw_run(alloc, pool, region)?;
    runs.push(run)?;
    Ok(())
}

/// Takes the frames of each region that is to be drawn, in their order, or names the first whose frames cannot be had.
pub(crate) fn draw_for_regions(
    alloc: Global,
    pool: &mut FramePool,
    regions: &[Region],
) -> Result<List<Run>, PlanFault>
    requires { All (λ region. 0 < region.size / 4096) regions.now }
    ensures drawn { IfOk result (λ runs. runs_drawn (requests_in [] regions.now) pool.old.free ≡ Ok (record { runs = runs; left = pool.new.free })) }
    ensures refused { IfErr result (λ fault. (item : Item) → (why : Why) → fault ≡ PlanFault.Refused item why → runs_drawn (requests_in [] regions.now) pool.old.free ≡ Err (item, why)) }
{
    let mut runs = List::new(alloc);
    for i in 0..regions.len() {
        draw_asked(alloc, pool, &mut runs, &regions[..i], &regions[i])?;
    }
    Ok(runs)
}

/// Whether a run was drawn for that id.
fn is_run_of(run: &Run, id: &[u8]) -> bool
    ensures { result ≡ is_run_of id.now run.now }
{
    id == run.id.as_slice()
}

/// The host address of a region that has none: that of the run of its id.
fn run_host(runs: &[Run], id: &[u8]) -> Option<u64>
    ensures { result ≡ host_in runs.now id.now None }
{
    for run in runs {
        if is_run_of(run, id) {
            return Some(run.host);
        }
    }
    None
}

/// A reason that may be missing.
fn copy_reason(alloc: Global, why: &Option<Why>) -> Result<Option<Why>, AllocError>
    ensures { IfOk result (λ copy. copy ≡ why.now) }
{
    match why {
        Some(why) => Ok(Some(why.copy(alloc)?)),
        None => Ok(None),
    }
}

/// An item that describes a region without a host address, at that of its run. None where the item stays as it is.
pub(crate) fn placed_item(
    alloc: Global,
    runs: &[Run],
    described: &Described,
) -> Result<Option<Described>, AllocError>
    ensures placed { IfOk result (λ placed. IfSome placed (λ placed. placed ≡ placed_item runs.now described.now)) }
    ensures stays { IfOk result (λ placed. placed ≡ None → placed_item runs.now described.now ≡ described.now) }
{
    match &described.what {
        What::Shared {
            id,
            host,
            guest,
            size,
            owner,
        } => {
            if host.is_some() {
                return Ok(None);
            }
            let base = run_host(runs, id.as_slice());
            let name = id.copy(alloc)?;
            let item = described.item.copy(alloc)?;
            let own = copy_reason(alloc, &described.own)?;
            let what = What::Shared {
                id: name,
                host: base,
                guest: *guest,
                size: *size,
                owner: *owner,
            };
            Ok(Some(Described { item, own, what }))
        }
        _ => Ok(None),
    }
}
