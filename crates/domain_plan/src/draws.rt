// Drawing memory from the free frames.
ghost use Rattle.std.specs.Prelude.{◌≡◌, ℕ, List, None, Some, map, length, Ok, Err, IfOk, IfErr, IfSome, All, ◌+◌, ◌^◌, ◌≤◌};
ghost use Rattle.described.specs.declared.why.Why.TheVariants as whys;
ghost use Rattle.frame_alloc.specs.Frames.{lowest_chunk, lowest_frame, AreFrameRanges};
ghost use Rattle.item_checks.specs.Taken.{Passed};
ghost use Rattle.item_checks.specs.Standing.{taken_from, claims_taken};
ghost use Rattle.domain_plan.specs.Draws.{Drawn, Heaps, groups_drawn, drawn, heaps, free_frames};

use described::{Item, Part, Why};
use frame_alloc::{FramePool, PoolFault, frames_left};
use item_checks::{Guest, PlanFault, Taken};
use std::alloc::{AllocError, Global};
use texts::{Bytes, FrameRange, List};

/// Takes so many chunks, each the lowest; None where one is missing.
fn draw_chunks(
    alloc: Global,
    pool: &mut FramePool,
    count: u64,
) -> Result<Option<Vec<FrameRange>>, AllocError>
    ensures some { IfOk result (λ drawn. IfSome drawn (λ frames. groups_drawn lowest_chunk 512 count pool.old.free ≡ Some (record { frames = frames.items; left = pool.new.free }))) }
    ensures none { IfOk result (λ drawn. drawn ≡ None → groups_drawn lowest_chunk 512 count pool.old.free ≡ None) }
{
    let mut frames = Vec::new(alloc);
    for _ in 0..count {
        match pool.take_chunk() {
            Ok(first) => frames.push(FrameRange { first, count: 512 })?,
            Err(PoolFault::NoChunk) => return Ok(None),
            Err(PoolFault::NoPair | PoolFault::NoRun) => unreachable!(),
            Err(PoolFault::Memory) => return Err(AllocError),
        }
    }
    Ok(Some(frames))
}

/// Takes so many frames, each the lowest; None where one is missing.
fn draw_frames(
    alloc: Global,
    pool: &mut FramePool,
    count: u64,
) -> Result<Option<Vec<FrameRange>>, AllocError>
    ensures some { IfOk result (λ drawn. IfSome drawn (λ frames. groups_drawn lowest_frame 1 count pool.old.free ≡ Some (record { frames = frames.items; left = pool.new.free }))) }
    ensures none { IfOk result (λ drawn. drawn ≡ None → groups_drawn lowest_frame 1 count pool.old.free ≡ None) }
{
    let _ = pool.free_frames();
    let mut frames = Vec::new(alloc);
    for _ in 0..count {
        match pool.take_frame() {
            Some(first) => frames.push(FrameRange { first, count: 1 })?,
            None => return Ok(None),
        }
    }
    Ok(Some(frames))
}

/// Takes memory of so many pages: chunks first, and then single frames. None where a chunk or a frame is missing.
pub(crate) fn draw(
    alloc: Global,
    pool: &mut FramePool,
    pages: u64,
) -> Result<Option<Vec<FrameRange>>, AllocError>
    ensures some { IfOk result (λ frames. IfSome frames (λ frames. drawn pages pool.old.free ≡ Some (record { frames = frames.items; left = pool.new.free }))) }
    ensures none { IfOk result (λ frames. frames ≡ None → drawn pages pool.old.free ≡ None) }
{
    let Some(mut frames) = draw_chunks(alloc, pool, pages / 512)? else {
        return Ok(None);
    };
    let Some(singles) = draw_frames(alloc, pool, pages % 512)? else {
        return Ok(None);
    };
    frames.extend_from_slice(singles.as_slice())?;
    Ok(Some(frames))
}

/// Takes the memory of each guest in their order, or names the first guest whose memory cannot be had.
pub(crate) fn draw_for_guests(
    alloc: Global,
    pool: &mut FramePool,
    guests: &[Guest],
) -> Result<List<Vec<FrameRange>>, PlanFault>
    ensures drawn { IfOk result (λ all. heaps guests.now pool.old.free ≡ Ok (record { drawn = map (λ frames. frames.items) all; left = pool.new.free })) }
    ensures refused { IfErr result (λ fault. (item : Item) → (why : Why) → fault ≡ PlanFault.Refused item why → heaps guests.now pool.old.free ≡ Err (item, why)) }
{
    let mut all = List::new(alloc);
    for guest in guests {
        let free = pool.free_frames();
        match draw(alloc, pool, guest.domain.pages)? {
            Some(frames) => all.push(frames)?,
            None => {
                let mut path = Bytes::new(alloc);
                path.append(guest.domain.path.as_slice())?;
                let item = Item {
                    part: Part::Heap,
                    path,
                    index: 0,
                };
                return Err(PlanFault::Refused(item, Why::NoRam(guest.domain.pages, free)));
            }
        }
    }
    Ok(all)
}

/// The ranges of frames that items claim.
fn claimed_ranges(alloc: Global, claims: &[Taken]) -> Result<Vec<FrameRange>, AllocError>
    ensures { IfOk result (λ ranges. ranges.items ≡ map (λ taken. taken.range) claims.now) }
{
    claims.iter().map(|taken| taken.range).collect(alloc)
}

/// The frames of the host's memory that no item claims.
pub(crate) fn free_pool(
    alloc: Global,
    ram: &List<FrameRange>,
    claims: &[Taken],
) -> Result<FramePool, AllocError>
    requires sorted { AreFrameRanges ram.now }
    requires low { All (λ taken. taken.range.first + taken.range.count ≤ 2 ^ 28) claims.now }
    ensures { IfOk result (λ pool. (passed : List Passed) → claims.now ≡ taken_from claims_taken 0 passed → pool.free ≡ free_frames ram.now passed) }
{
    let taken = claimed_ranges(alloc, claims)?;
    let free = frames_left(alloc, ram.as_slice(), taken)?;
    let pool = FramePool::new(alloc, &free)?;
    Ok(pool)
}
