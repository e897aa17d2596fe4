// Runs of consecutive free frames, and groups: runs that begin at a multiple of their size.
ghost use Rattle.std.specs.Prelude.{◌≡◌, ◌+◌, ◌^◌, ◌<◌, ◌≤◌, IfSome};
ghost use Rattle.frame_alloc.specs.Frames.{lowest_run, lowest_group, chunk_count};
ghost use Rattle.frame_alloc.specs.Extents.{frames_of};
ghost use Rattle.frame_alloc.specs.Slots.{extents_in, IsExtentList};

use crate::extent_list::ExtentList;

/// How many frames a chunk has.
pub const CHUNK_SIZE: u64 = 512;

/// How many frames a pair has.
pub const PAIR_SIZE: u64 = 2;

/// The first frame of the lowest run of `count` frames. A run lies in one extent, since extents do not touch.
pub fn lowest_run(list: &ExtentList, count: u64) -> Option<u64>
    requires whole { IsExtentList list.now }
    requires some { 0 < count }
    ensures lowest { result ≡ lowest_run count (frames_of (extents_in list.now)) }
    ensures low { IfSome result (λ first. first + count ≤ 2 ^ 28) }
{
    let mut at = list.first;
    while let Some(index) = at {
        let slot = list.slots[index];
        let extent = slot.extent;
        if count <= extent.count {
            return Some(extent.first);
        }
        at = slot.after;
    }
    None
}

/// The first frame of the lowest group of `size` frames. A group lies in one extent, since extents do not touch, and the
/// first multiple of `size` in an extent is the only one to try.
pub fn lowest_group(list: &ExtentList, size: u64) -> Option<u64>
    requires whole { IsExtentList list.now }
    requires some { 0 < size }
    requires small { size ≤ 2 ^ 28 }
    ensures lowest { result ≡ lowest_group size (frames_of (extents_in list.now)) }
    ensures low { IfSome result (λ first. first + size ≤ 2 ^ 28) }
{
    let mut at = list.first;
    while let Some(index) = at {
        let slot = list.slots[index];
        let extent = slot.extent;
        let first = extent.first.next_multiple_of(size);
        if first + size <= extent.first + extent.count {
            return Some(first);
        }
        at = slot.after;
    }
    None
}

/// How many chunks there are.
pub fn chunks_in(list: &ExtentList) -> u64
    requires { IsExtentList list.now }
    ensures { result ≡ chunk_count (frames_of (extents_in list.now)) }
{
    let mut total = 0;
    let mut at = list.first;
    while let Some(index) = at {
        let slot = list.slots[index];
        let extent = slot.extent;
        let end = extent.first + extent.count;
        total += (end / CHUNK_SIZE).saturating_sub(extent.first.div_ceil(CHUNK_SIZE));
        at = slot.after;
    }
    total
}
