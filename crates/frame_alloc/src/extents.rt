// Extents: runs of consecutive free frames, and the list of those of sorted ranges.
ghost use Rattle.std.specs.Prelude.{◌≡◌, ◌+◌, ◌-◌, ◌^◌, ◌<◌, ◌≤◌, ◌++◌, length, IfOk, OnOk};
ghost use Rattle.texts.specs.Consecutive.{numbers};
ghost use Rattle.frame_alloc.specs.Frames.{frames_in, AreFrameRanges};
ghost use Rattle.frame_alloc.specs.Extents.{frames_of, AreExtentsFrom};
ghost use Rattle.frame_alloc.specs.PrivateExtents.{end_from};
ghost use Rattle.frame_alloc.specs.Slots.{extents_in, IsExtentList};
ghost use Rattle.frame_alloc.specs.PrivateLinks.{last_used};

use crate::extent_list::{ExtentList, change, insert_after};
use std::alloc::{AllocError, Global};
use texts::FrameRange;

/// A run of free frames: `count` of them, from frame `first` on. A frame is a host page of 4,096 bytes, named by its
/// address divided by 4,096.
#[derive(Clone, Copy, PartialEq, Eq, Debug)]
pub struct Extent {
    pub first: u64,
    pub count: u64,
}

impl Extent {
    /// The frames from `first` on that lie below `end`.
    pub fn between(first: u64, end: u64) -> Extent
        requires { first ≤ end }
        ensures { result ≡ record { first = first; count = end - first } }
    {
        Extent {
            first,
            count: end - first,
        }
    }
}

/// The extents of sorted ranges: ranges that touch become one extent, and empty ones none.
pub fn extents_of(alloc: Global, ranges: &[FrameRange]) -> Result<ExtentList, AllocError>
    requires { AreFrameRanges ranges.now }
    ensures frames { IfOk result (λ list. frames_of (extents_in list) ≡ frames_in ranges.now) }
    ensures whole { IfOk result (λ list. IsExtentList list) }
{
    let mut list = ExtentList {
        slots: Vec::new(alloc),
        first: None,
        unused: None,
        unused_count: 0,
    };
    let mut last = None;
    for range in ranges {
        last = add_range(&mut list, last, *range)?;
    }
    Ok(list)
}

/// Adds the frames of a range that begins at or above the end of the extents, and answers the last slot.
fn add_range(
    list: &mut ExtentList,
    last: Option<usize>,
    range: FrameRange,
) -> Result<Option<usize>, AllocError>
    requires whole { IsExtentList list.old }
    requires last { last ≡ last_used list.old }
    requires after { end_from 0 (extents_in list.old) ≤ range.first }
    requires low { range.first + range.count ≤ 2 ^ 28 }
    ensures frames { OnOk result (frames_of (extents_in list.new) ≡ frames_of (extents_in list.old) ++ numbers range.first range.count) }
    ensures whole { OnOk result (IsExtentList list.new) }
    ensures end { OnOk result (end_from 0 (extents_in list.new) ≤ range.first + range.count) }
    ensures last { IfOk result (λ now. now ≡ last_used list.new) }
{
    if range.count == 0 {
        return Ok(last);
    }
    if let Some(index) = last {
        let extent = list.slots[index].extent;
        if extent.first + extent.count == range.first {
            let longer = Extent {
                first: extent.first,
                count: extent.count + range.count,
            };
            change(list, index, longer);
            return Ok(last);
        }
    }
    let extent = Extent {
        first: range.first,
        count: range.count,
    };
    let index = insert_after(list, last, extent)?;
    Ok(Some(index))
}

/// How many frames there are.
pub fn frame_count(list: &ExtentList) -> u64
    requires { IsExtentList list.now }
    ensures { result ≡ length (frames_of (extents_in list.now)) }
{
    let mut total = 0;
    let mut at = list.first;
    while let Some(index) = at {
        let slot = list.slots[index];
        total += slot.extent.count;
        at = slot.after;
    }
    total
}
