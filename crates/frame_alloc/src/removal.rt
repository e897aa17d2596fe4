// Taking frames away from extents.
ghost use Rattle.std.specs.Prelude.{◌≡◌, ◌≤◌, ◌+◌, ◌^◌, drop, OnOk, OnErr};
ghost use Rattle.frame_alloc.specs.Frames.{lowest_frame, without};
ghost use Rattle.frame_alloc.specs.Extents.{frames_of};
ghost use Rattle.frame_alloc.specs.Slots.{extents_in, spare_of, IsExtentList};
ghost use Rattle.frame_alloc.specs.PrivateLinks.{IsUnchanged};

use crate::extent_list::{ExtentList, change, insert_after, remove};
use crate::extents::Extent;
use std::alloc::AllocError;

/// Takes the lowest frame away, and answers it. None exactly where there is no frame. Takes no memory.
pub fn take_lowest(list: &mut ExtentList) -> Option<u64>
    requires { IsExtentList list.old }
    ensures lowest_frame { result ≡ lowest_frame (frames_of (extents_in list.old)) }
    ensures rest { frames_of (extents_in list.new) ≡ drop 1 (frames_of (extents_in list.old)) }
    ensures whole { IsExtentList list.new }
    ensures spare { spare_of list.old ≤ spare_of list.new }
{
    match list.first {
        None => None,
        Some(index) => {
            let front = list.slots[index].extent;
            if front.count == 1 {
                remove(list, index);
            } else {
                let rest = Extent {
                    first: front.first + 1,
                    count: front.count - 1,
                };
                change(list, index, rest);
            }
            Some(front.first)
        }
    }
}

/// Takes those frames away that lie among `count` frames from `first` on. It splits one extent at most, and takes a
/// slot for that before it changes anything. After want of memory the extents are as they were.
pub fn remove_range(list: &mut ExtentList, first: u64, count: u64) -> Result<(), AllocError>
    requires whole { IsExtentList list.old }
    requires low { first + count ≤ 2 ^ 28 }
    ensures ok { OnOk result (frames_of (extents_in list.new) ≡ without first count (frames_of (extents_in list.old))) }
    ensures err { OnErr result (IsUnchanged list.old list.new) }
    ensures kept { IsExtentList list.new }
    ensures full { OnErr result (spare_of list.old ≡ 0) }
    ensures room { spare_of list.old ≤ spare_of list.new + 1 }
{
    if count == 0 {
        return Ok(());
    }
    let end = first + count;
    let mut at = list.first;
    while let Some(index) = at {
        let slot = list.slots[index];
        let extent = slot.extent;
        let extent_end = extent.first + extent.count;
        if end <= extent.first {
            return Ok(());
        }
        if first < extent_end {
            if extent.first < first {
                if end < extent_end {
                    insert_after(list, Some(index), Extent::between(end, extent_end))?;
                    change(list, index, Extent::between(extent.first, first));
                    return Ok(());
                }
                change(list, index, Extent::between(extent.first, first));
            } else if end < extent_end {
                change(list, index, Extent::between(end, extent_end));
                return Ok(());
            } else {
                remove(list, index);
            }
        }
        at = slot.after;
    }
    Ok(())
}
