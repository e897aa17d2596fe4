// A list of extents that is linked by index, and the slots that are not in use.
ghost use Rattle.std.specs.Prelude.{◌≡◌, ◌+◌, ◌≤◌, vec_len, vec_capacity, IfOk, OnOk, OnErr};
ghost use Rattle.frame_alloc.specs.Slots.{spare_of, IsLinkedList};
ghost use Rattle.frame_alloc.specs.PrivateLinks.{IsUsed, IsAfter, IsLoose, LosesSlot, ChangesSlot, GainsSlot, FreesSlot, PutsSlot, IsUnchanged};

use crate::extents::Extent;
use crate::slots::{Slot, add_slot, link, unlink};
use std::alloc::AllocError;

/// Extents in one vector of slots: a list of those that hold one, and a list of those that are not in use.
#[derive(Drop)]
pub struct ExtentList {
    pub slots: Vec<Slot>,
    pub first: Option<usize>,
    pub unused: Option<usize>,
    pub unused_count: usize,
}

/// Gives a slot another extent.
pub fn change(list: &mut ExtentList, index: usize, extent: Extent)
    requires { IsUsed list.old index }
    ensures changed { ChangesSlot list.old list.new index extent }
    ensures same { spare_of list.new ≡ spare_of list.old }
{
    let slot = list.slots[index];
    list.slots[index] = Slot {
        extent,
        before: slot.before,
        after: slot.after,
    };
}

/// Takes a slot out of use.
pub fn remove(list: &mut ExtentList, index: usize)
    requires { IsUsed list.old index }
    ensures removed { LosesSlot list.old list.new index }
    ensures spare { spare_of list.new ≡ spare_of list.old + 1 }
{
    unlink(&mut list.slots, &mut list.first, index);
    link(&mut list.slots, &mut list.unused, None, index);
    list.unused_count += 1;
}

/// A slot that stands in neither list: one that was not in use, or a new one. Want of memory comes only where nothing
/// is spare, and changes nothing.
fn take_slot(list: &mut ExtentList) -> Result<usize, AllocError>
    requires { IsLinkedList list.old }
    ensures taken { IfOk result (λ index. FreesSlot list.old list.new index) }
    ensures spare { OnOk result (spare_of list.old ≤ spare_of list.new + 1) }
    ensures err { OnErr result (IsUnchanged list.old list.new) }
    ensures room { OnErr result (spare_of list.old ≡ 0) }
{
    match list.unused {
        Some(index) => {
            unlink(&mut list.slots, &mut list.unused, index);
            list.unused_count -= 1;
            Ok(index)
        }
        None => {
            let index = add_slot(&mut list.slots)?;
            Ok(index)
        }
    }
}

/// Puts a slot that stands in neither list after another one, or at the front, with an extent.
fn put(list: &mut ExtentList, before: Option<usize>, index: usize, extent: Extent)
    requires { IsLoose list.old before index }
    ensures put { PutsSlot list.old list.new before index extent }
    ensures same { spare_of list.new ≡ spare_of list.old }
{
    list.slots[index] = Slot {
        extent,
        before: None,
        after: None,
    };
    link(&mut list.slots, &mut list.first, before, index);
}

/// Puts an extent after a slot, or at the front, and answers its slot: one that was not in use, or a new one. Want of
/// memory comes only where nothing is spare, and changes nothing.
pub fn insert_after(
    list: &mut ExtentList,
    before: Option<usize>,
    extent: Extent,
) -> Result<usize, AllocError>
    requires { IsAfter list.old before }
    ensures inserted { IfOk result (λ index. GainsSlot list.old list.new before index extent) }
    ensures spare { OnOk result (spare_of list.old ≤ spare_of list.new + 1) }
    ensures err { OnErr result (IsUnchanged list.old list.new) }
    ensures room { OnErr result (spare_of list.old ≡ 0) }
{
    let index = take_slot(list)?;
    put(list, before, index, extent);
    Ok(index)
}
