// Slots, which are linked by index.
ghost use Rattle.std.specs.Prelude.{◌≡◌, ◌+◌, ◌-◌, ◌<◌, ◌≤◌, [], ◌∷◌, ◌++◌, length, Some, IfSome, IfOk, OnOk, OnErr, vec_len, vec_capacity};
ghost use Rattle.frame_alloc.specs.Slots.{no_slot, slot_at};
ghost use Rattle.frame_alloc.specs.PrivateLinks.{joined, joined_head, link_from, linked, unlinked};

use crate::extents::Extent;
use std::alloc::AllocError;

/// A run of free frames between two others, or a slot that is not in use: its extent, and the indices of the slots
/// before and after it in its list.
#[derive(Clone, Copy, Debug)]
pub struct Slot {
    pub extent: Extent,
    pub before: Option<usize>,
    pub after: Option<usize>,
}

/// Links two slots to each other. Where there is none before, the list begins with the second.
pub fn join(
    slots: &mut Vec<Slot>,
    head: &mut Option<usize>,
    before: Option<usize>,
    after: Option<usize>,
)
    requires before_there { IfSome before (λ i. i < length slots.old.items) }
    requires after_there { IfSome after (λ i. i < length slots.old.items) }
    ensures slots { slots.new.items ≡ joined slots.old.items before after }
    ensures head { head.new ≡ joined_head head.old before after }
    ensures room { vec_capacity slots.new ≡ vec_capacity slots.old }
{
    match before {
        Some(i) => {
            let slot = slots[i];
            slots[i] = Slot {
                extent: slot.extent,
                before: slot.before,
                after,
            };
        }
        None => *head = after,
    }
    if let Some(i) = after {
        let slot = slots[i];
        slots[i] = Slot {
            extent: slot.extent,
            before,
            after: slot.after,
        };
    }
}

/// Takes a slot out of its list.
pub fn unlink(slots: &mut Vec<Slot>, head: &mut Option<usize>, index: usize)
    requires there { index < length slots.old.items }
    requires before_there { IfSome (slot_at slots.old.items index).before (λ i. i < length slots.old.items) }
    requires after_there { IfSome (slot_at slots.old.items index).after (λ i. i < length slots.old.items) }
    ensures slots { slots.new.items ≡ unlinked slots.old.items index }
    ensures head { head.new ≡ joined_head head.old (slot_at slots.old.items index).before (slot_at slots.old.items index).after }
    ensures room { vec_capacity slots.new ≡ vec_capacity slots.old }
{
    let slot = slots[index];
    join(slots, head, slot.before, slot.after);
}

/// Puts a slot into a list after another one, or at the front.
pub fn link(slots: &mut Vec<Slot>, head: &mut Option<usize>, before: Option<usize>, index: usize)
    requires there { index < length slots.old.items }
    requires before_there { IfSome before (λ i. i < length slots.old.items) }
    requires after_there { IfSome (link_from slots.old.items head.old before) (λ i. i < length slots.old.items) }
    ensures slots { slots.new.items ≡ linked slots.old.items head.old before index }
    ensures head { head.new ≡ joined_head head.old before (Some index) }
    ensures room { vec_capacity slots.new ≡ vec_capacity slots.old }
{
    let after = match before {
        Some(i) => slots[i].after,
        None => *head,
    };
    join(slots, head, before, Some(index));
    join(slots, head, Some(index), after);
}

/// A new slot at the end of the vector, and its index. Want of memory changes nothing.
pub fn add_slot(slots: &mut Vec<Slot>) -> Result<usize, AllocError>
    ensures index { IfOk result (λ index. index ≡ length slots.old.items) }
    ensures items { OnOk result (slots.new.items ≡ slots.old.items ++ no_slot ∷ []) }
    ensures spare { OnOk result (vec_capacity slots.old - vec_len slots.old ≤ vec_capacity slots.new - vec_len slots.new + 1) }
    ensures err { OnErr result (slots.new.items ≡ slots.old.items) }
    ensures room { OnErr result (vec_capacity slots.new ≡ vec_capacity slots.old) }
    ensures full { OnErr result (vec_capacity slots.old ≤ vec_len slots.old) }
{
    slots.reserve(1)?;
    let index = slots.len();
    slots.push(Slot {
        extent: Extent { first: 0, count: 0 },
        before: None,
        after: None,
    })?;
    Ok(index)
}
