// The properties of a node, by their links.
ghost use Rattle.std.specs.Prelude.{◌≡◌, ◌<◌, ◌+◌, ◌-◌, Some, ℕ, length, OnOk, OnErr, IfSome, option_map, slice_get};
ghost use Rattle.fdt_tree.specs.Tree.{property_of};
ghost use Rattle.fdt_tree.specs.Assembled.{IsChained, StandBeside, first_owned};
ghost use Rattle.fdt_tree.specs.PrivateLinks.{chained_after, first_named_slot, from, modified, run_with, with_last_slot, with_value};
ghost use Rattle.fdt_tree.specs.declared.node.Node.{Node};

use crate::excerpt::Held;
use crate::node::{Node, Slot};
use std::alloc::AllocError;

/// Adds `slot` as the last one, and links it behind the slot `last`, if there is one. Memory is taken before the link is
/// set, so after want of memory the slots are as they were.
pub(crate) fn follow(
    slots: &mut Vec<Slot>,
    last: Option<usize>,
    slot: Slot,
) -> Result<(), AllocError>
    requires { IfSome last (λ before. before < length slots.old.items) }
    ensures ok { OnOk result (slots.new.items ≡ chained_after last slots.old.items slot) }
    ensures err { OnErr result (slots.new.items ≡ slots.old.items) }
{
    let number = slots.len();
    slots.push(slot)?;
    match last {
        None => {}
        Some(before) => {
            let held = &mut slots[before];
            held.next = Some(number);
        }
    }
    Ok(())
}

/// How many properties stand side by side right after the slot `first`, where one more of that node stands at `number`.
fn run_with(number: usize, first: Option<usize>, run: usize) -> usize
    requires { IfSome first (λ start. start + run < number) }
    ensures { result ≡ run_with number first run }
{
    match first {
        None => 0,
        Some(start) => {
            if start + run + 1 == number {
                run + 1
            } else {
                run
            }
        }
    }
}

/// Says that the last of all `count` slots is the last property of a node, which is its first if it had none.
pub(crate) fn end_at(nodes: &mut Vec<Node>, node: usize, count: usize)
    requires live { node < length nodes.old.items }
    requires fewer { (held : Node) → slice_get nodes.old.items node ≡ Some held → held.property_count < count }
    requires before { (held : Node) → slice_get nodes.old.items node ≡ Some held → IfSome held.first_property (λ start. start + held.run < count - 1) }
    ensures { nodes.new.items ≡ modified (with_last_slot (count - 1)) node nodes.old.items }
{
    let holder = &mut nodes[node];
    let number = count - 1;
    holder.run = run_with(number, holder.first_property, holder.run);
    match holder.first_property {
        None => holder.first_property = Some(number),
        Some(_) => {}
    }
    holder.last_property = Some(number);
    holder.property_count += 1;
}

/// The name and the value of the property that stands `index` links after the slot `first`, where `run` properties stand
/// side by side right after that slot and belong to its node.
pub(crate) fn slot_from<'a>(
    slots: &'a [Slot],
    first: Option<usize>,
    run: usize,
    index: usize,
) -> (&'a [u8], &'a [u8])
    requires chained { IsChained 0 slots.now }
    requires beside { (owner : ℕ) × StandBeside owner first run slots.now }
    requires within { index < length (from slots.now first) }
    ensures { slice_get (from slots.now first) index ≡ Some (result.0.now, result.1.now) }
{
    match first {
        None => (&[], &[]),
        Some(number) => {
            let steps = index.min(run);
            let all = slots.len();
            prove!(steps < all - number);
            slot_after(slots, Some(number + steps), index - steps)
        }
    }
}

/// The name and the value of the property that stands `index` links after the slot `first`.
fn slot_after<'a>(slots: &'a [Slot], first: Option<usize>, index: usize) -> (&'a [u8], &'a [u8])
    requires live { IfSome first (λ number. number < length slots.now) }
    requires chained { IsChained 0 slots.now }
    requires within { index < length (from slots.now first) }
    ensures { slice_get (from slots.now first) index ≡ Some (result.0.now, result.1.now) }
{
    let mut next = first;
    let mut left = index;
    while let Some(number) = next {
        let slot = &slots[number];
        if left == 0 {
            return (slot.name.as_slice(), slot.value.as_slice());
        }
        left -= 1;
        next = slot.next;
    }
    (&[], &[])
}

/// The value of the first property of this name from the slot `first` on.
pub(crate) fn find_from<'a>(
    slots: &'a [Slot],
    first: Option<usize>,
    name: &[u8],
) -> Option<&'a [u8]>
    requires live { IfSome first (λ number. number < length slots.now) }
    requires chained { IsChained 0 slots.now }
    ensures { option_map (λ value. value.now) result ≡ property_of (from slots.now first) name.now }
{
    let mut next = first;
    while let Some(number) = next {
        let slot = &slots[number];
        if slot.name.as_slice() == name {
            return Some(slot.value.as_slice());
        }
        next = slot.next;
    }
    None
}

/// The first slot of this name among those of the node `owner`, of which `first` is the first.
pub(crate) fn slot_named(
    slots: &[Slot],
    owner: usize,
    first: Option<usize>,
    name: &[u8],
) -> Option<usize>
    requires chained { IsChained 0 slots.now }
    requires first { first ≡ first_owned owner 0 slots.now }
    ensures { result ≡ first_named_slot owner name.now 0 slots.now }
{
    let _ = owner;
    let mut next = first;
    while let Some(number) = next {
        let slot = &slots[number];
        if slot.name.as_slice() == name {
            return Some(number);
        }
        next = slot.next;
    }
    None
}

/// Replaces the value of a slot. Takes no memory.
pub(crate) fn put_value(slots: &mut Vec<Slot>, number: usize, value: Held)
    requires { number < length slots.old.items }
    ensures { slots.new.items ≡ modified (with_value value) number slots.old.items }
{
    let slot = &mut slots[number];
    slot.value = value;
}
