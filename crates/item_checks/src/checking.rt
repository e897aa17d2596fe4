// Passing all items in their order.
ghost use Rattle.std.specs.Prelude.{◌≡◌, ℕ, ◌+◌, ◌^◌, ◌≤◌, nat_lt, ◌++◌, List, [], map, Option, None, Some, false, IfOk, OnOk, IfErr};
ghost use Rattle.std.specs.List.{list_any};
ghost use Rattle.frame_alloc.specs.Frames.{AreFrameRanges};
ghost use Rattle.item_checks.specs.Entries.{load_item, partial_items, is_read, items_of, of_guest, of_host, guest_entries, joined};
ghost use Rattle.item_checks.specs.Taken.{passed_of, Passed, belongs_to, all_passed};
ghost use Rattle.item_checks.specs.Refusals.{first_refused};
ghost use Rattle.item_checks.specs.Standing.{Stands};
ghost use Rattle.item_checks.specs.PrivateStanding.{Checked, AreOfHost};

use crate::faults::PlanFault;
use crate::guests::{Guest, PartialState};
use crate::passing::check_items;
use crate::state::{Owner, State};
use described::{Described, Item, Loaded, Part, What, Why};
use domain_bindings::Host;
use std::alloc::{AllocError, Global};
use texts::{BaseSize, Bytes, List};

/// Where loaded files may end.
const ADDRESS_LIMIT: u128 = 1 << 40;

/// Whether a range ends past 2^40.
fn ends_too_high(at: BaseSize) -> bool
    ensures { result ≡ nat_lt (2 ^ 40) (at.base + at.size) }
{
    u128::from(at.base) + u128::from(at.size) > ADDRESS_LIMIT
}

/// The item of a loaded file.
fn load_item(alloc: Global, load: &Loaded) -> Result<Described, AllocError>
    ensures { IfOk result (λ item. item ≡ load_item load.now) }
{
    let at = BaseSize {
        base: load.address,
        size: load.size,
    };
    let mut path = Bytes::new(alloc);
    path.append(load.name.as_slice())?;
    let item = Item {
        part: Part::Load,
        path,
        index: 0,
    };
    if ends_too_high(at) {
        return Ok(Described {
            item,
            own: Some(Why::TooHigh),
            what: What::Unread,
        });
    }
    Ok(Described {
        item,
        own: None,
        what: What::Load { at },
    })
}

/// The items of a partial device tree, where it was read.
pub fn partial_items(partial: &PartialState) -> &[Described]
    ensures { result.now ≡ partial_items partial.now }
{
    match partial {
        PartialState::Read(partial) => partial.items.as_slice(),
        _ => &[],
    }
}

/// Whether a guest's partial device tree was read.
pub fn is_read(partial: &PartialState) -> bool
    ensures { result ≡ is_read partial.now }
{
    match partial {
        PartialState::Read(_) => true,
        _ => false,
    }
}

impl State {
    /// Forgets the guest of the last items, and goes on with a guest of which there was none.
    fn begin_guest(&mut self)
        ensures { (guest : Option ℕ) → (before : List Passed) → (number : ℕ) → Stands guest before self.old → list_any (belongs_to (Some number)) before ≡ false → Stands (Some number) before self.new }
    {
        self.last.clear();
    }
}

/// Passes the items of one guest, or names the first of them that has a reason against it.
fn check_guest(
    state: &mut State,
    alloc: Global,
    host: &Host,
    number: u64,
    guest: &Guest,
) -> Result<(), PlanFault>
    requires sorted { AreFrameRanges host.now.ram }
    ensures { (last : Option ℕ) → (before : List Passed) → Stands last before state.old → list_any (belongs_to (Some number)) before ≡ false →
        Checked host.now (Some number) before (of_guest number (is_read guest.now.partial) (items_of guest.now)) result state.new }
{
    state.begin_guest();
    let owner = Owner {
        guest: Some(number),
        partial_read: is_read(&guest.partial),
    };
    check_items(state, alloc, host, owner, guest.domain.items.as_slice())?;
    check_items(state, alloc, host, owner, partial_items(&guest.partial))?;
    check_items(state, alloc, host, owner, guest.shared.as_slice())?;
    check_items(state, alloc, host, owner, guest.ports.as_slice())
}

/// Passes the items of all guests, guest by guest, or names the first of them that has a reason against it.
fn check_guests(
    state: &mut State,
    alloc: Global,
    host: &Host,
    guests: &[Guest],
) -> Result<(), PlanFault>
    requires sorted { AreFrameRanges host.now.ram }
    ensures passed { OnOk result ((before : List Passed) → Stands None before state.old → AreOfHost before → (last : Option ℕ) × Stands last (all_passed before (guest_entries 0 guests.now)) state.new) }
    ensures clear { OnOk result ((before : List Passed) → Stands None before state.old → AreOfHost before → first_refused host.now before (guest_entries 0 guests.now) ≡ None) }
    ensures refused { IfErr result (λ fault. (before : List Passed) → Stands None before state.old → AreOfHost before → (item : Item) → (reason : Why) →
        fault ≡ PlanFault.Refused item reason → first_refused host.now before (guest_entries 0 guests.now) ≡ Some (item, reason)) }
{
    for i in 0..guests.len() {
        match check_guest(state, alloc, host, i as u64, &guests[i]) {
            Ok(()) => {}
            Err(fault) => return Err(fault),
        }
    }
    Ok(())
}

/// Passes all items, or names the first that has a reason against it.
pub fn check_all(
    alloc: Global,
    host: &Host,
    loads: &List<Loaded>,
    guests: &List<Guest>,
) -> Result<State, PlanFault>
    requires sorted { AreFrameRanges host.now.ram }
    ensures passed { IfOk result (λ state. (last : Option ℕ) × Stands last (passed_of host.now loads.now guests.now) state) }
    ensures clear { OnOk result (first_refused host.now [] (joined host.now loads.now guests.now) ≡ None) }
    ensures refused { IfErr result (λ fault. (item : Item) → (reason : Why) → fault ≡ PlanFault.Refused item reason → first_refused host.now [] (joined host.now loads.now guests.now) ≡ Some (item, reason)) }
{
    let mut state = State::new(alloc);
    check_host(&mut state, alloc, host, loads)?;
    check_guests(&mut state, alloc, host, guests.as_slice())?;
    Ok(state)
}

/// The items of the loaded files.
fn load_items(alloc: Global, loads: &[Loaded]) -> Result<Vec<Described>, AllocError>
    ensures { IfOk result (λ items. items.items ≡ map load_item loads.now) }
{
    let mut items = List::new(alloc);
    for load in loads {
        items.push(load_item(alloc, load)?)?;
    }
    Ok(items.into_vec())
}

/// Passes the items of the host, the loads and the modules of dom0, or names the first that has a reason against it.
fn check_host(
    state: &mut State,
    alloc: Global,
    host: &Host,
    loads: &List<Loaded>,
) -> Result<(), PlanFault>
    requires sorted { AreFrameRanges host.now.ram }
    requires new { Stands None [] state.old }
    ensures { Checked host.now None [] (of_host host.now.items ++ of_host (map load_item loads.now) ++ of_host host.now.modules) result state.new }
{
    let owner = Owner {
        guest: None,
        partial_read: false,
    };
    let items = load_items(alloc, loads.as_slice())?;
    check_items(state, alloc, host, owner, host.items.as_slice())?;
    check_items(state, alloc, host, owner, items.as_slice())?;
    check_items(state, alloc, host, owner, host.modules.as_slice())
}
