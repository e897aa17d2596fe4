// What the items of a guest give it.
ghost use Rattle.std.specs.Prelude.{◌≡◌, ℕ, ◌+◌, ◌^◌, ◌≤◌, ◌<◌, List, [], ◌∷◌, ◌++◌, map, true, Option, None, Some, unwrap_or, IfOk, OnOk};
ghost use Rattle.item_checks.specs.Entries.{of_guest, is_read, items_of};
ghost use Rattle.item_checks.specs.Taken.{Passed, passing, all_passed, total, has_frames};
ghost use Rattle.domain_plan.specs.GuestMaps.{onto, laid};
ghost use Rattle.domain_plan.specs.Regions.{placed_item};
ghost use Rattle.domain_plan.specs.Plans.{static_memory, region_of, port_of};
ghost use Rattle.item_checks.specs.Standing.{Stands, entry_of};
ghost use Rattle.domain_plan.specs.PrivateGiving.{irq_of, HasSaid, SaysToo, Gives};
ghost use Rattle.domain_plan.specs.PrivateLaying.{AreLowFrames, maps_by};

use crate::runs::{Run, placed_item};
use described::{Described, Kind, MapRange, What};
use frame_alloc::{touched, touched_from};
use item_checks::{BANK_SIZE, Guest, Owner, State, is_read, partial_items, takes_of};
use std::alloc::{AllocError, Global};
use std::cmp::min;
use texts::{Bytes, FrameRange, List};

/// What the items of a guest say of it: the pages of its static ranges, its interrupts, its shared regions and its ports.
#[derive(Drop)]
pub(crate) struct Said {
    pub(crate) statics: List<(u64, u64)>,
    pub(crate) irqs: Vec<u32>,
    pub(crate) shared: List<(Bytes, u64, u64)>,
    pub(crate) ports: List<(u32, u64, u32)>,
}

/// What the items of a guest that were passed give it.
#[derive(Drop)]
pub(crate) struct Given {
    pub(crate) state: State,
    pub(crate) ranges: Vec<MapRange>,
    pub(crate) said: Said,
}

/// Adds the pages of a static range.
fn push_static(statics: &mut List<(u64, u64)>, what: &What) -> Result<(), AllocError>
    ensures { OnOk result (statics.new ≡ statics.old ++ static_memory what.now) }
{
    match what {
        What::Static { at } => {
            let range = touched(*at);
            statics.push((range.first, range.count))?;
            Ok(())
        }
        _ => Ok(()),
    }
}

/// Adds the number of an interrupt.
fn push_irq(irqs: &mut Vec<u32>, what: &What) -> Result<(), AllocError>
    ensures { OnOk result (irqs.new.items ≡ irqs.old.items ++ irq_of what.now) }
{
    match what {
        What::Irq { number } => {
            irqs.push(*number)?;
            Ok(())
        }
        _ => Ok(()),
    }
}

/// Adds a shared region.
fn push_region(
    alloc: Global,
    shared: &mut List<(Bytes, u64, u64)>,
    what: &What,
) -> Result<(), AllocError>
    ensures { OnOk result (shared.new ≡ shared.old ++ region_of what.now) }
{
    match what {
        What::Shared {
            id,
            guest,
            size,
            ..
        } => {
            let mut copy = Bytes::new(alloc);
            copy.append(id.as_slice())?;
            let range = touched_from(*guest, *size);
            shared.push((copy, range.first, range.count))?;
            Ok(())
        }
        _ => Ok(()),
    }
}

/// Adds a port.
fn push_port(ports: &mut List<(u32, u64, u32)>, what: &What) -> Result<(), AllocError>
    ensures { OnOk result (ports.new ≡ ports.old ++ port_of what.now) }
{
    match what {
        What::Port {
            port,
            peer,
            peer_port,
        } => {
            ports.push((*port, *peer, *peer_port))?;
            Ok(())
        }
        _ => Ok(()),
    }
}

impl Said {
    /// Nothing is said. Takes no memory.
    fn new(alloc: Global) -> Said
        ensures { (number : ℕ) → HasSaid number [] result }
    {
        Said {
            statics: List::new(alloc),
            irqs: Vec::new(alloc),
            shared: List::new(alloc),
            ports: List::new(alloc),
        }
    }

    /// Adds what an item says.
    fn add(&mut self, alloc: Global, what: &What) -> Result<(), AllocError>
        ensures { OnOk result (SaysToo what.now self.old self.new) }
    {
        push_static(&mut self.statics, what)?;
        push_irq(&mut self.irqs, what)?;
        push_region(alloc, &mut self.shared, what)?;
        push_port(&mut self.ports, what)
    }
}

/// Adds ranges of pages that go to consecutive frames.
fn push_onto(
    ranges: &mut Vec<MapRange>,
    kind: Kind,
    frame: u64,
    pages: &[FrameRange],
) -> Result<(), AllocError>
    requires { frame + total pages.now ≤ 2 ^ 60 }
    ensures { OnOk result (ranges.new.items ≡ ranges.old.items ++ onto kind frame pages.now) }
{
    let mut at = frame;
    for one in pages {
        ranges.push(MapRange {
            page: one.first,
            first: at,
            count: one.count,
            kind,
        })?;
        at += one.count;
    }
    Ok(())
}

/// Adds what an item maps.
fn push_maps(
    ranges: &mut Vec<MapRange>,
    what: &What,
    pages: &[FrameRange],
) -> Result<(), AllocError>
    requires { has_frames what.now ≡ true → total pages.now ≤ 2 ^ 28 }
    ensures { OnOk result (ranges.new.items ≡ ranges.old.items ++ maps_by what.now pages.now) }
{
    match what {
        What::Static { at } => push_onto(ranges, Kind::Ram, at.base / 4096, pages),
        What::Range { host, .. } => push_onto(ranges, Kind::Device, *host / 4096, pages),
        What::Shared { host, .. } => match *host {
            Some(host) => push_onto(ranges, Kind::Shared, host / 4096, pages),
            None => Ok(()),
        },
        _ => Ok(()),
    }
}

/// Adds a run of frames as a guest's memory from its `k`-th page on.
fn lay_run(ranges: &mut Vec<MapRange>, k: u64, frames: FrameRange) -> Result<(), AllocError>
    requires few { k + frames.count ≤ 2 ^ 22 }
    requires low { 0 < frames.count → frames.first + frames.count ≤ 2 ^ 28 }
    ensures { OnOk result (ranges.new.items ≡ ranges.old.items ++ laid k (frames ∷ [])) }
{
    let low = min(frames.count, BANK_SIZE.saturating_sub(k));
    ranges.push(MapRange {
        page: 0x40000 + k,
        first: frames.first,
        count: low,
        kind: Kind::Ram,
    })?;
    ranges.push(MapRange {
        page: 0x200000 + (k + low).saturating_sub(BANK_SIZE),
        first: frames.first + low,
        count: frames.count - low,
        kind: Kind::Ram,
    })?;
    Ok(())
}

/// Adds frames that were drawn as a guest's memory.
fn lay(ranges: &mut Vec<MapRange>, drawn: &[FrameRange]) -> Result<(), AllocError>
    requires few { total drawn.now ≤ 2 ^ 22 }
    requires low { AreLowFrames drawn.now }
    ensures { OnOk result (ranges.new.items ≡ ranges.old.items ++ laid 0 drawn.now) }
{
    let mut k = 0;
    for frames in drawn {
        lay_run(ranges, k, *frames)?;
        k += frames.count;
    }
    Ok(())
}

/// Passes one item of a guest.
fn give_item(
    given: &mut Given,
    alloc: Global,
    owner: Owner,
    described: &Described,
) -> Result<(), AllocError>
    ensures { OnOk result ((number : ℕ) → (drawn : List FrameRange) → (before : List Passed) → owner.guest ≡ Some number → Gives number drawn before given.old → Gives number drawn (before ++ passing before (entry_of owner described.now) ∷ []) given.new) }
{
    let takes = takes_of(&given.state, alloc, described)?;
    push_maps(&mut given.ranges, &described.what, takes.pages.as_slice())?;
    given.said.add(alloc, &described.what)?;
    given.state.add(alloc, owner, described, &takes)?;
    Ok(())
}

/// What was placed, or else the item as it stands.
fn placed_or<'a>(placed: &'a Option<Described>, described: &'a Described) -> &'a Described
    ensures { result.now ≡ unwrap_or placed.now described.now }
{
    match placed {
        Some(placed) => placed,
        None => described,
    }
}

/// Passes one item of a guest, its region at its host address.
fn give_placed(
    given: &mut Given,
    alloc: Global,
    owner: Owner,
    runs: &[Run],
    described: &Described,
) -> Result<(), AllocError>
    ensures { OnOk result ((number : ℕ) → (drawn : List FrameRange) → (before : List Passed) → owner.guest ≡ Some number → Gives number drawn before given.old → Gives number drawn (before ++ passing before (entry_of owner (placed_item runs.now described.now)) ∷ []) given.new) }
{
    let placed = placed_item(alloc, runs, described)?;
    let item = placed_or(&placed, described);
    give_item(given, alloc, owner, item)?;
    Ok(())
}

/// Passes items of a guest in their order, each region at its host address.
fn give_items(
    given: &mut Given,
    alloc: Global,
    owner: Owner,
    runs: &[Run],
    items: &[Described],
) -> Result<(), AllocError>
    ensures { OnOk result ((number : ℕ) → (drawn : List FrameRange) → (before : List Passed) → owner.guest ≡ Some number → Gives number drawn before given.old → Gives number drawn (all_passed before (map (entry_of owner) (map (placed_item runs.now) items.now))) given.new) }
{
    for described in items {
        give_placed(given, alloc, owner, runs, described)?;
    }
    Ok(())
}

/// Passes the items of a guest in their order, its regions at their host addresses.
fn give_guest(
    given: &mut Given,
    alloc: Global,
    number: u64,
    guest: &Guest,
    runs: &[Run],
) -> Result<(), AllocError>
    ensures { OnOk result ((drawn : List FrameRange) → (before : List Passed) → Gives number drawn before given.old → Gives number drawn (all_passed before (of_guest number (is_read guest.now.partial) (map (placed_item runs.now) (items_of guest.now)))) given.new) }
{
    let owner = Owner {
        guest: Some(number),
        partial_read: is_read(&guest.partial),
    };
    give_items(given, alloc, owner, runs, guest.domain.items.as_slice())?;
    give_items(given, alloc, owner, runs, partial_items(&guest.partial))?;
    give_items(given, alloc, owner, runs, guest.shared.as_slice())?;
    give_items(given, alloc, owner, runs, guest.ports.as_slice())?;
    Ok(())
}

impl Given {
    /// Nothing was passed. Takes no memory.
    fn new(alloc: Global) -> Given
        ensures state { Stands None [] result.state }
        ensures ranges { result.ranges.items ≡ [] }
        ensures said { (number : ℕ) → HasSaid number [] result.said }
    {
        Given {
            state: State::new(alloc),
            ranges: Vec::new(alloc),
            said: Said::new(alloc),
        }
    }
}

/// What the items of a guest, its regions at their host addresses, and the frames that it drew give it.
pub(crate) fn gather(
    alloc: Global,
    number: u64,
    guest: &Guest,
    runs: &[Run],
    drawn: &[FrameRange],
) -> Result<Given, AllocError>
    requires few { total drawn.now ≤ 2 ^ 22 }
    requires low { AreLowFrames drawn.now }
    ensures { IfOk result (λ given. Gives number drawn.now (all_passed [] (of_guest number (is_read guest.now.partial) (map (placed_item runs.now) (items_of guest.now)))) given) }
{
    let mut given = Given::new(alloc);
    lay(&mut given.ranges, drawn)?;
    give_guest(&mut given, alloc, number, guest, runs)?;
    Ok(given)
}
