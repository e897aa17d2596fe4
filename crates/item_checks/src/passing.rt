// Passing items one by one.
ghost use Rattle.std.specs.Prelude.{◌≡◌, ℕ, ◌+◌, ◌^◌, ◌≤◌, ◌++◌, ◌||◌, ◌&&◌, min, List, [], ◌∷◌, map, is_some, true, All, Option, None, Some, IfOk, OnOk, IfErr};
ghost use Rattle.frame_alloc.specs.Frames.{AreFrameRanges};
ghost use Rattle.item_checks.specs.Taken.{Passed, passing, all_passed, claims_of, pages_of, says_direct, static_pages, is_range, total, has_frames};
ghost use Rattle.item_checks.specs.Refusals.{why, first_refused};
ghost use Rattle.item_checks.specs.Standing.{Stands, taken_at, load_in, entry_of, has_triple, region_in, is_past, first_other};
ghost use Rattle.item_checks.specs.PrivateStanding.{IsAdded, IsSeenToo, IsLastToo, in_guest, is_irq_of_other};
ghost use Rattle.std.specs.Prelude.{if◌then◌else◌};
ghost use Rattle.std.specs.Option.{option_or};
ghost use Rattle.item_checks.specs.Reasons.{is_past_spis, has_console};

use crate::faults::PlanFault;
use crate::irqs::has_taker;
use crate::reasons::Takes;
use crate::state::{LastGuest, Owner, Region, Seen, State, Taken, Taker, Triple, capped};
use crate::takes::has_triple;
use crate::takings::Takings;
use described::{Described, Item, What, Why};
use domain_bindings::Host;
use frame_alloc::touched;
use std::alloc::{AllocError, Global};
use std::cmp::min;
use texts::{BaseSize, Bytes, FrameRange};

/// Adds ranges that the item at a place takes.
fn push_taken(taken: &mut Takings, place: usize, ranges: &[FrameRange]) -> Result<(), AllocError>
    ensures { OnOk result (taken.new ≡ taken.old ++ map (taken_at place) ranges.now) }
{
    for range in ranges {
        taken.add(Taken {
            range: *range,
            item: place,
        })?;
    }
    Ok(())
}

/// Adds where a file was loaded.
fn push_load(loads: &mut Vec<BaseSize>, what: &What) -> Result<(), AllocError>
    ensures { OnOk result (loads.new.items ≡ loads.old.items ++ load_in what.now) }
{
    match what {
        What::Load { at } => {
            loads.push(*at)?;
            Ok(())
        }
        _ => Ok(()),
    }
}

/// Adds the numbers of a guest's device range, where they are new.
fn push_triple(triples: &mut Vec<Triple>, owner: Owner, what: &What) -> Result<(), AllocError>
    ensures { OnOk result ((host size page : ℕ) → has_triple host size page triples.new.items ≡ (has_triple host size page triples.old.items || (is_some owner.guest && is_range host size page what.now))) }
{
    if owner.guest.is_none() {
        return Ok(());
    }
    match what {
        What::Range { host, size, guest } => {
            if has_triple(triples.as_slice(), *host, *size, *guest) {
                return Ok(());
            }
            triples.push(Triple {
                host: *host,
                size: *size,
                guest: *guest,
            })?;
            Ok(())
        }
        _ => Ok(()),
    }
}

/// Adds a region that an item describes.
fn push_region(
    regions: &mut Vec<Region>,
    alloc: Global,
    place: usize,
    owner: Owner,
    described: &Described,
) -> Result<(), AllocError>
    ensures { OnOk result (regions.new.items ≡ regions.old.items ++ region_in described.now.item place owner.guest described.now.what) }
{
    match &described.what {
        What::Shared {
            id,
            host,
            size,
            owner: owns,
            ..
        } => {
            let item = described.item.copy(alloc)?;
            let mut own_id = Bytes::new(alloc);
            own_id.append(id.as_slice())?;
            regions.push(Region {
                item,
                place,
                guest: owner.guest,
                id: own_id,
                host: *host,
                size: *size,
                owner: *owns,
            })?;
            Ok(())
        }
        _ => Ok(()),
    }
}

/// The least number of shared interrupts that a guest's items give it.
fn least_spis(spis: Option<u32>, owner: Owner, what: &What) -> Option<u32>
    ensures { (number : ℕ) → is_past number result ≡ (is_past number spis || (is_some owner.guest && is_past_spis number what.now)) }
{
    if owner.guest.is_none() {
        return spis;
    }
    match what {
        What::Head { spis: own, .. } => match *own {
            None => spis,
            Some(own) => match spis {
                None => Some(own),
                Some(one) => Some(min(one, own)),
            },
        },
        _ => spis,
    }
}

/// Keeps the first item that gives the guest a console.
fn set_console(
    console: &mut Option<Item>,
    alloc: Global,
    owner: Owner,
    described: &Described,
) -> Result<(), AllocError>
    ensures { OnOk result (console.new ≡ option_or console.old (if is_some owner.guest && has_console described.now.what then Some described.now.item else None)) }
{
    if console.is_some() {
        return Ok(());
    }
    if owner.guest.is_none() {
        return Ok(());
    }
    match &described.what {
        What::Head { console: has, .. } => {
            if *has {
                *console = Some(described.item.copy(alloc)?);
            }
            Ok(())
        }
        _ => Ok(()),
    }
}

/// Adds an interrupt, where the guest has none of its number.
fn push_taker(
    takers: &mut Vec<Taker>,
    alloc: Global,
    owner: Owner,
    described: &Described,
) -> Result<(), AllocError>
    ensures { OnOk result ((number : ℕ) → (other : Option ℕ) → first_other number other takers.new.items ≡ option_or (first_other number other takers.old.items) (if is_irq_of_other number other owner.guest described.now.what then Some described.now.item else None)) }
{
    match owner.guest {
        None => Ok(()),
        Some(guest) => match &described.what {
            What::Irq { number } => {
                if has_taker(takers.as_slice(), *number, guest) {
                    return Ok(());
                }
                let item = described.item.copy(alloc)?;
                takers.push(Taker {
                    item,
                    guest,
                    number: *number,
                })?;
                Ok(())
            }
            _ => Ok(()),
        },
    }
}

/// Whether an item says that its guest is direct-mapped.
fn says_direct(owner: Owner, what: &What) -> bool
    ensures { result ≡ (is_some owner.guest && says_direct what.now) }
{
    match what {
        What::Head { direct, .. } => owner.guest.is_some() && *direct,
        _ => false,
    }
}

/// How many pages of static memory an item gives its guest.
fn static_pages(owner: Owner, what: &What) -> u64
    ensures pages { result ≡ in_guest owner.guest (static_pages what.now) 0 }
    ensures low { result ≤ 2 ^ 28 }
{
    if owner.guest.is_none() {
        return 0;
    }
    match what {
        What::Static { at } => touched(*at).count,
        _ => 0,
    }
}

/// The pages that an item fills, where it is a guest's.
fn pages_in_guest(owner: Owner, pages: &[FrameRange]) -> &[FrameRange]
    ensures { result.now ≡ in_guest owner.guest pages.now [] }
{
    if owner.guest.is_some() { pages } else { &[] }
}

impl Seen {
    /// Adds what the item at a place describes.
    fn add(
        &mut self,
        alloc: Global,
        place: usize,
        owner: Owner,
        described: &Described,
    ) -> Result<(), AllocError>
        ensures { OnOk result (IsSeenToo owner described.now place self.old self.new) }
    {
        push_load(&mut self.loads, &described.what)?;
        push_region(&mut self.regions, alloc, place, owner, described)?;
        push_taker(&mut self.takers, alloc, owner, described)?;
        Ok(())
    }
}

impl LastGuest {
    /// Adds what the item at a place, which fills these pages, says of its guest.
    fn add(
        &mut self,
        alloc: Global,
        place: usize,
        owner: Owner,
        described: &Described,
        filled: &[FrameRange],
    ) -> Result<(), AllocError>
        ensures { OnOk result (IsLastToo owner described.now filled.now place self.old self.new) }
    {
        push_taken(&mut self.pages, place, pages_in_guest(owner, filled))?;
        push_triple(&mut self.triples, owner, &described.what)?;
        set_console(&mut self.console, alloc, owner, described)?;
        self.spis = least_spis(self.spis, owner, &described.what);
        self.direct = self.direct | says_direct(owner, &described.what);
        self.static_pages = capped(
            capped(self.static_pages) + static_pages(owner, &described.what),
        );
        Ok(())
    }
}

impl State {
    /// Adds an item with what is told that it takes.
    fn add_taking(
        &mut self,
        alloc: Global,
        owner: Owner,
        described: &Described,
        takes: &Takes,
    ) -> Result<(), AllocError>
        ensures { OnOk result (IsAdded owner described.now takes.now self.old self.new) }
    {
        let place = self.items.len();
        self.items.push(described.item.copy(alloc)?)?;
        push_taken(&mut self.claims, place, takes.claims.as_slice())?;
        self.seen.add(alloc, place, owner, described)?;
        self.last
            .add(alloc, place, owner, described, takes.pages.as_slice())?;
        Ok(())
    }

    /// Adds an item with what it takes. After want of memory a part of it may have been added.
    pub fn add(
        &mut self,
        alloc: Global,
        owner: Owner,
        described: &Described,
        takes: &Takes,
    ) -> Result<(), AllocError>
        ensures { OnOk result ((before : List Passed) → Stands owner.guest before self.old →
            takes.now.claims.items ≡ claims_of before (entry_of owner described.now) → takes.now.pages.items ≡ pages_of before (entry_of owner described.now) →
            Stands owner.guest (before ++ passing before (entry_of owner described.now) ∷ []) self.new) }
    {
        self.add_taking(alloc, owner, described, takes)?;
        Ok(())
    }
}

/// What an item takes.
pub fn takes_of(state: &State, alloc: Global, described: &Described) -> Result<Takes, AllocError>
    ensures low { IfOk result (λ takes. All (λ one. one.first + one.count ≤ 2 ^ 28) takes.claims.items) }
    ensures few { IfOk result (λ takes. has_frames described.now.what ≡ true → total takes.pages.items ≤ 2 ^ 28) }
    ensures claims { IfOk result (λ takes. (owner : Owner) → (before : List Passed) → Stands owner.guest before state.now → takes.claims.items ≡ claims_of before (entry_of owner described.now)) }
    ensures pages { IfOk result (λ takes. (owner : Owner) → (before : List Passed) → Stands owner.guest before state.now → takes.pages.items ≡ pages_of before (entry_of owner described.now)) }
{
    let claims = state.claims_of(alloc, described)?;
    let pages = state.pages_of(alloc, described)?;
    Ok(Takes { claims, pages })
}

/// That an item is refused for a reason. It is want of memory where the item cannot be copied.
fn refusal(alloc: Global, item: &Item, reason: Why) -> PlanFault
    ensures { (named : Item) → (why : Why) → result ≡ PlanFault.Refused named why → (named ≡ item.now) × (why ≡ reason) }
{
    match item.copy(alloc) {
        Ok(item) => PlanFault::Refused(item, reason),
        Err(_) => PlanFault::Memory,
    }
}

/// Passes one item, or names the first reason against it.
fn check_item(
    state: &mut State,
    alloc: Global,
    host: &Host,
    owner: Owner,
    described: &Described,
) -> Result<(), PlanFault>
    requires sorted { AreFrameRanges host.now.ram }
    ensures passed { OnOk result ((before : List Passed) → Stands owner.guest before state.old → Stands owner.guest (before ++ passing before (entry_of owner described.now) ∷ []) state.new) }
    ensures clear { OnOk result ((before : List Passed) → Stands owner.guest before state.old → why host.now before (entry_of owner described.now) ≡ None) }
    ensures refused { IfErr result (λ fault. (before : List Passed) → Stands owner.guest before state.old → (item : Item) → (reason : Why) →
        fault ≡ PlanFault.Refused item reason → (item ≡ described.now.item) × (why host.now before (entry_of owner described.now) ≡ Some reason)) }
{
    if let Some(own) = &described.own {
        return Err(refusal(alloc, &described.item, own.copy(alloc)?));
    }
    let takes = takes_of(state, alloc, described)?;
    match state.reason_against(alloc, host, owner, described, &takes)? {
        Some(reason) => Err(refusal(alloc, &described.item, reason)),
        None => {
            state.add(alloc, owner, described, &takes)?;
            Ok(())
        }
    }
}

/// Passes items of one owner in their order, or names the first of them that has a reason against it.
pub(crate) fn check_items(
    state: &mut State,
    alloc: Global,
    host: &Host,
    owner: Owner,
    items: &[Described],
) -> Result<(), PlanFault>
    requires sorted { AreFrameRanges host.now.ram }
    ensures passed { OnOk result ((before : List Passed) → Stands owner.guest before state.old → Stands owner.guest (all_passed before (map (entry_of owner) items.now)) state.new) }
    ensures clear { OnOk result ((before : List Passed) → Stands owner.guest before state.old → first_refused host.now before (map (entry_of owner) items.now) ≡ None) }
    ensures refused { IfErr result (λ fault. (before : List Passed) → Stands owner.guest before state.old → (item : Item) → (reason : Why) →
        fault ≡ PlanFault.Refused item reason → first_refused host.now before (map (entry_of owner) items.now) ≡ Some (item, reason)) }
{
    for described in items {
        check_item(state, alloc, host, owner, described)?;
    }
    Ok(())
}
