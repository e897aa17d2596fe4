// The reasons against a region of shared memory.
ghost use Rattle.std.specs.Prelude.{◌≡◌, ℕ, ◌==◌, ◌&&◌, ◌+◌, ◌^◌, ◌≤◌, not, if◌then◌else◌, All, List, [], ◌∷◌, Option, Some, None, IfOk, find, option_map, option_and_then, slice_get, false};
ghost use Rattle.std.specs.Option.{option_or};
ghost use Rattle.described.specs.declared.why.Why.TheVariants as whys;
ghost use Rattle.frame_alloc.specs.Frames.{AreFrameRanges};
ghost use Rattle.described.specs.declared.item.What.TheVariants as whats;
ghost use Rattle.frame_alloc.specs.Ranges.{have_common};
ghost use Rattle.item_checks.specs.Taken.{Passed, belongs_to, item_of, what_of};
ghost use Rattle.described.specs.Reasons.{where_so};
ghost use Rattle.item_checks.specs.Reasons.{naming_first, is_owner, is_same_host, unlike};
ghost use Rattle.item_checks.specs.Standing.{Stands, claims_taken, is_guest};
ghost use Rattle.item_checks.specs.PrivateStanding.{is_region, is_sought, is_region_at, naming_reasons, landing_reasons};

use crate::reasons::{Takes, lie_in};
use crate::state::{Owner, Region, State, Taken};
use crate::takings::Takings;
use described::{Item, Why};
use domain_bindings::Host;
use frame_alloc::meets_any;
use std::alloc::{AllocError, Global};
use texts::FrameRange;

/// Whether the second guest is the first.
pub(crate) fn is_guest(one: Option<u64>, other: Option<u64>) -> bool
    ensures { result ≡ is_guest one other }
{
    match one {
        None => false,
        Some(number) => match other {
            None => false,
            Some(other) => other == number,
        },
    }
}

/// Whether a region has this id, is of this guest where only its regions are sought, and its role is owner where only
/// owners are.
fn is_sought(region: &Region, id: &[u8], guest: Option<u64>, in_any: bool, owners: bool) -> bool
    ensures { result ≡ is_sought id.now guest in_any owners region.now }
{
    if id != region.id.as_slice() {
        return false;
    }
    if !in_any {
        if !is_guest(guest, region.guest) {
            return false;
        }
    }
    if owners { region.owner } else { true }
}

/// The first region that is sought.
fn first_region<'a>(
    regions: &'a [Region],
    id: &[u8],
    guest: Option<u64>,
    in_any: bool,
    owners: bool,
) -> Option<&'a Region>
    ensures { option_map (λ region. region.now) result ≡ find (is_sought id.now guest in_any owners) regions.now }
{
    for region in regions {
        if is_sought(region, id, guest, in_any, owners) {
            return Some(region);
        }
    }
    None
}

/// Whether the item at a place is a region of this id.
fn is_region_at(regions: &[Region], id: &[u8], place: usize) -> bool
    ensures { result ≡ is_region_at id.now place regions.now }
{
    regions.iter().any(|region| region.place == place && id == region.id.as_slice())
}

/// Whether an item that claims a frame of these ranges is no region of this id.
fn is_other_at(taken: Taken, ranges: &[FrameRange], regions: &[Region], id: &[u8]) -> bool
    ensures { result ≡ (not (is_region_at id.now taken.item regions.now) && have_common (taken.range ∷ []) ranges.now) }
{
    if !meets_any(taken.range, ranges) {
        return false;
    }
    !is_region_at(regions, id, taken.item)
}

/// The place of the first item that claims a frame of these ranges, and is no region of this id.
fn first_other_place(
    taken: &[Taken],
    ranges: &[FrameRange],
    regions: &[Region],
    id: &[u8],
) -> Option<usize>
    ensures { result ≡ option_map (λ taken. taken.item) (find (λ taken. not (is_region_at id.now taken.item regions.now) && have_common (taken.range ∷ []) ranges.now) taken.now) }
{
    for one in taken {
        if is_other_at(*one, ranges, regions, id) {
            return Some(one.item);
        }
    }
    None
}

/// The first item that claims a frame of these ranges, and is no region of this id.
fn first_other_item<'a>(
    items: &'a [Item],
    taken: &Takings,
    ranges: &[FrameRange],
    regions: &[Region],
    id: &[u8],
) -> Option<&'a Item>
    ensures { option_map (λ item. item.now) result ≡
        option_and_then (slice_get items.now) (option_map (λ taken. taken.item) (find (λ taken. not (is_region_at id.now taken.item regions.now) && have_common (taken.range ∷ []) ranges.now) taken.now)) }
{
    if !taken.may_take(ranges) {
        return None;
    }
    match first_other_place(taken.as_slice(), ranges, regions, id) {
        None => None,
        Some(place) => items.get(place),
    }
}

/// Whether both regions have one host base, or neither has any.
fn is_same_host(host: Option<u64>, other: Option<u64>) -> bool
    ensures { result ≡ is_same_host host other }
{
    match host {
        None => other.is_none(),
        Some(host) => match other {
            None => false,
            Some(base) => host == base,
        },
    }
}

/// Whether a region has another size or another host base, or just one of the two has a host base.
fn is_unlike(region: &Region, host: Option<u64>, size: u64) -> bool
    ensures { result ≡ not (is_same_host host region.now.host && (size == region.now.size)) }
{
    if !is_same_host(host, region.host) {
        return true;
    }
    size != region.size
}

impl State {
    /// The first region of the id, of the guest where only its regions are sought, and with the role owner where only
    /// owners are.
    fn region_item(
        &self,
        id: &[u8],
        guest: Option<u64>,
        in_any: bool,
        owners: bool,
    ) -> Option<&Item>
        ensures { option_map (λ item. item.now) result ≡ option_map (λ region. region.item) (find (is_sought id.now guest in_any owners) self.now.seen.regions.items) }
    {
        match first_region(self.seen.regions.as_slice(), id, guest, in_any, owners) {
            None => None,
            Some(region) => Some(&region.item),
        }
    }

    /// The region of the id that the guest has already.
    fn twin(&self, owner: Owner, id: &[u8]) -> Option<&Item>
        ensures { (before : List Passed) → Stands owner.guest before self.now →
            option_map (λ item. item.now) result ≡ option_map item_of (find (λ passed. belongs_to owner.guest passed && is_region id.now (what_of passed)) before) }
    {
        self.region_item(id, owner.guest, false, false)
    }

    /// The first region of the id that has the role owner.
    fn first_owner(&self, owner: Owner, id: &[u8]) -> Option<&Item>
        ensures { (before : List Passed) → Stands owner.guest before self.now →
            option_map (λ item. item.now) result ≡ option_map item_of (find (λ passed. is_region id.now (what_of passed) && is_owner (what_of passed)) before) }
    {
        self.region_item(id, owner.guest, true, true)
    }

    /// The first region of the id, where it has another size or another host base, or just one of the two has a host base.
    fn unlike_first(&self, owner: Owner, id: &[u8], host: Option<u64>, size: u64) -> Option<&Item>
        ensures { (before : List Passed) → Stands owner.guest before self.now →
            option_map (λ item. whys.ShmDiffers item.now) result ≡ unlike (whats.Shared id.now host 0 size false) (find (λ passed. is_region id.now (what_of passed)) before) }
    {
        match first_region(self.seen.regions.as_slice(), id, owner.guest, true, false) {
            None => None,
            Some(region) => {
                if is_unlike(region, host, size) {
                    Some(&region.item)
                } else {
                    None
                }
            }
        }
    }

    /// The earliest item that claims a frame of these ranges, and is no region of this id.
    fn other_claimant(&self, id: &[u8], claims: &[FrameRange]) -> Option<&Item>
        ensures { (guest : Option ℕ) → (before : List Passed) → Stands guest before self.now →
            option_map (λ item. item.now) result ≡ option_map item_of (find (λ passed. not (is_region id.now (what_of passed)) && have_common (claims_taken passed) claims.now) before) }
    {
        first_other_item(
            self.items.as_slice(),
            &self.claims,
            claims,
            self.seen.regions.as_slice(),
            id,
        )
    }

    /// ShmTwice where the guest has a region of the id already.
    fn shm_twice(&self, alloc: Global, owner: Owner, id: &[u8]) -> Result<Option<Why>, AllocError>
        ensures { IfOk result (λ why. (before : List Passed) → Stands owner.guest before self.now →
            why ≡ naming_first (λ passed. belongs_to owner.guest passed && is_region id.now (what_of passed)) whys.ShmTwice before) }
    {
        match self.twin(owner, id) {
            None => Ok(None),
            Some(item) => Ok(Some(Why::ShmTwice(item.copy(alloc)?))),
        }
    }

    /// OwnerTwice where a region of the id has the role owner already.
    fn owner_twice(&self, alloc: Global, owner: Owner, id: &[u8]) -> Result<Option<Why>, AllocError>
        ensures { IfOk result (λ why. (before : List Passed) → Stands owner.guest before self.now →
            why ≡ naming_first (λ passed. is_region id.now (what_of passed) && is_owner (what_of passed)) whys.OwnerTwice before) }
    {
        match self.first_owner(owner, id) {
            None => Ok(None),
            Some(item) => Ok(Some(Why::OwnerTwice(item.copy(alloc)?))),
        }
    }

    /// ShmDiffers where the first region of the id has another size or another host base, or just one of the two has a host base.
    fn shm_differs(
        &self,
        alloc: Global,
        owner: Owner,
        id: &[u8],
        host: Option<u64>,
        size: u64,
    ) -> Result<Option<Why>, AllocError>
        ensures { IfOk result (λ why. (before : List Passed) → Stands owner.guest before self.now →
            why ≡ unlike (whats.Shared id.now host 0 size false) (find (λ passed. is_region id.now (what_of passed)) before)) }
    {
        match self.unlike_first(owner, id, host, size) {
            None => Ok(None),
            Some(item) => Ok(Some(Why::ShmDiffers(item.copy(alloc)?))),
        }
    }

    /// The earliest item that claims a frame of these ranges, and is no region of this id.
    fn host_overlap_but(
        &self,
        alloc: Global,
        id: &[u8],
        claims: &[FrameRange],
    ) -> Result<Option<Why>, AllocError>
        ensures { IfOk result (λ why. (guest : Option ℕ) → (before : List Passed) → Stands guest before self.now →
            why ≡ naming_first (λ passed. not (is_region id.now (what_of passed)) && have_common (claims_taken passed) claims.now) whys.HostOverlap before) }
    {
        match self.other_claimant(id, claims) {
            None => Ok(None),
            Some(item) => Ok(Some(Why::HostOverlap(item.copy(alloc)?))),
        }
    }

    /// ShmTwice, or else ShmDiffers, or else OwnerTwice.
    pub(crate) fn region_named(
        &self,
        alloc: Global,
        owner: Owner,
        id: &[u8],
        host: Option<u64>,
        size: u64,
        owns: bool,
    ) -> Result<Option<Why>, AllocError>
        ensures { IfOk result (λ why. (before : List Passed) → Stands owner.guest before self.now → why ≡ naming_reasons owner.guest id.now host size owns before) }
    {
        match self.shm_twice(alloc, owner, id)? {
            Some(why) => Ok(Some(why)),
            None => match self.shm_differs(alloc, owner, id, host, size)? {
                Some(why) => Ok(Some(why)),
                None => {
                    if owns {
                        self.owner_twice(alloc, owner, id)
                    } else {
                        Ok(None)
                    }
                }
            },
        }
    }

    /// NotRam, or else HostOverlap, or else GuestOverlap.
    pub(crate) fn region_lands(
        &self,
        alloc: Global,
        host: &Host,
        id: &[u8],
        takes: &Takes,
    ) -> Result<Option<Why>, AllocError>
        requires sorted { AreFrameRanges host.now.ram }
        requires low { All (λ range. range.first + range.count ≤ 2 ^ 28) takes.now.claims.items }
        ensures { IfOk result (λ why. (guest : Option ℕ) → (before : List Passed) → Stands guest before self.now → why ≡ landing_reasons guest host.now id.now takes.now.claims.items takes.now.pages.items before) }
    {
        if !lie_in(host.ram.as_slice(), takes.claims.as_slice()) {
            return Ok(Some(Why::NotRam));
        }
        match self.host_overlap_but(alloc, id, takes.claims.as_slice())? {
            Some(why) => Ok(Some(why)),
            None => self.guest_overlap(alloc, host, takes.pages.as_slice()),
        }
    }
}
