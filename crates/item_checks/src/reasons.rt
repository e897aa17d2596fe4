// The reasons against an item that need the host's memory or the items before it.
ghost use Rattle.std.specs.Prelude.{◌≡◌, ℕ, ◌+◌, ◌^◌, ◌≤◌, List, [], ◌∷◌, All, Option, IfOk, ◌&&◌, not, is_some};
ghost use Rattle.std.specs.Option.{option_or};
ghost use Rattle.described.specs.declared.why.Why.TheVariants as whys;
ghost use Rattle.frame_alloc.specs.Frames.{AreFrameRanges};
ghost use Rattle.frame_alloc.specs.Ranges.{have_common, lie_in, touched};
ghost use Rattle.item_checks.specs.Taken.{Passed};
ghost use Rattle.described.specs.Reasons.{where_so};
ghost use Rattle.item_checks.specs.Reasons.{naming_first, layout, layout_at, area_pages, is_device_tree};
ghost use Rattle.item_checks.specs.Refusals.{cross_reasons, first_there};
ghost use Rattle.item_checks.specs.Standing.{Stands, claims_taken, pages_taken, entry_of};
ghost use Rattle.item_checks.specs.PrivateStanding.{mine_of, overlap_in};

use crate::state::{Owner, State};
use described::{Described, Item, Layout, ModuleKind, Part, What, Why};
use domain_bindings::Host;
use frame_alloc::{lies_in, meets_any, touched};
use std::alloc::{AllocError, Global};
use texts::{BaseSize, Bytes, FrameRange};

/// The frames and pages that an item takes.
#[derive(Drop)]
pub struct Takes {
    /// The frames that it claims.
    pub claims: Vec<FrameRange>,
    /// The guest pages that it fills.
    pub pages: Vec<FrameRange>,
}

/// Whether every frame of the ranges is one of the host's memory.
pub(crate) fn lie_in(ram: &[FrameRange], ranges: &[FrameRange]) -> bool
    requires sorted { AreFrameRanges ram.now }
    requires low { All (λ range. range.first + range.count ≤ 2 ^ 28) ranges.now }
    ensures { result ≡ lie_in ram.now ranges.now }
{
    for range in ranges {
        if !lies_in(ram, *range) {
            return false;
        }
    }
    true
}

/// Whether the ranges have a page of an area.
fn meets_area(area: BaseSize, pages: &[FrameRange]) -> bool
    ensures { result ≡ have_common (touched area ∷ []) pages.now }
{
    meets_any(touched(area), pages)
}

/// Whether the ranges have a page of a layout's areas, which no guest may fill: distributor, redistributors, console and
/// grant table.
fn meet_areas(layout: &Layout, pages: &[FrameRange]) -> bool
    ensures { result ≡ have_common (area_pages layout.now) pages.now }
{
    if meets_area(layout.distributor, pages) {
        return true;
    }
    if meets_area(layout.redistributors, pages) {
        return true;
    }
    if meets_area(layout.console, pages) {
        return true;
    }
    meets_area(layout.grant, pages)
}

/// PartialUnread where a guest's module is a device tree, and no partial device tree was read for the guest.
fn partial_unread(owner: Owner, kind: ModuleKind) -> Option<Why>
    ensures { result ≡ where_so (is_some owner.guest && is_device_tree kind && not owner.partial_read) whys.PartialUnread }
{
    if owner.guest.is_some() {
        if kind == ModuleKind::DeviceTree {
            if !owner.partial_read {
                return Some(Why::PartialUnread);
            }
        }
    }
    None
}

impl State {
    /// The earliest item that claims a frame of these.
    fn host_overlap(&self, alloc: Global, claims: &[FrameRange]) -> Result<Option<Why>, AllocError>
        ensures { IfOk result (λ why. (guest : Option ℕ) → (before : List Passed) → Stands guest before self.now →
            why ≡ naming_first (λ passed. have_common (claims_taken passed) claims.now) whys.HostOverlap before) }
    {
        match self.claimant(claims) {
            None => Ok(None),
            Some(item) => Ok(Some(Why::HostOverlap(item.copy(alloc)?))),
        }
    }

    /// The guest's layout, or the earliest item of the guest, that has one of these pages.
    pub(crate) fn guest_overlap(
        &self,
        alloc: Global,
        host: &Host,
        pages: &[FrameRange],
    ) -> Result<Option<Why>, AllocError>
        ensures { IfOk result (λ why. (guest : Option ℕ) → (before : List Passed) → Stands guest before self.now →
            why ≡ overlap_in (have_common (area_pages (layout_at host.now before guest)) pages.now) (naming_first (λ passed. have_common (pages_taken guest passed) pages.now) whys.GuestOverlap before)) }
    {
        if meet_areas(&self.layout(host), pages) {
            let path = Bytes::new(alloc);
            return Ok(Some(Why::GuestOverlap(Item {
                part: Part::Layout,
                path,
                index: 0,
            })));
        }
        match self.occupant(pages) {
            None => Ok(None),
            Some(item) => Ok(Some(Why::GuestOverlap(item.copy(alloc)?))),
        }
    }

    /// NotRam where a frame is none of the host's memory, or else the earliest item that claims one.
    fn land(
        &self,
        alloc: Global,
        host: &Host,
        claims: &[FrameRange],
    ) -> Result<Option<Why>, AllocError>
        requires sorted { AreFrameRanges host.now.ram }
        requires low { All (λ range. range.first + range.count ≤ 2 ^ 28) claims.now }
        ensures { IfOk result (λ why. (guest : Option ℕ) → (before : List Passed) → Stands guest before self.now →
            why ≡ option_or (where_so (not (lie_in host.now.ram claims.now)) whys.NotRam) (naming_first (λ passed. have_common (claims_taken passed) claims.now) whys.HostOverlap before)) }
    {
        if !lie_in(host.ram.as_slice(), claims) {
            return Ok(Some(Why::NotRam));
        }
        self.host_overlap(alloc, claims)
    }

    /// The first reason against an item among those that need the host's memory or the items before it.
    pub(crate) fn reason_against(
        &self,
        alloc: Global,
        host: &Host,
        owner: Owner,
        described: &Described,
        takes: &Takes,
    ) -> Result<Option<Why>, AllocError>
        requires sorted { AreFrameRanges host.now.ram }
        requires low { All (λ range. range.first + range.count ≤ 2 ^ 28) takes.now.claims.items }
        ensures { IfOk result (λ why. (before : List Passed) → Stands owner.guest before self.now →
            why ≡ first_there (cross_reasons host.now before (mine_of owner described.now takes.now))) }
    {
        match &described.what {
            What::Load { .. } => self.land(alloc, host, takes.claims.as_slice()),
            What::Module { kind, .. } => {
                match self.land(alloc, host, takes.claims.as_slice())? {
                    Some(why) => Ok(Some(why)),
                    None => Ok(partial_unread(owner, *kind)),
                }
            }
            What::Static { .. } => {
                match self.land(alloc, host, takes.claims.as_slice())? {
                    Some(why) => Ok(Some(why)),
                    None => self.guest_overlap(alloc, host, takes.pages.as_slice()),
                }
            }
            What::Range { .. } => {
                match self.host_overlap(alloc, takes.claims.as_slice())? {
                    Some(why) => Ok(Some(why)),
                    None => self.guest_overlap(alloc, host, takes.pages.as_slice()),
                }
            }
            What::Irq { number } => self.irq_reason(alloc, owner, *number),
            What::Shared {
                id,
                host: base,
                size,
                owner: owns,
                ..
            } => match self.region_named(alloc, owner, id.as_slice(), *base, *size, *owns)? {
                Some(why) => Ok(Some(why)),
                None => self.region_lands(alloc, host, id.as_slice(), takes),
            },
            _ => Ok(None),
        }
    }
}
