// What an item takes.
ghost use Rattle.std.specs.Prelude.{◌≡◌, ℕ, ◌+◌, ◌^◌, ◌≤◌, ◌==◌, ◌&&◌, nat_le, true, List, [], ◌∷◌, map, All, Option, IfOk};
ghost use Rattle.std.specs.List.{list_any};
ghost use Rattle.frame_alloc.specs.Ranges.{touched};
ghost use Rattle.item_checks.specs.Taken.{Passed, is_loaded, is_repeated, bank_pages, claims_of, pages_of, total, has_frames};
ghost use Rattle.item_checks.specs.Standing.{Stands, entry_of, has_triple};

use crate::state::{Owner, State, Triple};
use described::{Described, What};
use frame_alloc::{touched, touched_from};
use std::alloc::{AllocError, Global};
use std::cmp::min;
use texts::{BaseSize, FrameRange};

/// How many pages the first bank of a guest's memory has: addresses 0x40000000 to 0xffffffff.
pub const BANK_SIZE: u64 = 786_432;

/// A list of one range.
fn one_range(alloc: Global, range: FrameRange) -> Result<Vec<FrameRange>, AllocError>
    requires { range.first + range.count ≤ 2 ^ 28 }
    ensures one { IfOk result (λ ranges. ranges.items ≡ range ∷ []) }
    ensures low { IfOk result (λ ranges. All (λ one. one.first + one.count ≤ 2 ^ 28) ranges.items) }
    ensures few { IfOk result (λ ranges. total ranges.items ≤ 2 ^ 28) }
{
    let mut ranges = Vec::new(alloc);
    ranges.push(range)?;
    Ok(ranges)
}

/// The frames that several ranges touch.
fn touched_by_each(alloc: Global, entries: &[BaseSize]) -> Result<Vec<FrameRange>, AllocError>
    ensures touched { IfOk result (λ ranges. ranges.items ≡ map touched entries.now) }
    ensures low { IfOk result (λ ranges. All (λ one. one.first + one.count ≤ 2 ^ 28) ranges.items) }
{
    let mut ranges = Vec::new(alloc);
    for entry in entries {
        ranges.push(touched(*entry))?;
    }
    Ok(ranges)
}

/// The pages of a guest's memory from its `k`-th on, in both banks.
fn bank_pages(alloc: Global, k: u64, count: u64) -> Result<Vec<FrameRange>, AllocError>
    requires { k ≤ 2 ^ 28 }
    ensures pages { IfOk result (λ ranges. ranges.items ≡ bank_pages k count) }
    ensures few { IfOk result (λ ranges. total ranges.items ≡ count) }
{
    let low = min(count, BANK_SIZE.saturating_sub(k));
    let mut ranges = Vec::new(alloc);
    ranges.push(FrameRange {
        first: 0x40000 + k,
        count: low,
    })?;
    ranges.push(FrameRange {
        first: 0x200000 + (k + low).saturating_sub(BANK_SIZE),
        count: count - low,
    })?;
    Ok(ranges)
}

/// Whether one of the loads is at an address, and has at least so many bytes.
fn is_any_over(loads: &[BaseSize], at: BaseSize) -> bool
    ensures { result ≡ list_any (λ load. (load.base == at.base) && nat_le at.size load.size) loads.now }
{
    loads
        .iter()
        .any(|load| load.base == at.base && at.size <= load.size)
}

/// Whether one of the device ranges has these three numbers.
pub(crate) fn has_triple(triples: &[Triple], host: u64, size: u64, guest: u64) -> bool
    ensures { result ≡ has_triple host size guest triples.now }
{
    triples.iter().any(|triple| triple.host == host && triple.size == size && triple.guest == guest)
}

impl State {
    /// Whether the guest named a device range of these three numbers before.
    fn is_repeated(&self, host: u64, size: u64, guest: u64) -> bool
        ensures { (owner : Option ℕ) → (before : List Passed) → Stands owner before self.now → result ≡ is_repeated before owner host size guest }
    {
        has_triple(self.last.triples.as_slice(), host, size, guest)
    }

    /// Whether a loaded file lies where a module does.
    fn is_loaded(&self, at: BaseSize) -> bool
        ensures { (guest : Option ℕ) → (before : List Passed) → Stands guest before self.now → result ≡ is_loaded before at }
    {
        is_any_over(self.seen.loads.as_slice(), at)
    }

    /// The frames that an item claims.
    pub(crate) fn claims_of(
        &self,
        alloc: Global,
        described: &Described,
    ) -> Result<Vec<FrameRange>, AllocError>
        ensures low { IfOk result (λ claims. All (λ one. one.first + one.count ≤ 2 ^ 28) claims.items) }
        ensures claims { IfOk result (λ claims. (owner : Owner) → (before : List Passed) → Stands owner.guest before self.now → claims.items ≡ claims_of before (entry_of owner described.now)) }
    {
        match &described.what {
            What::Reserved { entries } => touched_by_each(alloc, entries.as_slice()),
            What::Reserve { at } => one_range(alloc, touched(*at)),
            What::Load { at } => one_range(alloc, touched(*at)),
            What::Module { at, .. } => {
                if self.is_loaded(*at) {
                    Ok(Vec::new(alloc))
                } else {
                    one_range(alloc, touched(*at))
                }
            }
            What::Static { at } => one_range(alloc, touched(*at)),
            What::Range { host, size, guest } => {
                if self.is_repeated(*host, *size, *guest) {
                    Ok(Vec::new(alloc))
                } else {
                    one_range(alloc, touched_from(*host, *size))
                }
            }
            What::Shared { host, size, .. } => match *host {
                Some(host) => one_range(alloc, touched_from(host, *size)),
                None => Ok(Vec::new(alloc)),
            },
            _ => Ok(Vec::new(alloc)),
        }
    }

    /// The guest pages that an item fills.
    pub(crate) fn pages_of(
        &self,
        alloc: Global,
        described: &Described,
    ) -> Result<Vec<FrameRange>, AllocError>
        ensures few { IfOk result (λ pages. has_frames described.now.what ≡ true → total pages.items ≤ 2 ^ 28) }
        ensures pages { IfOk result (λ pages. (owner : Owner) → (before : List Passed) → Stands owner.guest before self.now → pages.items ≡ pages_of before (entry_of owner described.now)) }
    {
        match &described.what {
            What::Head { pages, .. } => bank_pages(alloc, 0, *pages),
            What::Static { at } => {
                if self.last.direct {
                    one_range(alloc, touched(*at))
                } else {
                    bank_pages(alloc, self.static_pages(), touched(*at).count)
                }
            }
            What::Range { host, size, guest } => {
                if self.is_repeated(*host, *size, *guest) {
                    Ok(Vec::new(alloc))
                } else {
                    one_range(alloc, touched_from(*guest, *size))
                }
            }
            What::Shared { guest, size, .. } => one_range(alloc, touched_from(*guest, *size)),
            _ => Ok(Vec::new(alloc)),
        }
    }
}
