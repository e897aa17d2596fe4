// What items take, with ranges by which it is told that others have nothing of it.
ghost use Rattle.std.specs.Prelude.{◌≡◌, ℕ, ◌+◌, ◌^◌, ◌<◌, ◌≤◌, ◌⊎◌, ◌++◌, ◌∷◌, [], true, false, None, Some, find, option_map, OnOk, IfSome};
ghost use Rattle.frame_alloc.specs.Ranges.{have_common, holds};
ghost use Rattle.item_checks.specs.PrivateTakings.{Has, IsCovered, AreRisingPast, AreRising, AreClear};

use crate::state::Taken;
use frame_alloc::meets_any;
use std::alloc::{AllocError, Global};
use std::collections::BTreeMap;
use std::marker::Model;
use texts::FrameRange;

/// What items take, in their order. That ranges have nothing of it is told in the time of a search in a sorted list; the
/// first item that takes something of them is found by looking at each.
#[derive(Drop)]
pub(crate) struct Takings {
    all: Vec<Taken>,
    /// Where ranges that cover it end, by where they begin; those that begin later end later.
    ends: BTreeMap<u128, u128>,
}

impl Model for Takings {
    ghost use Rattle.std.specs.Prelude.{List};
    ghost use Rattle.item_checks.specs.declared.state.Taken.{Taken};
    ghost use Rattle.item_checks.specs.PrivateTakings.{IsIndex};

    ghost Value = { List Taken };

    ghost view = { λ takings. takings.all.items };

    ghost invariant = { λ takings. IsIndex takings.ends takings.all.items };
}

/// Whether the ranges have all from `first` on before `end`.
fn have_all(ends: &BTreeMap<u128, u128>, first: u128, end: u128) -> bool
    requires { AreRising ends.now }
    ensures yes { result ≡ true → (one : ℕ) × (last : ℕ) × Has ends.now one last × (one ≤ first) × (end ≤ last) }
    ensures no { result ≡ false → (one last : ℕ) → Has ends.now one last → one ≤ first → last < end }
{
    match ends.range(..=first).next_back() {
        None => false,
        Some((_, last)) => end <= *last,
    }
}

/// Where the first range begins that begins past `first`, if it ends by `end`.
fn next_within(ends: &BTreeMap<u128, u128>, first: u128, end: u128) -> Option<u128>
    requires low { first + 1 < 2 ^ 128 }
    requires rising { AreRisingPast first ends.now }
    ensures some { IfSome result (λ next. (first < next) × (last : ℕ) × Has ends.now next last × (last ≤ end)) }
    ensures none { result ≡ None → (one last : ℕ) → Has ends.now one last → first < one → end < last }
{
    match ends.range(first + 1..).next() {
        None => None,
        Some((next, last)) => { if *last <= end { Some(*next) } else { None } }
    }
}

/// Drops the ranges that begin past `first` and end by `end`.
fn drop_within(ends: &mut BTreeMap<u128, u128>, first: u128, end: u128)
    requires low { first + 1 < 2 ^ 128 }
    requires rising { AreRisingPast first ends.old }
    ensures fewer { (one last : ℕ) → Has ends.new one last → Has ends.old one last }
    ensures past { (one last : ℕ) → Has ends.new one last → first < one → end < last }
    ensures kept { (one last : ℕ) → Has ends.old one last → Has ends.new one last ⊎ ((first < one) × (last ≤ end)) }
{
    while let Some(next) = next_within(ends, first, end) {
        let _ = ends.remove(&next);
    }
}

/// Covers a range too. After want of memory the ranges are as they were.
fn cover(ends: &mut BTreeMap<u128, u128>, range: FrameRange) -> Result<(), AllocError>
    requires { AreRising ends.old }
    ensures rising { AreRising ends.new }
    ensures kept { (frame : ℕ) → IsCovered ends.old frame → IsCovered ends.new frame }
    ensures covered { OnOk result ((frame : ℕ) → holds (range ∷ []) frame ≡ true → IsCovered ends.new frame) }
{
    let first = u128::from(range.first);
    let end = first + u128::from(range.count);
    if range.count == 0 || have_all(ends, first, end) {
        return Ok(());
    }
    ends.insert(first, end)?;
    drop_within(ends, first, end);
    Ok(())
}

/// Whether a range may have something that is covered; where not, it has nothing of it.
fn may_meet(ends: &BTreeMap<u128, u128>, range: FrameRange) -> bool
    requires { AreRising ends.now }
    ensures { result ≡ false → AreClear ends.now (range ∷ []) }
{
    let first = u128::from(range.first);
    let end = first + u128::from(range.count);
    if range.count == 0 {
        return false;
    }
    match ends.range(..end).next_back() {
        None => false,
        Some((_, last)) => first < *last,
    }
}

/// Whether some ranges may have something that is covered; where not, they have nothing of it.
fn may_meet_any(ends: &BTreeMap<u128, u128>, ranges: &[FrameRange]) -> bool
    requires { AreRising ends.now }
    ensures { result ≡ false → AreClear ends.now ranges.now }
{
    for range in ranges {
        if may_meet(ends, *range) {
            return true;
        }
    }
    false
}

/// The place of the first item that takes something of these ranges, looked at one by one.
fn first_of(taken: &[Taken], ranges: &[FrameRange]) -> Option<usize>
    ensures { result ≡ option_map (λ taken. taken.item) (find (λ taken. have_common (taken.range ∷ []) ranges.now) taken.now) }
{
    for one in taken {
        if meets_any(one.range, ranges) {
            return Some(one.item);
        }
    }
    None
}

impl Takings {
    /// Nothing is taken. Takes no memory.
    pub(crate) fn new(alloc: Global) -> Takings
        ensures { result ≡ [] }
    {
        Takings {
            all: Vec::new(alloc),
            ends: BTreeMap::new(alloc),
        }
    }

    /// Forgets all that is taken.
    pub(crate) fn clear(&mut self)
        ensures { self.new ≡ [] }
    {
        self.all.clear();
        self.ends.clear();
    }

    /// Adds what an item takes.
    pub(crate) fn add(&mut self, taken: Taken) -> Result<(), AllocError>
        ensures { OnOk result (self.new ≡ self.old ++ taken ∷ []) }
    {
        cover(&mut self.ends, taken.range)?;
        self.all.push(taken)?;
        Ok(())
    }

    /// All that is taken, in the order of the items.
    pub(crate) fn as_slice(&self) -> &[Taken]
        ensures value { result.now ≡ self.now }
    {
        self.all.as_slice()
    }

    /// Whether an item may take something of these ranges; where not, none does.
    pub(crate) fn may_take(&self, ranges: &[FrameRange]) -> bool
        ensures { result ≡ false → find (λ taken. have_common (taken.range ∷ []) ranges.now) self.now ≡ None }
    {
        may_meet_any(&self.ends, ranges)
    }

    /// The place of the first item that takes something of these ranges.
    pub(crate) fn first_place(&self, ranges: &[FrameRange]) -> Option<usize>
        ensures { result ≡ option_map (λ taken. taken.item) (find (λ taken. have_common (taken.range ∷ []) ranges.now) self.now) }
    {
        if !self.may_take(ranges) {
            return None;
        }
        first_of(self.all.as_slice(), ranges)
    }
}
