// Ranges of frames and of pages, and what they have in common. A frame or page is 4,096 bytes, by its number.
ghost use Rattle.std.specs.Prelude.{◌≡◌, ℕ, ◌+◌, ◌^◌, ◌<◌, ◌≤◌, [], ◌∷◌, length, slice_index_or};
ghost use Rattle.texts.specs.declared.ranges.FrameRange.{FrameRange as Frames};
ghost use Rattle.frame_alloc.specs.Frames.{AreFrameRanges};
ghost use Rattle.frame_alloc.specs.Ranges.{touched, have_common, lie_in};

use std::cmp::min;
use texts::{BaseSize, FrameRange};

/// Addresses and frames are below 2^40 and 2^28.
pub(crate) const FRAME_LIMIT: u64 = 1 << 28;

/// The frames that hold one of the bytes of a range, cut at 2^40.
pub fn touched(range: BaseSize) -> FrameRange
    ensures touched { result ≡ touched range }
    ensures low { result.first + result.count ≤ 2 ^ 28 }
{
    if range.size == 0 {
        return FrameRange { first: 0, count: 0 };
    }
    let past = (u128::from(range.base) + u128::from(range.size) + 4095) / 4096;
    let first = min(range.base / 4096, FRAME_LIMIT);
    let end = min(past, u128::from(FRAME_LIMIT)) as u64;
    FrameRange {
        first,
        count: end - first,
    }
}

/// The frames that hold one of `size` bytes from an address on, cut at 2^40.
pub fn touched_from(base: u64, size: u64) -> FrameRange
    ensures touched { result ≡ touched (record { base = base; size = size }) }
    ensures low { result.first + result.count ≤ 2 ^ 28 }
{
    touched(BaseSize { base, size })
}

/// Whether two ranges have a frame in common.
pub fn meet(one: FrameRange, other: FrameRange) -> bool
    ensures { result ≡ have_common (one ∷ []) (other ∷ []) }
{
    let one_begins = one.first.saturating_sub(other.first);
    let other_begins = other.first.saturating_sub(one.first);
    if one_begins >= other.count {
        return false;
    }
    other_begins < one.count
}

/// How many of sorted ranges end at or below a frame, found by halving.
fn ended_by(ranges: &[FrameRange], frame: u64) -> usize
    requires sorted { AreFrameRanges ranges.now }
    ensures within { result ≤ length ranges.now }
    ensures ended { (k : ℕ) → (d : Frames) → k < result → (slice_index_or ranges.now k d).first + (slice_index_or ranges.now k d).count ≤ frame }
{
    let mut low = 0;
    let mut high = ranges.len();
    while low < high {
        let middle = low + (high - low) / 2;
        let range = ranges[middle];
        if range.first + range.count <= frame {
            low = middle + 1;
        } else {
            high = middle;
        }
    }
    low
}

/// Whether every frame of a range lies in one of these sorted ranges, looked at one by one.
fn is_covered(ranges: &[FrameRange], range: FrameRange) -> bool
    requires sorted { AreFrameRanges ranges.now }
    requires low { range.first + range.count ≤ 2 ^ 28 }
    ensures { result ≡ lie_in ranges.now (range ∷ []) }
{
    let end = range.first + range.count;
    let mut next = range.first;
    for one in ranges {
        if end <= next {
            return true;
        }
        if next < one.first {
            return false;
        }
        next += (one.first + one.count).saturating_sub(next);
    }
    end <= next
}

/// Whether every frame of a range lies in one of these sorted ranges. Ranges that end before it are skipped by halving.
pub fn lies_in(ranges: &[FrameRange], range: FrameRange) -> bool
    requires sorted { AreFrameRanges ranges.now }
    requires low { range.first + range.count ≤ 2 ^ 28 }
    ensures { result ≡ lie_in ranges.now (range ∷ []) }
{
    let skipped = ended_by(ranges, range.first);
    is_covered(&ranges[skipped..], range)
}

/// Whether a range has a frame in common with one of several.
pub fn meets_any(one: FrameRange, others: &[FrameRange]) -> bool
    ensures { result ≡ have_common (one ∷ []) others.now }
{
    for other in others {
        if meet(one, *other) {
            return true;
        }
    }
    false
}
