// Sweeping over the ranges of a map: once to count its tables, and once to write them.
ghost use Rattle.std.specs.Prelude.{◌≡◌, ℕ, ◌≤◌, ◌<◌, ◌^◌, ◌+◌, length, map, slice_get, Some};
ghost use Rattle.described.specs.Maps.{AreMapRanges, AreMerged, target_of};
ghost use Rattle.described.specs.declared.map_range.MapRange.{MapRange};
ghost use Rattle.described.specs.Regions.{table_count};
ghost use Rattle.stage2_walk.specs.Pages.{frames_of, blank_page};
ghost use Rattle.stage2_tables.specs.TableFrames.{AreTableFrames};
ghost use Rattle.stage2_tables.specs.Least.{least_image};
ghost use Rattle.stage2_tables.specs.PrivateLeaves.{IsFresh};
ghost use Rattle.stage2_tables.specs.PrivateSteps.{IsInLinked};
ghost use Rattle.stage2_tables.specs.Sweeps.{IsCounted, IsSweptTo};

use crate::leaf::{leaf_level, leaf_word, stretch};
use crate::least::add_leaf;
use crate::regions::SMALL;
use crate::sweep::{Sweep, begin, enter_tables};
use described::MapRange;
use stage2_walk::{Image, pages_spanned};

/// Counts the tables that one of the ranges of a merged map needs besides those before it.
pub fn count_range(sweep: &mut Sweep, ranges: &[MapRange], index: usize)
    requires sorted { AreMapRanges ranges.now }
    requires merged { AreMerged ranges.now }
    requires within { index < length ranges.now }
    requires counted { (range : MapRange) → slice_get ranges.now index ≡ Some range → IsCounted (target_of ranges.now) range.page 1 sweep.old }
    ensures counted { (range : MapRange) → slice_get ranges.now index ≡ Some range → IsCounted (target_of ranges.now) (range.page + range.count) 1 sweep.new }
{
    let range = ranges[index];
    let mut done = 0;
    while done < range.count {
        let page = range.page + done;
        let left = range.count - done;
        let level = leaf_level(page, range.first + done, left);
        enter_tables(sweep, page, level);
        done += stretch(level, page, left);
    }
}

/// Maps the pages of one of the ranges of a merged map that have their words in the latest table of level 3, its first page
/// left out. Pages are counted from the range's first.
fn spread_pages(
    image: &mut Image,
    sweep: &Sweep,
    ranges: &[MapRange],
    index: usize,
    begin: u64,
    end: u64,
)
    requires sorted { AreMapRanges ranges.now }
    requires merged { AreMerged ranges.now }
    requires within { index < length ranges.now }
    requires order { begin ≤ end }
    requires inside { (range : MapRange) → slice_get ranges.now index ≡ Some range → end ≤ range.count }
    requires linked { (range : MapRange) (k : ℕ) → slice_get ranges.now index ≡ Some range → begin ≤ k → k < end → IsInLinked sweep.now (range.page + k) }
    requires fresh { (range : MapRange) → slice_get ranges.now index ≡ Some range → IsFresh (target_of ranges.now) (range.page + begin) }
    requires swept { (range : MapRange) → slice_get ranges.now index ≡ Some range → IsSweptTo (target_of ranges.now) image.old sweep.now (range.page + begin) }
    ensures root { image.new.root ≡ image.old.root }
    ensures frames { frames_of image.new.pages ≡ frames_of image.old.pages }
    ensures swept { (range : MapRange) → slice_get ranges.now index ≡ Some range → IsSweptTo (target_of ranges.now) image.new sweep.now (range.page + end) }
{
    let range = ranges[index];
    for k in begin..end {
        let word = leaf_word(3, range.first + k, range.kind);
        image.put_at(sweep.last, ((range.page + k) % SMALL) as usize, word);
    }
}

/// Maps the pages of one of the ranges of a merged map by the largest words, in ascending order.
pub fn spread_range(image: &mut Image, sweep: &mut Sweep, ranges: &[MapRange], index: usize)
    requires sorted { AreMapRanges ranges.now }
    requires merged { AreMerged ranges.now }
    requires within { index < length ranges.now }
    requires swept { (range : MapRange) → slice_get ranges.now index ≡ Some range → IsSweptTo (target_of ranges.now) image.old sweep.old range.page }
    ensures root { image.new.root ≡ image.old.root }
    ensures frames { frames_of image.new.pages ≡ frames_of image.old.pages }
    ensures swept { (range : MapRange) → slice_get ranges.now index ≡ Some range → IsSweptTo (target_of ranges.now) image.new sweep.new (range.page + range.count) }
{
    let range = ranges[index];
    let mut done = 0;
    while done < range.count {
        let page = range.page + done;
        let frame = range.first + done;
        let left = range.count - done;
        let level = leaf_level(page, frame, left);
        add_leaf(
            image,
            sweep,
            page,
            level,
            leaf_word(level, frame, range.kind),
        );
        let begin = done + pages_spanned(level);
        let end = done + stretch(level, page, left);
        spread_pages(image, sweep, ranges, index, begin, end);
        done = end;
    }
}

/// How many tables a merged map needs, the two root tables among them.
pub fn count_tables(ranges: &[MapRange]) -> u64
    requires sorted { AreMapRanges ranges.now }
    requires merged { AreMerged ranges.now }
    ensures count { result ≡ table_count (target_of ranges.now) }
    ensures few { result ≤ 2 ^ 20 }
{
    let mut sweep = begin();
    for index in 0..ranges.len() {
        count_range(&mut sweep, ranges, index);
    }
    sweep.used as u64
}

/// Writes the least tables of a merged map into an image of blank pages, which has as many as the map needs.
pub fn spread(image: &mut Image, ranges: &[MapRange])
    requires sorted { AreMapRanges ranges.now }
    requires merged { AreMerged ranges.now }
    requires blank { image.old.pages ≡ map blank_page (frames_of image.old.pages) }
    requires tables { AreTableFrames image.old.root (frames_of image.old.pages) }
    requires count { length (frames_of image.old.pages) ≡ table_count (target_of ranges.now) }
    ensures root { image.new.root ≡ image.old.root }
    ensures frames { frames_of image.new.pages ≡ frames_of image.old.pages }
    ensures least { image.new.pages ≡ least_image (target_of ranges.now) (frames_of image.old.pages) }
{
    let mut sweep = begin();
    for index in 0..ranges.len() {
        spread_range(image, &mut sweep, ranges, index);
    }
}
