//! The first finding in an image.
ghost use Rattle.std.specs.Prelude.{◌≡◌, ◌+◌, IfOk, IsSome};
ghost use Rattle.std.specs.Option.{option_or};
ghost use Rattle.described.specs.Maps.{AreMapRanges, AreMerged};
ghost use Rattle.frame_alloc.specs.Frames.{AreFrameRanges};
ghost use Rattle.stage2_walk.specs.Pages.{page_of};
ghost use Rattle.stage2_walk.specs.Runs.{mapped_runs};
ghost use Rattle.image_audit.specs.Findings.{difference, audit_finding, table_where};
ghost use Rattle.image_audit.specs.Texts.{table_mapped, table_shared};
ghost use Rattle.image_audit.specs.PrivateRests.{is_outside};

use crate::differences::{find_parting, planned_goal, walked_goal};
use crate::findings_text::{make_difference_text, make_frame_text, make_tear_text};
use crate::frames::find_outside;
use described::MapRange;
use stage2_walk::{Counted, Image, Run, runs};
use std::alloc::{AllocError, Global};
use texts::{Bytes, FrameRange};

/// The first finding in an image of a guest that is planned to have these ranges: where it is torn, where it goes elsewhere,
/// a table in none of the unmapped frames, or a table in none of the free ones.
pub(crate) fn find_finding(
    alloc: Global,
    words: &mut Counted,
    ranges: &[MapRange],
    unmapped: &[FrameRange],
    free: &[FrameRange],
) -> Result<Option<Bytes>, AllocError>
    requires first { IsSome (page_of words.old.image.pages words.old.image.root) }
    requires second { IsSome (page_of words.old.image.pages (words.old.image.root + 1)) }
    requires sorted { AreMapRanges ranges.now }
    requires merged { AreMerged ranges.now }
    requires unmapped { AreFrameRanges unmapped.now }
    requires free { AreFrameRanges free.now }
    ensures found { IfOk result (λ found. found ≡ audit_finding (is_outside unmapped.now) (is_outside free.now) ranges.now words.old.image.pages words.old.image.root) }
    ensures pages { words.new.image.pages ≡ words.old.image.pages }
{
    match runs(alloc, words) {
        Ok(runs) => compare(
            alloc,
            words.image(),
            runs.as_slice(),
            ranges,
            unmapped,
            free,
        ),
        Err(tear) => Ok(Some(make_tear_text(alloc, tear)?)),
    }
}

/// The same of an image that is not torn and has these runs.
fn compare(
    alloc: Global,
    image: &Image,
    runs: &[Run],
    ranges: &[MapRange],
    unmapped: &[FrameRange],
    free: &[FrameRange],
) -> Result<Option<Bytes>, AllocError>
    requires runs { runs.now ≡ mapped_runs image.now.pages image.now.root }
    requires sorted { AreMapRanges ranges.now }
    requires merged { AreMerged ranges.now }
    requires unmapped { AreFrameRanges unmapped.now }
    requires free { AreFrameRanges free.now }
    ensures { IfOk result (λ found. found ≡ option_or (difference ranges.now image.now.pages image.now.root) (option_or (table_where table_mapped (is_outside unmapped.now) image.now.pages) (table_where table_shared (is_outside free.now) image.now.pages))) }
{
    if let Some(page) = find_parting(runs, ranges) {
        let goal = walked_goal(image, page);
        let planned = planned_goal(ranges, page);
        let text = make_difference_text(alloc, page, goal, planned)?;
        return Ok(Some(text));
    }
    if let Some(frame) = find_outside(image, unmapped) {
        return Ok(Some(make_frame_text(alloc, b"TableMapped", frame)?));
    }
    if let Some(frame) = find_outside(image, free) {
        return Ok(Some(make_frame_text(alloc, b"TableShared", frame)?));
    }
    Ok(None)
}
