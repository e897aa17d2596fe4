// Building the tables of a map in ranges.
ghost use Rattle.std.specs.Prelude.{◌≡◌, ◌≤◌, All, false, IsTrue, length, IfOk, IfErr, OnOk, OnErr, Some};
ghost use Rattle.texts.specs.Consecutive.{is_in};
ghost use Rattle.described.specs.Maps.{AreMapRanges, AreMerged, target_of};
ghost use Rattle.described.specs.Regions.{table_count};
ghost use Rattle.frame_alloc.specs.Frames.{lowest_pair};
ghost use Rattle.stage2_walk.specs.Pages.{frames_of};
ghost use Rattle.stage2_walk.specs.Files.{has_root};
ghost use Rattle.stage2_tables.specs.Translation.{TranslatesAs, IsComplete};
ghost use Rattle.stage2_tables.specs.Least.{least_image};
ghost use Rattle.stage2_tables.specs.Draws.{table_frames, free_after};
ghost use Rattle.stage2_tables.specs.Faults.{FaultAsStated};

use crate::draw::draw_image;
use crate::fault::TableFault;
use crate::spread::{count_tables, spread};
use described::MapRange;
use frame_alloc::FramePool;
use stage2_walk::Image;
use std::alloc::Global;
use texts::List;

/// Builds the least stage 2 tables of a map in ranges, in frames of the pool (Arm ARM, VMSAv8-64 stage 2, 4 KB granule, two
/// concatenated root tables at level 1). A region of 1 GiB or 2 MiB is one block wherever all its pages go to consecutive
/// frames of one kind, from a frame that is a multiple of the region's pages; each other mapped page has a page word, and
/// no table stands that no page needs. The pages of the image are in the order of drawing: the lowest pair, which are the
/// root tables, and then the lowest frames of what is left, for the tables by first address, the upper level first.
///
/// NoFrame comes exactly where fewer frames are free than there are tables, NoPair exactly where enough are free and no
/// pair is. After a refusal the free frames are as before.
pub fn build_tables(
    alloc: Global,
    ranges: &List<MapRange>,
    pool: &mut FramePool,
) -> Result<Image, TableFault>
    requires sorted { AreMapRanges ranges.now }
    requires merged { AreMerged ranges.now }

    // The tables are the least ones, word for word.
    ensures least { IfOk result (λ image. image.pages ≡ least_image (target_of ranges.now) (frames_of image.pages)) }

    // The walk of the image goes exactly where the ranges say.
    ensures walk { IfOk result (λ image. TranslatesAs image.pages image.root ranges.now) }
    ensures complete { IfOk result (λ image. IsComplete image.pages image.root) }

    // Which frames become tables, and which are left.
    ensures root { IfOk result (λ image. lowest_pair pool.old.free ≡ Some image.root) }
    ensures root_pages { IfOk result (λ image. IsTrue (has_root image.root (frames_of image.pages))) }
    ensures frames { IfOk result (λ image. table_frames (table_count (target_of ranges.now)) pool.old.free ≡ Some (frames_of image.pages)) }
    ensures count { IfOk result (λ image. length image.pages ≡ table_count (target_of ranges.now)) }
    ensures enough { OnOk result (table_count (target_of ranges.now) ≤ length pool.old.free) }
    ensures free_tables { IfOk result (λ image. All (λ frame. IsTrue (is_in pool.old.free frame)) (frames_of image.pages)) }
    ensures taken { IfOk result (λ image. All (λ frame. is_in pool.new.free frame ≡ false) (frames_of image.pages)) }
    ensures rest { IfOk result (λ image. pool.new.free ≡ free_after (table_count (target_of ranges.now)) pool.old.free) }

    ensures fault { IfErr result (λ fault. FaultAsStated (table_count (target_of ranges.now)) pool.old.free fault) }
    ensures err { OnErr result (pool.new.free ≡ pool.old.free) }
{
    let needed = count_tables(ranges.as_slice());
    let mut image = draw_image(alloc, needed, pool)?;
    spread(&mut image, ranges.as_slice());
    Ok(image)
}
