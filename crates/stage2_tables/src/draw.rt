// Drawing the frames of tables from a pool.
ghost use Rattle.std.specs.Prelude.{◌≡◌, ◌+◌, ◌-◌, ◌%◌, ◌^◌, ◌<◌, ◌≤◌, [], ◌∷◌, ◌++◌, All, false, length, take, drop, Some, IfOk, IfErr, OnOk, OnErr};
ghost use Rattle.texts.specs.Consecutive.{is_in};
ghost use Rattle.frame_alloc.specs.Frames.{lowest_pair};
ghost use Rattle.stage2_walk.specs.Pages.{frames_of};
ghost use Rattle.stage2_tables.specs.BlankPages.{AreApart, AreBlank};
ghost use Rattle.stage2_tables.specs.Draws.{table_frames, free_after};
ghost use Rattle.stage2_tables.specs.Faults.{FaultAsStated};
ghost use Rattle.stage2_tables.specs.TableFrames.{AreTableFrames};

use crate::fault::TableFault;
use frame_alloc::{FramePool, PoolFault};
use stage2_walk::Image;
use std::alloc::Global;

/// Draws the lowest free frame as a last, blank page of the image.
pub fn draw_page(image: &mut Image, pool: &mut FramePool)
    requires blank { AreBlank image.old.pages }
    requires apart { AreApart (frames_of image.old.pages ++ pool.old.free) }
    requires some { 0 < length pool.old.free }
    requires room { 0 < image.old.spare }
    ensures root { image.new.root ≡ image.old.root }
    ensures frames { frames_of image.new.pages ≡ frames_of image.old.pages ++ take 1 pool.old.free }
    ensures blank { AreBlank image.new.pages }
    ensures rest { pool.new.free ≡ drop 1 pool.old.free }
    ensures spare { image.old.spare ≤ image.new.spare + 1 }
{
    if let Some(frame) = pool.take_frame() {
        image.push(frame);
    }
}

/// Draws the lowest free frames as further blank pages of the image.
pub fn draw_pages(image: &mut Image, pool: &mut FramePool, count: u64)
    requires blank { AreBlank image.old.pages }
    requires apart { AreApart (frames_of image.old.pages ++ pool.old.free) }
    requires enough { count ≤ length pool.old.free }
    requires room { count ≤ image.old.spare }
    ensures root { image.new.root ≡ image.old.root }
    ensures frames { frames_of image.new.pages ≡ frames_of image.old.pages ++ take count pool.old.free }
    ensures blank { AreBlank image.new.pages }
    ensures rest { pool.new.free ≡ drop count pool.old.free }
{
    for _drawn in 0..count {
        draw_page(image, pool);
    }
}

/// Gives an image without pages its root and the two blank root pages.
pub fn push_roots(image: &mut Image, root: u64)
    requires even { root % 2 ≡ 0 }
    requires low { root + 1 < 2 ^ 28 }
    requires empty { image.old.pages ≡ [] }
    requires room { 2 ≤ image.old.spare }
    ensures root { image.new.root ≡ root }
    ensures frames { frames_of image.new.pages ≡ root ∷ (root + 1) ∷ [] }
    ensures blank { AreBlank image.new.pages }
    ensures spare { image.old.spare ≤ image.new.spare + 2 }
{
    image.set_root(root);
    image.push(root);
    image.push(root + 1);
}

/// Draws the frames of this many tables, the root pair first, as an image of blank pages.
pub fn draw_image(alloc: Global, needed: u64, pool: &mut FramePool) -> Result<Image, TableFault>
    requires roots { 2 ≤ needed }
    requires few { needed ≤ 2 ^ 20 }
    ensures root { IfOk result (λ image. lowest_pair pool.old.free ≡ Some image.root) }
    ensures frames { IfOk result (λ image. table_frames needed pool.old.free ≡ Some (frames_of image.pages)) }
    ensures blank { IfOk result (λ image. AreBlank image.pages) }
    ensures tables { IfOk result (λ image. AreTableFrames image.root (frames_of image.pages)) }
    ensures count { IfOk result (λ image. length (frames_of image.pages) ≡ needed) }
    ensures enough { OnOk result (needed ≤ length pool.old.free) }
    ensures rest { IfOk result (λ image. pool.new.free ≡ free_after needed pool.old.free) }
    ensures taken { IfOk result (λ image. All (λ frame. is_in pool.new.free frame ≡ false) (frames_of image.pages)) }
    ensures fault { IfErr result (λ fault. FaultAsStated needed pool.old.free fault) }
    ensures err { OnErr result (pool.new.free ≡ pool.old.free) }
{
    let free = pool.free_frames();
    if free < needed {
        return Err(TableFault::NoFrame { needed, free });
    }
    let mut image = Image::new(alloc, 0);
    image.reserve(needed as usize)?;
    pool.reserve(1)?;
    match pool.take_pair() {
        Ok(root) => {
            push_roots(&mut image, root);
            draw_pages(&mut image, pool, needed - 2);
            Ok(image)
        }
        Err(PoolFault::NoPair) => Err(TableFault::NoPair { needed, free }),
        Err(_) => Err(TableFault::Memory),
    }
}
