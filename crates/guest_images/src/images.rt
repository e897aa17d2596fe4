//! The images of guests, one after the other from one pool.
ghost use Rattle.std.specs.Prelude.{◌≡◌, All, Bool, IfErr, IfOk, None, OnOk, ℕ, map};
ghost use Rattle.described.specs.Maps.{AreMapRanges, AreMerged};
ghost use Rattle.guest_images.specs.Built.{files_in, tables_counted};
ghost use Rattle.guest_images.specs.Faults.{IsFaultOf};
ghost use Rattle.guest_images.specs.Images.{least_files};
ghost use Rattle.guest_images.specs.Requests.{left_by_all, refused_tables, tables_needed};
ghost use Rattle.guest_images.specs.Walks.{AllWalk, AreApart, MeetOnlyIn};
ghost use Rattle.domain_plan.specs.Apart.{ArePlannedApart};

use crate::fault::ImagesFault;
use crate::image::build_image;
use domain_plan::GuestPlan;
use frame_alloc::FramePool;
use std::alloc::Global;
use texts::{Bytes, List};

/// The image of a guest.
#[derive(Drop)]
pub struct GuestImage {
    /// Its file, in bytes: the magic, the root, the number of tables, and each table with its frame.
    pub file: Bytes,
    /// How many tables it has, the two root tables among them.
    pub tables: u64,
}

/// The images of guests in their order, the tables of each in the lowest frames that those before it left: first an even
/// pair, and then single frames (Arm ARM, VMSAv8-64 stage 2, 4 KB granule, two concatenated root tables).
///
/// Refused comes exactly where fewer frames are left for a guest than its map needs, or no even pair is among them; it
/// names the first such guest. What the pool holds after an `Err` is left open.
pub fn build_images(
    alloc: Global,
    plans: &[GuestPlan],
    pool: &mut FramePool,
) -> Result<List<GuestImage>, ImagesFault>
    requires sorted { All (λ plan. AreMapRanges plan.ranges) plans.now }
    requires merged { All (λ plan. AreMerged plan.ranges) plans.now }

    // The files are those of least tables, word for word, and these frames are left.
    ensures files { IfOk result (λ images. files_in images ≡ least_files plans.now pool.old.free) }
    ensures tables { IfOk result (λ images. tables_counted images ≡ map tables_needed plans.now) }
    ensures left { OnOk result (pool.new.free ≡ left_by_all plans.now pool.old.free) }

    // Walking an image goes where its guest's map says.
    ensures walk { IfOk result (λ images. AllWalk plans.now (files_in images)) }

    // Where the maps are apart, frames of two guests meet only where they are common, and no table can be written by a guest.
    ensures meet { IfOk result (λ images. (common : ℕ → ℕ → ℕ → Bool) → ArePlannedApart common plans.now pool.old.free → MeetOnlyIn common (files_in images)) }
    ensures apart { IfOk result (λ images. (common : ℕ → ℕ → ℕ → Bool) → ArePlannedApart common plans.now pool.old.free → AreApart (files_in images)) }

    // The requests of all guests are met, or the first that is not is named.
    ensures met { OnOk result (refused_tables plans.now pool.old.free ≡ None) }
    ensures refused { IfErr result (λ fault. IsFaultOf (refused_tables plans.now pool.old.free) fault) }
{
    let mut images = List::new(alloc);
    for plan in plans {
        match build_image(alloc, plan, pool) {
            Ok(image) => images.push(image)?,
            Err(fault) => return Err(fault),
        }
    }
    Ok(images)
}
