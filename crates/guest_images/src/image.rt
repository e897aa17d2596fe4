//! The image of one guest.
ghost use Rattle.std.specs.Prelude.{◌≡◌, ◌⊎◌, IfErr, IfOk, None, OnOk, Some};
ghost use Rattle.described.specs.Maps.{AreMapRanges, AreMerged};
ghost use Rattle.guest_images.specs.PrivateImageFiles.{IsImageFile};
ghost use Rattle.guest_images.specs.Requests.{left_by, no_table_frame, tables_item, tables_needed};

use crate::fault::ImagesFault;
use crate::images::GuestImage;
use described::{Item, Part, Why};
use domain_plan::GuestPlan;
use frame_alloc::FramePool;
use stage2_tables::{TableFault, build_tables};
use std::alloc::{AllocError, Global};
use texts::Bytes;

/// The image of a guest, its tables in frames of the pool.
pub(crate) fn build_image(
    alloc: Global,
    plan: &GuestPlan,
    pool: &mut FramePool,
) -> Result<GuestImage, ImagesFault>
    requires sorted { AreMapRanges plan.now.ranges }
    requires merged { AreMerged plan.now.ranges }
    ensures built { IfOk result (λ image. IsImageFile plan.now.ranges pool.old.free image.file) }
    ensures tables { IfOk result (λ image. image.tables ≡ tables_needed plan.now) }
    ensures left { OnOk result (pool.new.free ≡ left_by plan.now pool.old.free) }
    ensures met { OnOk result (no_table_frame plan.now pool.old.free ≡ None) }
    ensures refused { IfErr result (λ fault. (fault ≡ ImagesFault.Memory) ⊎ ((why : _) × (fault ≡ ImagesFault.Refused (tables_item plan.now) why) × (no_table_frame plan.now pool.old.free ≡ Some why))) }
{
    match build_tables(alloc, &plan.ranges, pool) {
        Ok(image) => {
            let tables = image.page_count() as u64;
            let file = Bytes::from(image.bytes()?);
            Ok(GuestImage { file, tables })
        }
        Err(fault) => Err(refusal(alloc, plan, &fault)),
    }
}

/// The request of a guest for its tables, as an item that cannot be met.
fn refusal(alloc: Global, plan: &GuestPlan, fault: &TableFault) -> ImagesFault
    ensures no_frame { (needed : _) → (free : _) → fault.now ≡ TableFault.NoFrame needed free → (result ≡ ImagesFault.Memory) ⊎ (result ≡ ImagesFault.Refused (tables_item plan.now) (Why.NoTableFrame needed free)) }
    ensures no_pair { (needed : _) → (free : _) → fault.now ≡ TableFault.NoPair needed free → (result ≡ ImagesFault.Memory) ⊎ (result ≡ ImagesFault.Refused (tables_item plan.now) (Why.NoTableFrame needed free)) }
    ensures memory { fault.now ≡ TableFault.Memory → result ≡ ImagesFault.Memory }
{
    match *fault {
        TableFault::NoFrame { needed, free } | TableFault::NoPair { needed, free } => {
            match tables_item(alloc, plan) {
                Ok(item) => ImagesFault::Refused(item, Why::NoTableFrame(needed, free)),
                Err(_) => ImagesFault::Memory,
            }
        }
        TableFault::Memory => ImagesFault::Memory,
    }
}

/// The request of a guest for its tables, as an item.
fn tables_item(alloc: Global, plan: &GuestPlan) -> Result<Item, AllocError>
    ensures { IfOk result (λ item. item ≡ tables_item plan.now) }
{
    let mut path = Bytes::new(alloc);
    path.append(plan.path.as_slice())?;
    Ok(Item {
        part: Part::Tables,
        path,
        index: 0,
    })
}
