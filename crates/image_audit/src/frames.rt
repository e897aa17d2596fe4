//! The frames of tables, and those that are left when some are taken. A frame is 4,096 bytes of the host, and frames are
//! below 2^28.
ghost use Rattle.std.specs.Prelude.{◌≡◌, ◌++◌, All, IfOk, OnOk, false, find, map};
ghost use Rattle.described.specs.Maps.{AreMapRanges};
ghost use Rattle.frame_alloc.specs.Frames.{AreFrameRanges};
ghost use Rattle.stage2_walk.specs.Pages.{frames_of};
ghost use Rattle.image_audit.specs.Findings.{is_mapped};
ghost use Rattle.image_audit.specs.PrivateRests.{IsLeft, IsRest, host_frames, is_outside};

use described::MapRange;
use domain_plan::GuestPlan;
use frame_alloc::{frames_left, lies_in};
use stage2_walk::Image;
use std::alloc::{AllocError, Global};
use texts::{FrameRange, List};

/// All frames.
const ALL: FrameRange = FrameRange {
    first: 0,
    count: 1 << 28,
};

/// All frames, as a list of ranges.
pub(crate) fn all_frames(alloc: Global) -> Result<List<FrameRange>, AllocError>
    ensures { IfOk result (λ all. IsRest (λ _. false) all) }
{
    let mut all = List::new(alloc);
    all.push(ALL)?;
    Ok(all)
}

/// The frames that no guest is planned to be mapped to.
pub(crate) fn find_unmapped(
    alloc: Global,
    guests: &[GuestPlan],
) -> Result<List<FrameRange>, AllocError>
    requires { All (λ guest. AreMapRanges guest.ranges) guests.now }
    ensures { IfOk result (λ unmapped. IsRest (is_mapped guests.now) unmapped) }
{
    let mut taken = Vec::new(alloc);
    for guest in guests {
        append_mapped(&mut taken, guest.ranges.as_slice())?;
    }
    frames_left(alloc, &[ALL], taken)
}

/// Adds the frames that a guest is planned to be mapped to.
fn append_mapped(taken: &mut Vec<FrameRange>, ranges: &[MapRange]) -> Result<(), AllocError>
    ensures { OnOk result (taken.new.items ≡ taken.old.items ++ map host_frames ranges.now) }
{
    for range in ranges {
        taken.push(FrameRange {
            first: range.first,
            count: range.count,
        })?;
    }
    Ok(())
}

/// The frames of these ranges that no table of an image lies in.
pub(crate) fn leave_tables(
    alloc: Global,
    ranges: &[FrameRange],
    image: &Image,
) -> Result<List<FrameRange>, AllocError>
    requires { AreFrameRanges ranges.now }
    ensures { IfOk result (λ left. IsLeft ranges.now (frames_of image.now.pages) left) }
{
    let mut taken = Vec::new(alloc);
    for index in 0..image.page_count() {
        taken.push(FrameRange {
            first: image.frame_at(index),
            count: 1,
        })?;
    }
    frames_left(alloc, ranges, taken)
}

/// The frame of the first table of an image, in the order of its file, that lies in none of these sorted ranges.
pub(crate) fn find_outside(image: &Image, ranges: &[FrameRange]) -> Option<u64>
    requires { AreFrameRanges ranges.now }
    ensures { result ≡ find (is_outside ranges.now) (frames_of image.now.pages) }
{
    for index in 0..image.page_count() {
        let frame = image.frame_at(index);
        if !lies_in(
            ranges,
            FrameRange {
                first: frame,
                count: 1,
            },
        ) {
            return Some(frame);
        }
    }
    None
}
