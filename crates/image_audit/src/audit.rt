//! The audit of the images of guests, one after the other.
ghost use Rattle.std.specs.Prelude.{◌≡◌, ◌+◌, ℕ, All, IfErr, IfOk, IsSome, List as Items, None, OnOk};
ghost use Rattle.std.specs.Option.{option_copied};
ghost use Rattle.outside.specs.Reads.{Reads};
ghost use Rattle.described.specs.Maps.{AreMapRanges, AreMerged};
ghost use Rattle.frame_alloc.specs.Frames.{AreFrameRanges};
ghost use Rattle.stage2_walk.specs.Files.{image_of};
ghost use Rattle.stage2_walk.specs.Pages.{frames_of, page_of};
ghost use Rattle.guest_images.specs.Names.{image_name};
ghost use Rattle.guest_images.specs.Walks.{tables_in};
ghost use Rattle.run_steps.specs.Names.{joined};
ghost use Rattle.run_steps.specs.Steps.{nothing};
ghost use Rattle.run_steps.specs.Stops.{StopsFor, IsOwnDue};
ghost use Rattle.image_audit.specs.Audits.{AfterAudit, AfterAudits, AfterImage, IsAudited, FindsNothing, IsSound, UnlessFound};
ghost use Rattle.image_audit.specs.Findings.{audit_finding};
ghost use Rattle.image_audit.specs.PrivateRests.{is_outside, IsLeft};

use crate::finding::find_finding;
use crate::findings_text::make_image_fault_text;
use crate::frames::{all_frames, find_unmapped, leave_tables};
use described::MapRange;
use domain_plan::GuestPlan;
use guest_images::make_image_name;
use outside::{Files, Status};
use run_steps::{Stop, join, make_file_message, read_file};
use stage2_walk::{Counted, Image, read_image};
use std::alloc::{AllocError, Global};
use texts::{FrameRange, List, Text};

// The longest image that is read, in bytes.
const IMAGE_LIMIT: u64 = 268_435_456;

/// Audits the image of each guest of a plan, read from its file in a folder, where one is given. Of each image first the
/// format is tested, and then the first finding is named; one image is in memory at a time. The guests' ranges are sorted
/// and merged, as those of a plan are.
pub fn audit_images<F: Files>(
    alloc: Global,
    guests: &[GuestPlan],
    folder: Option<&str>,
    files: &mut F,
) -> Result<(), Stop>
    requires sorted { All (λ guest. AreMapRanges guest.ranges) guests.now }
    requires merged { All (λ guest. AreMerged guest.ranges) guests.now }
    // Nothing is found in any image, and so they isolate the guests as the plan does.
    ensures audited { OnOk result (FindsNothing (F.held files.old) (option_copied folder.entry) guests.now) }
    ensures stopped { IfErr result (StopsFor F.counts files.old files.new (AfterAudits (F.held files.old) (option_copied folder.entry) guests.now nothing)) }
    ensures only_read { Reads F.held F.counts files.old files.new }
{
    let unmapped = find_unmapped(alloc, guests)?;
    let mut free = all_frames(alloc)?;
    for guest in guests {
        match audit_image(
            alloc,
            guest,
            folder,
            unmapped.as_slice(),
            free.as_slice(),
            files,
        ) {
            Ok(left) => free = left,
            Err(stop) => return Err(stop),
        }
    }
    Ok(())
}

/// The name of the image of the guest with this number, in a folder where one is given.
fn make_image_path(alloc: Global, folder: Option<&str>, number: u64) -> Result<Text, AllocError>
    ensures { IfOk result (λ name. name ≡ joined (option_copied folder.entry) (image_name number)) }
{
    let name = make_image_name(alloc, number)?;
    join(alloc, folder, name.as_str())
}

/// Audits the image of a guest, where some frames are mapped by no guest, and some are free of the tables of earlier images.
/// Answers the frames that are then free.
fn audit_image<F: Files>(
    alloc: Global,
    guest: &GuestPlan,
    folder: Option<&str>,
    unmapped: &[FrameRange],
    free: &[FrameRange],
    files: &mut F,
) -> Result<List<FrameRange>, Stop>
    requires sorted { AreMapRanges guest.now.ranges }
    requires merged { AreMerged guest.now.ranges }
    requires unmapped { AreFrameRanges unmapped.now }
    requires free { AreFrameRanges free.now }
    ensures audited { IfOk result (λ left. (bytes : Items ℕ) × IsAudited (F.held files.old) (option_copied folder.entry) (is_outside unmapped.now) (is_outside free.now) guest.now bytes × IsLeft free.now (tables_in (image_of bytes)) left) }
    ensures stopped { IfErr result (StopsFor F.counts files.old files.new (AfterAudit (F.held files.old) (option_copied folder.entry) (is_outside unmapped.now) (is_outside free.now) guest.now nothing)) }
    ensures only_read { Reads F.held F.counts files.old files.new }
{
    let name = make_image_path(alloc, folder, guest.number)?;
    let bytes = read_file(alloc, name.as_str(), IMAGE_LIMIT, files)?;
    audit_file(
        alloc,
        name.as_str(),
        guest.ranges.as_slice(),
        unmapped,
        free,
        bytes,
    )
}

/// The same of the bytes of the image's file, which become those of the image.
fn audit_file(
    alloc: Global,
    name: &str,
    ranges: &[MapRange],
    unmapped: &[FrameRange],
    free: &[FrameRange],
    bytes: Vec<u8>,
) -> Result<List<FrameRange>, Stop>
    requires sorted { AreMapRanges ranges.now }
    requires merged { AreMerged ranges.now }
    requires unmapped { AreFrameRanges unmapped.now }
    requires free { AreFrameRanges free.now }
    ensures sound { IfOk result (λ left. IsSound (is_outside unmapped.now) (is_outside free.now) ranges.now bytes.items × IsLeft free.now (tables_in (image_of bytes.items)) left) }
    ensures stopped { IfErr result (λ stop. IsOwnDue (AfterImage name.now (is_outside unmapped.now) (is_outside free.now) ranges.now bytes.items nothing) stop) }
{
    match read_image(alloc, bytes) {
        Ok(image) => audit_tables(alloc, name, ranges, unmapped, free, image),
        Err(fault) => {
            let text = make_image_fault_text(alloc, fault)?;
            Err(Stop::Because(
                Status::Format,
                make_file_message(alloc, name, text.as_slice())?,
            ))
        }
    }
}

/// The same of an image that was read.
fn audit_tables(
    alloc: Global,
    name: &str,
    ranges: &[MapRange],
    unmapped: &[FrameRange],
    free: &[FrameRange],
    image: Image,
) -> Result<List<FrameRange>, Stop>
    requires first { IsSome (page_of image.pages image.root) }
    requires second { IsSome (page_of image.pages (image.root + 1)) }
    requires sorted { AreMapRanges ranges.now }
    requires merged { AreMerged ranges.now }
    requires unmapped { AreFrameRanges unmapped.now }
    requires free { AreFrameRanges free.now }
    ensures sound { OnOk result (audit_finding (is_outside unmapped.now) (is_outside free.now) ranges.now image.pages image.root ≡ None) }
    ensures left { IfOk result (λ left. IsLeft free.now (frames_of image.pages) left) }
    ensures stopped { IfErr result (λ stop. IsOwnDue (UnlessFound name.now (λ _. ⊥) (audit_finding (is_outside unmapped.now) (is_outside free.now) ranges.now image.pages image.root)) stop) }
{
    let mut words = Counted::new(image);
    if let Some(text) = find_finding(alloc, &mut words, ranges, unmapped, free)? {
        return Err(Stop::Because(
            Status::Differs,
            make_file_message(alloc, name, text.as_slice())?,
        ));
    }
    let left = leave_tables(alloc, free, words.image())?;
    Ok(left)
}
