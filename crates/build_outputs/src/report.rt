//! The report of a build.
ghost use Rattle.std.specs.Prelude.{◌≡◌, All, IfOk, map};
ghost use Rattle.described.specs.Maps.{AreMapRanges};
ghost use Rattle.guest_images.specs.Built.{tables_counted};
ghost use Rattle.guest_images.specs.Requests.{tables_needed};
ghost use Rattle.build_outputs.specs.Report.{report as the_report};
ghost use Rattle.build_outputs.specs.Outputs.{with_tables};

use crate::report_guests::append_guest;
use crate::report_lines::append_free;
use domain_plan::GuestPlan;
use guest_images::GuestImage;
use std::alloc::{AllocError, Global};
use texts::Bytes;

/// The report of guests that have these images, where so many frames are left.
pub(crate) fn make_report(
    alloc: Global,
    guests: &[GuestPlan],
    images: &[GuestImage],
    left: u64,
) -> Result<Bytes, AllocError>
    requires sorted { All (λ guest. AreMapRanges guest.ranges) guests.now }
    requires tables { tables_counted images.now ≡ map tables_needed guests.now }
    ensures { IfOk result (λ report. report ≡ the_report (with_tables guests.now) left) }
{
    let mut report = Bytes::new(alloc);
    for (index, guest) in guests.iter().enumerate() {
        append_guest(alloc, &mut report, guest, images[index].tables)?;
    }
    append_free(alloc, &mut report, left)?;
    Ok(report)
}
