// Messages, and the report.
ghost use Rattle.std.specs.Prelude.{◌≡◌, ◌++◌, IfOk, OnOk};
ghost use Rattle.guest_load.specs.Lines.{no_room_message, part_line, part_text, report};

use crate::places::{LoadPart, LoadPlan, Place};
use run_steps::make_file_message;
use std::alloc::{AllocError, Global};
use texts::Bytes;

/// The name of a part.
fn part_text(part: LoadPart) -> &'static str
    ensures { result.now ≡ part_text part }
{
    match part {
        LoadPart::Kernel => "kernel",
        LoadPart::Ramdisk => "ramdisk",
        LoadPart::Tree => "tree",
    }
}

/// What is said about a part that has no room.
pub(crate) fn make_no_room_message(alloc: Global, part: LoadPart) -> Result<Bytes, AllocError>
    ensures { IfOk result (λ message. message ≡ no_room_message part) }
{
    make_file_message(alloc, part_text(part), b"NoRoom")
}

/// Adds the line of a part.
fn append_part(
    alloc: Global,
    lines: &mut Bytes,
    part: LoadPart,
    place: Place,
) -> Result<(), AllocError>
    ensures { OnOk result (lines.new ≡ lines.old ++ part_line (part, place)) }
{
    lines.append(part_text(part).as_bytes())?;
    lines.append(b" ")?;
    lines.append_hexadecimal(alloc, place.address)?;
    lines.append(b" ")?;
    lines.append_hexadecimal(alloc, place.size)?;
    lines.append(b"\n")
}

/// The report: where each part lies.
pub(crate) fn make_report(alloc: Global, plan: &LoadPlan) -> Result<Bytes, AllocError>
    ensures { IfOk result (λ lines. lines ≡ report plan.now) }
{
    let mut lines = Bytes::new(alloc);
    append_part(alloc, &mut lines, LoadPart::Kernel, plan.kernel)?;
    if let Some(place) = plan.ramdisk {
        append_part(alloc, &mut lines, LoadPart::Ramdisk, place)?;
    }
    append_part(alloc, &mut lines, LoadPart::Tree, plan.tree)?;
    Ok(lines)
}
