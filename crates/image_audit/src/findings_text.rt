//! How what an audit finds is said.
ghost use Rattle.std.specs.Prelude.{◌≡◌, ◌≢◌, ◌++◌, ◌^◌, ◌<◌, IfOk, OnOk, decimal};
ghost use Rattle.std.specs.Option.{ForSome};
ghost use Rattle.image_audit.specs.Texts.{attributes_text, checked_line, difference_text, frame_text, goal_text, image_fault_text, tear_text};

use crate::differences::attributes;
use described::{Kind, kind_text};
use stage2_walk::{AuditFault, ImageFault};
use std::alloc::{AllocError, Global};
use texts::Bytes;

/// The line that is put where nothing is found, with the number of guests: `checked N`.
pub fn make_checked_line(alloc: Global, guests: u64) -> Result<Bytes, AllocError>
    ensures { IfOk result (λ line. line ≡ checked_line guests) }
{
    let mut line = Bytes::new(alloc);
    line.append(b"checked ")?;
    line.append_decimal(alloc, guests)?;
    line.append(b"\n")?;
    Ok(line)
}

/// A name with the number of a frame: `NAME 0xFRAME`.
pub(crate) fn make_frame_text(alloc: Global, name: &[u8], frame: u64) -> Result<Bytes, AllocError>
    ensures { IfOk result (λ text. text ≡ frame_text name.now frame) }
{
    let mut text = Bytes::new(alloc);
    text.append(name)?;
    text.append(b" ")?;
    text.append_hexadecimal(alloc, frame)?;
    Ok(text)
}

/// Why a file is no image, with the number of a page where it has one; want of memory is no such reason.
pub(crate) fn make_image_fault_text(alloc: Global, fault: ImageFault) -> Result<Bytes, AllocError>
    ensures text { IfOk result (λ text. text ≡ image_fault_text fault) }
    ensures reason { OnOk result (fault ≢ ImageFault.Memory) }
{
    match fault {
        ImageFault::Magic => make_text(alloc, b"Magic"),
        ImageFault::Length => make_text(alloc, b"Length"),
        ImageFault::TooHigh(page) => make_page_text(alloc, b"TooHigh at ", page),
        ImageFault::FrameTwice(page) => make_page_text(alloc, b"FrameTwice at ", page),
        ImageFault::Root => make_text(alloc, b"Root"),
        ImageFault::Memory => Err(AllocError),
    }
}

/// These bytes alone.
fn make_text(alloc: Global, bytes: &[u8]) -> Result<Bytes, AllocError>
    ensures { IfOk result (λ text. text ≡ bytes.now) }
{
    let mut text = Bytes::new(alloc);
    text.append(bytes)?;
    Ok(text)
}

/// These bytes with a number in decimal digits.
fn make_page_text(alloc: Global, before: &[u8], number: u64) -> Result<Bytes, AllocError>
    ensures { IfOk result (λ text. text ≡ before.now ++ decimal number) }
{
    let mut text = make_text(alloc, before)?;
    text.append_decimal(alloc, number)?;
    Ok(text)
}

/// Where an image is torn; want of memory is no tear.
pub(crate) fn make_tear_text(alloc: Global, tear: AuditFault) -> Result<Bytes, AllocError>
    ensures text { IfOk result (λ text. text ≡ tear_text tear) }
    ensures tear { OnOk result (tear ≢ AuditFault.Memory) }
{
    match tear {
        AuditFault::Missing(frame) => make_frame_text(alloc, b"Missing", frame),
        AuditFault::Reused(frame) => make_frame_text(alloc, b"Reused", frame),
        AuditFault::Reserved(frame, index) => {
            let mut text = make_frame_text(alloc, b"Reserved", frame)?;
            text.append(b" ")?;
            text.append_decimal(alloc, u64::from(index))?;
            Ok(text)
        }
        AuditFault::Memory => Err(AllocError),
    }
}

/// The address of a page, where it goes, and where it is planned to go: `0xGUEST maps GOAL, plan GOAL`. Each goal is the
/// number of a frame with attributes.
pub(crate) fn make_difference_text(
    alloc: Global,
    page: u64,
    goal: Option<(u64, u64)>,
    planned: Option<(u64, u64)>,
) -> Result<Bytes, AllocError>
    requires page { page < 2 ^ 28 }
    requires goal { ForSome goal (λ goal. goal.0 < 2 ^ 52) }
    requires planned { ForSome planned (λ goal. goal.0 < 2 ^ 52) }
    ensures { IfOk result (λ text. text ≡ difference_text page goal planned) }
{
    let mut text = Bytes::new(alloc);
    text.append_hexadecimal(alloc, page * 4096)?;
    text.append(b" maps ")?;
    append_goal(alloc, &mut text, goal)?;
    text.append(b", plan ")?;
    append_goal(alloc, &mut text, planned)?;
    Ok(text)
}

/// Adds where a page goes: `none`, or the address of a frame with its attributes.
fn append_goal(alloc: Global, text: &mut Bytes, goal: Option<(u64, u64)>) -> Result<(), AllocError>
    requires { ForSome goal (λ goal. goal.0 < 2 ^ 52) }
    ensures { OnOk result (text.new ≡ text.old ++ goal_text goal) }
{
    match goal {
        None => text.append(b"none"),
        Some((frame, attr)) => {
            text.append_hexadecimal(alloc, frame * 4096)?;
            text.append(b" ")?;
            append_attributes(alloc, text, attr)
        }
    }
}

/// Adds attributes: the kind that has them, or else `attr` and their number.
fn append_attributes(alloc: Global, text: &mut Bytes, attr: u64) -> Result<(), AllocError>
    ensures { OnOk result (text.new ≡ text.old ++ attributes_text attr) }
{
    if attr == attributes(Kind::Ram) {
        return text.append(kind_text(Kind::Ram));
    }
    if attr == attributes(Kind::Device) {
        return text.append(kind_text(Kind::Device));
    }
    if attr == attributes(Kind::Shared) {
        return text.append(kind_text(Kind::Shared));
    }
    text.append(b"attr ")?;
    text.append_hexadecimal(alloc, attr)
}
