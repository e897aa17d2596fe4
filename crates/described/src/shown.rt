// How items and reasons are shown.
ghost use Rattle.std.specs.Prelude.{◌≡◌, ◌++◌, OnOk, decimal};
ghost use Rattle.described.specs.Items.{item_text, why_name, why_detail, why_text, refusal_text};

use crate::{Item, Part, Why};
use std::alloc::{AllocError, Global};
use texts::Bytes;

fn append_number(
    alloc: Global,
    line: &mut Bytes,
    before: &str,
    number: u64,
) -> Result<(), AllocError>
    ensures { OnOk result (line.new ≡ line.old ++ (before.now ++ decimal number)) }
{
    line.append(before.as_bytes())?;
    line.append_decimal(alloc, number)
}

impl Item {
    /// Adds the item's text to a line. After want of memory a part of it may have been added.
    pub fn append_text(&self, alloc: Global, line: &mut Bytes) -> Result<(), AllocError>
        ensures { OnOk result (line.new ≡ line.old ++ item_text self.now) }
    {
        let path = self.path.as_slice();
        match self.part {
            Part::Reserve => append_number(alloc, line, "reserve ", self.index),
            Part::Load => {
                line.append(b"load ")?;
                line.append(path)
            }
            Part::StaticList => {
                line.append(path)?;
                line.append(b" xen,static-mem")
            }
            Part::Static => {
                line.append(path)?;
                append_number(alloc, line, " static ", self.index)
            }
            Part::Range => {
                line.append(path)?;
                append_number(alloc, line, " range ", self.index)
            }
            Part::Irq => {
                line.append(path)?;
                append_number(alloc, line, " interrupt ", self.index)
            }
            Part::Region => {
                line.append(path)?;
                line.append(b" region")
            }
            Part::Heap => {
                line.append(path)?;
                line.append(b" memory")
            }
            Part::Tables => {
                line.append(path)?;
                line.append(b" tables")
            }
            Part::Layout => line.append(b"layout"),
            _ => line.append(path),
        }
    }
}

impl Why {
    /// The reason's name.
    pub fn name(&self) -> &'static str
        ensures { result.now ≡ why_name self.now }
    {
        match self {
            Why::Missing => "Missing",
            Why::BadLength => "BadLength",
            Why::BadValue => "BadValue",
            Why::NotPage => "NotPage",
            Why::TooHigh => "TooHigh",
            Why::NotRam => "NotRam",
            Why::HostOverlap(_) => "HostOverlap",
            Why::GuestOverlap(_) => "GuestOverlap",
            Why::MemorySum => "MemorySum",
            Why::DirectWithoutStatic => "DirectWithoutStatic",
            Why::TooMany => "TooMany",
            Why::TooLarge => "TooLarge",
            Why::PartialUnread => "PartialUnread",
            Why::NoHostNode => "NoHostNode",
            Why::NoIommu => "NoIommu",
            Why::ExtendedInterrupts => "ExtendedInterrupts",
            Why::NotGic => "NotGic",
            Why::IrqNotHost => "IrqNotHost",
            Why::IrqTaken(_) => "IrqTaken",
            Why::PhandleClash => "PhandleClash",
            Why::ShmDiffers(_) => "ShmDiffers",
            Why::OwnerTwice(_) => "OwnerTwice",
            Why::ShmTwice(_) => "ShmTwice",
            Why::EvtchnLink => "EvtchnLink",
            Why::PortTaken(_) => "PortTaken",
            Why::EvtchnPlain => "EvtchnPlain",
            Why::NoRam(_, _) => "NoRam",
            Why::NoTableFrame(_, _) => "NoTableFrame",
            Why::TreeTooLong(_) => "TreeTooLong",
            Why::Twice(_) => "Twice",
        }
    }

    /// Adds the reason's text to a line. After want of memory a part of it may have been added.
    pub fn append_text(&self, alloc: Global, line: &mut Bytes) -> Result<(), AllocError>
        ensures { OnOk result (line.new ≡ line.old ++ why_text self.now) }
    {
        line.append(self.name().as_bytes())?;
        append_detail(alloc, line, self)
    }
}

fn append_detail(alloc: Global, line: &mut Bytes, why: &Why) -> Result<(), AllocError>
    ensures { OnOk result (line.new ≡ line.old ++ why_detail why.now) }
{
    match why {
        Why::HostOverlap(other)
        | Why::GuestOverlap(other)
        | Why::IrqTaken(other)
        | Why::ShmDiffers(other)
        | Why::OwnerTwice(other)
        | Why::ShmTwice(other)
        | Why::PortTaken(other)
        | Why::Twice(other) => {
            line.append(b" ")?;
            other.append_text(alloc, line)
        }
        Why::NoRam(needed, free) | Why::NoTableFrame(needed, free) => {
            append_number(alloc, line, " ", *needed)?;
            append_number(alloc, line, " ", *free)
        }
        Why::TreeTooLong(bytes) => append_number(alloc, line, " ", *bytes),
        _ => Ok(()),
    }
}

/// Adds a refused item and its reason: `ITEM: WHY`. After want of memory part of it may stand in the text.
pub fn append_refusal(
    alloc: Global,
    line: &mut Bytes,
    item: &Item,
    why: &Why,
) -> Result<(), AllocError>
    ensures { OnOk result (line.new ≡ line.old ++ refusal_text item.now why.now) }
{
    item.append_text(alloc, line)?;
    line.append(b": ")?;
    why.append_text(alloc, line)
}
