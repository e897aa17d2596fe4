// Why a file is no flattened tree.
ghost use Rattle.std.specs.Prelude.{◌≡◌, ◌++◌, OnOk};
ghost use Rattle.fdt_read.specs.FaultTexts.{at_offset, fault_text};

use std::alloc::{AllocError, Global};
use texts::Bytes;

/// The first fault of a file that is no flattened tree. Each offset counts bytes from the beginning of the file.
#[derive(Debug, Drop)]
pub enum FdtFault {
    /// The file has fewer than 4 bytes, or does not begin with 0xd00dfeed (5.2).
    Magic,
    /// The version is below 17, or the file is not compatible with version 17 (5.2).
    Version,
    /// A block does not lie where it may: the offset is that of the header's field that places it, or 0 where the header
    /// itself is cut (5.2, 5.3).
    Bounds(u64),
    /// No token stands here, or one that may not stand here (5.4).
    Token(u64),
    /// The node or the property that begins here has a name that it may not have (5.4.1, 5.5).
    Name(u64),
    /// The property here follows a child of its node (5.4.2).
    Order(u64),
    /// The node that begins here would stand deeper than 32, the root standing at depth 1.
    Deep(u64),
    /// No memory was left.
    Memory,
}

impl FdtFault {
    /// Adds the fault's text to a line. After want of memory a part of it may have been added.
    pub fn append_text(&self, alloc: Global, line: &mut Bytes) -> Result<(), AllocError>
        ensures { OnOk result (line.new ≡ line.old ++ fault_text self.now) }
    {
        match self {
            FdtFault::Magic => line.append(b"Magic"),
            FdtFault::Version => line.append(b"Version"),
            FdtFault::Bounds(offset) => append_at(alloc, line, "Bounds", *offset),
            FdtFault::Token(offset) => append_at(alloc, line, "Token", *offset),
            FdtFault::Name(offset) => append_at(alloc, line, "Name", *offset),
            FdtFault::Order(offset) => append_at(alloc, line, "Order", *offset),
            FdtFault::Deep(offset) => append_at(alloc, line, "Deep", *offset),
            FdtFault::Memory => line.append(b"out of memory"),
        }
    }
}

fn append_at(alloc: Global, line: &mut Bytes, name: &str, offset: u64) -> Result<(), AllocError>
    ensures { OnOk result (line.new ≡ line.old ++ at_offset name.now offset) }
{
    line.append(name.as_bytes())?;
    line.append(b" at ")?;
    line.append_decimal(alloc, offset)
}
