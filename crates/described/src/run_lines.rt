// A run of pages as a line of text, alike in the report of a build and in what an audit says.
ghost use Rattle.std.specs.Prelude.{◌≡◌, ◌++◌, ◌<◌, ◌^◌, OnOk};
ghost use Rattle.described.specs.RunLines.{kind_text, address_text, places_text, run_line, HasAddresses};

use crate::{Kind, MapRange};
use std::alloc::{AllocError, Global};
use texts::Bytes;

/// A kind as it is shown.
#[tactic(auto, unfolding(crate::specs::RunLines::kind_text))]
pub fn kind_text(kind: Kind) -> &'static [u8]
    ensures { result.now ≡ kind_text kind }
{
    match kind {
        Kind::Ram => b"ram",
        Kind::Device => b"device",
        Kind::Shared => b"shared",
    }
}

/// Adds the address of a page or a frame, in bytes and hexadecimal. After want of memory part of it may stand in the text.
pub fn append_address(alloc: Global, text: &mut Bytes, page: u64) -> Result<(), AllocError>
    requires { page < 2 ^ 28 }
    ensures { OnOk result (text.new ≡ text.old ++ address_text page) }
{
    text.append_hexadecimal(alloc, page * 4096)
}

/// Adds where a run goes.
fn append_places(alloc: Global, text: &mut Bytes, run: &MapRange) -> Result<(), AllocError>
    requires { HasAddresses run.now }
    ensures { OnOk result (text.new ≡ text.old ++ places_text run.now) }
{
    append_address(alloc, text, run.page)?;
    text.append(b" -> ")?;
    append_address(alloc, text, run.first)
}

/// Adds the line of a run: its first guest page and its first host frame, as addresses, how many pages of 4,096 bytes it
/// has, and their kind. After want of memory part of it may stand in the text.
pub fn append_run(alloc: Global, text: &mut Bytes, run: &MapRange) -> Result<(), AllocError>
    requires { HasAddresses run.now }
    ensures { OnOk result (text.new ≡ text.old ++ run_line run.now) }
{
    text.append(b"  ")?;
    append_places(alloc, text, run)?;
    text.append(b" pages ")?;
    text.append_decimal(alloc, run.count)?;
    text.append(b" ")?;
    text.append(kind_text(run.kind))?;
    text.append(b"\n")
}
