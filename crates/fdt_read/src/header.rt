// The header, and where it places the blocks.
ghost use Rattle.std.specs.Prelude.{◌≡◌, ◌≤◌, IfNone, ◌==◌, length};
ghost use Rattle.fdt_read.specs.Built.{IsLaidOut};
ghost use Rattle.fdt_read.specs.Header.{magic};
ghost use Rattle.texts.specs.Rows.{first_that_applies};
ghost use Rattle.fdt_read.specs.Refusals.{layout_rows};

use crate::fault::FdtFault;
use crate::words::word_of;

/// The first fault of the header and of where the structure block and the strings block lie (5.2).
pub fn layout_fault(bytes: &[u8]) -> Option<FdtFault>
    ensures first { result ≡ first_that_applies (layout_rows bytes.now) }
    ensures laid_out { IfNone result (IsLaidOut bytes.now) }
{
    if bytes.len() < 4 || word_of(bytes, 0) != 0xd00d_feed {
        return Some(FdtFault::Magic);
    }
    if bytes.len() < 40 {
        return Some(FdtFault::Bounds(0));
    }
    if word_of(bytes, 20) < 17 || word_of(bytes, 24) > 17 {
        return Some(FdtFault::Version);
    }
    let total = word_of(bytes, 4) as usize;
    if total < 40 || bytes.len() < total {
        return Some(FdtFault::Bounds(4));
    }
    let structure = word_of(bytes, 8) as usize;
    if structure % 4 != 0 || total < structure + word_of(bytes, 36) as usize {
        return Some(FdtFault::Bounds(8));
    }
    if total < word_of(bytes, 12) as usize + word_of(bytes, 32) as usize {
        return Some(FdtFault::Bounds(12));
    }
    None
}
