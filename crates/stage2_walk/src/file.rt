// The file of an image: `S2IMAGE1`, the root frame and the page count, and then the pages.
ghost use Rattle.std.specs.Prelude.{◌≡◌, ◌+◌, ◌*◌, ◌++◌, length, IfOk, OnOk};
ghost use Rattle.byteorder.specs.Endian.{little_bytes};
ghost use Rattle.stage2_walk.specs.Pages.{pages_at};
ghost use Rattle.stage2_walk.specs.Files.{file_of, magic};

use crate::bytes::HEADER_BYTES;
use byteorder::{ByteOrder, LittleEndian};
use std::alloc::{AllocError, Global};

/// Adds a number at the end, as eight little-endian bytes.
fn push_number(bytes: &mut Vec<u8>, number: u64) -> Result<(), AllocError>
    ensures { OnOk result (bytes.new.items ≡ bytes.old.items ++ little_bytes 8 number) }
{
    let mut spelled = [0; 8];
    LittleEndian::write_u64(&mut spelled, number);
    bytes.extend_from_slice(&spelled)
}

/// The bytes of a file of `count` pages. `pages` are the bytes of the pages, 4,104 each.
pub fn file_bytes(
    alloc: Global,
    root: u64,
    count: usize,
    pages: &[u8],
) -> Result<Vec<u8>, AllocError>
    requires { length pages.now ≡ 4104 * count }
    ensures parts { IfOk result (λ file. file.items ≡ magic ++ little_bytes 8 root ++ little_bytes 8 count ++ pages.now) }
    ensures file { IfOk result (λ file. file.items ≡ file_of root (pages_at pages.now 0 count)) }
{
    let mut file = Vec::new(alloc);
    file.reserve(HEADER_BYTES + pages.len())?;
    file.extend_from_slice(b"S2IMAGE1")?;
    push_number(&mut file, root)?;
    push_number(&mut file, count as u64)?;
    file.extend_from_slice(pages)?;
    Ok(file)
}
