// The strings block, and where its names end.
ghost use Rattle.std.specs.Prelude.{◌≡◌, IsTrue, IfOk, IfSome, ◌+◌, ◌-◌, ◌≤◌, ◌<◌, ◌==◌, ◌^◌, if◌then◌else◌, length, take, drop};
ghost use Rattle.fdt_read.specs.Built.{has_no_nul};
ghost use Rattle.fdt_read.specs.PrivateStrings.{lengths_of};
ghost use Rattle.fdt_read.specs.Tokens.{text};

use fdt_tree::Excerpt;
use std::alloc::{AllocError, Global};
use std::marker::Model;
use texts::Bytes;

/// How many bytes stand before the first NUL from a byte on, by how many do after it.
fn length_at(byte: u8, after: u32) -> u32
    requires { after < 2 ^ 32 - 1 }
    ensures { result ≡ (if byte == 0 then 0 else after + 1) }
{
    if byte == 0 { 0 } else { after + 1 }
}

/// For each byte, how many bytes from it on stand before the first NUL, or before the end where none follows.
fn lengths_in(alloc: Global, bytes: &[u8]) -> Result<Vec<u32>, AllocError>
    requires { length bytes.now < 2 ^ 32 }
    ensures { IfOk result (λ lengths. lengths.items ≡ lengths_of bytes.now) }
{
    let mut lengths = Vec::with_capacity(alloc, bytes.len())?;
    let mut at = bytes.len();
    let mut run: u32 = 0;
    'bytes: while at > 0 {
        at -= 1;
        run = length_at(bytes[at], run);
        lengths.push(run)?;
    }
    lengths.reverse();
    Ok(lengths)
}

/// The strings block of a file (5.5). A name in it is found without a search for its end, so that names that are the ends
/// of one long text take no longer than others. Contracts see the bytes of the block.
#[derive(Drop)]
pub struct Strings<'a> {
    file: &'a Bytes,
    start: usize,
    lengths: Vec<u32>,
}

impl<'a> Model for Strings<'a> {
    ghost use Rattle.std.specs.Prelude.{ℕ, List, take, drop, length};
    ghost use Rattle.fdt_read.specs.PrivateStrings.{AreLengths};

    ghost Value = { List ℕ };

    ghost view = { λ s. take (length s.lengths.items) (drop s.start s.file.now) };

    ghost invariant = { λ s. AreLengths s.file.now s.start s.lengths.items };
}

impl<'a> Strings<'a> {
    /// The block of `size` bytes at the offset `start` of a file.
    pub fn new(
        alloc: Global,
        file: &'a Bytes,
        start: usize,
        size: usize,
    ) -> Result<Strings<'a>, AllocError>
        requires within { start + size ≤ length file.now }
        requires short { size < 2 ^ 32 }
        ensures { IfOk result (λ strings. strings ≡ take size (drop start file.now)) }
    {
        let lengths = lengths_in(alloc, &file.as_slice()[start..start + size])?;
        Ok(Strings {
            file,
            start,
            lengths,
        })
    }

    /// The name at an offset of the block, if it is there and ends.
    pub fn name_at(&self, offset: usize) -> Option<Excerpt<'a>>
        ensures text { result ≡ text (drop offset self.now) }
        ensures no_nul { IfSome result (λ name. IsTrue (has_no_nul name)) }
    {
        if offset >= self.lengths.len() {
            return None;
        }
        let length = self.lengths[offset] as usize;
        if length >= self.lengths.len() - offset {
            return None;
        }
        let first = self.start + offset;
        Some(Excerpt::new(self.file, first, first + length))
    }
}
