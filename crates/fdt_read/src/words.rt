// Big-endian numbers of a file.
ghost use Rattle.std.specs.Prelude.{◌≡◌, ◌+◌, ◌≤◌, length};
ghost use Rattle.fdt_read.specs.Header.{word, wide};

use byteorder::{BigEndian, ByteOrder};

/// The big-endian 32-bit number at an offset in bytes.
#[tactic(auto, using(crate::proofs::WordLemmas::word_read))]
pub fn word_of(bytes: &[u8], offset: usize) -> u32
    requires { offset + 4 ≤ length bytes.now }
    ensures { result ≡ word bytes.now offset }
{
    BigEndian::read_u32(&bytes[offset..])
}

/// The big-endian 64-bit number at an offset in bytes.
#[tactic(auto, using(crate::proofs::WordLemmas::wide_read))]
pub fn wide_of(bytes: &[u8], offset: usize) -> u64
    requires { offset + 8 ≤ length bytes.now }
    ensures { result ≡ wide bytes.now offset }
{
    BigEndian::read_u64(&bytes[offset..])
}
