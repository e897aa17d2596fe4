// Numbers of eight bytes in a slice.
ghost use Rattle.std.specs.Prelude.{◌≡◌, ℕ, ◌+◌, ◌≤◌, length};
ghost use Rattle.stage2_walk.specs.Pages.{number_at};

use byteorder::{ByteOrder, LittleEndian};

/// How many bytes a number has: a word of a page, or its frame in a file.
pub const NUMBER_BYTES: usize = 8;

/// How many words a page has.
pub const PAGE_WORDS: usize = 512;

/// How many bytes stand before the pages of a file.
pub const HEADER_BYTES: usize = 24;

/// How many bytes a page has in a file: its frame, and then its words.
pub const PAGE_BYTES: usize = NUMBER_BYTES + NUMBER_BYTES * PAGE_WORDS;

/// The little-endian number of the eight bytes from a place on.
#[tactic(auto, using(crate::proofs::Numbers::number_at_drop))]
pub fn read_number(bytes: &[u8], place: usize) -> u64
    requires { place + 8 ≤ length bytes.now }
    ensures { result ≡ number_at bytes.now place }
{
    LittleEndian::read_u64(&bytes[place..])
}

/// Writes a number as the eight little-endian bytes from a place on, and no other byte.
pub fn write_number(bytes: &mut [u8], place: usize, number: u64)
    requires { place + 8 ≤ length bytes.old }
    ensures written { number_at bytes.new place ≡ number }
    ensures before { (other : ℕ) → other + 8 ≤ place → number_at bytes.new other ≡ number_at bytes.old other }
    ensures after { (other : ℕ) → place + 8 ≤ other → number_at bytes.new other ≡ number_at bytes.old other }
    ensures same_length { length bytes.new ≡ length bytes.old }
{
    LittleEndian::write_u64(&mut bytes[place..place + 8], number);
}
