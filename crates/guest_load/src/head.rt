// The head of an image.
ghost use Rattle.std.specs.Prelude.{◌≡◌, ◌+◌, ◌≤◌, length, IfOk, OnErr, Some, None};
ghost use Rattle.guest_load.specs.Heads.{number_at, image_head};

use byteorder::{ByteOrder, LittleEndian};

/// What the head of an arm64 Linux Image says (Linux, Documentation/arch/arm64/booting.rst, section 4).
#[derive(Clone, Copy, Debug, PartialEq, Eq)]
pub struct ImageHead {
    /// How far after a multiple of 2 MiB the image lies, in bytes.
    pub text_offset: u64,
    /// How many bytes it takes in memory; 0 where the head does not say.
    pub image_size: u64,
}

/// The bytes are no image: there are fewer than 64, or the magic number is missing.
#[derive(Clone, Copy, Debug, PartialEq, Eq)]
pub struct NotImage;

/// The number of the eight bytes at an offset, the least significant first.
#[tactic(auto, using(crate::proofs::HeadLemmas::little_number_8))]
fn number_at(bytes: &[u8], offset: usize) -> u64
    requires { offset + 8 ≤ length bytes.now }
    ensures { result ≡ number_at offset bytes.now }
{
    LittleEndian::read_u64(&bytes[offset..offset + 8])
}

/// The head of an image, `NotImage` where the bytes are none. Takes no memory.
pub fn read_head(bytes: &[u8]) -> Result<ImageHead, NotImage>
    ensures ok { IfOk result (λ head. image_head bytes.now ≡ Some head) }
    ensures err { OnErr result (image_head bytes.now ≡ None) }
{
    if bytes.len() < 64 || &bytes[56..60] != b"ARM\x64".as_slice() {
        return Err(NotImage);
    }
    Ok(ImageHead {
        text_offset: number_at(bytes, 8),
        image_size: number_at(bytes, 16),
    })
}
