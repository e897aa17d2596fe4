// Bytes that a tree holds for itself, and changes in their place.
ghost use Rattle.std.specs.Prelude.{◌≡◌, ◌≤◌, ◌+◌, IfOk, length};
ghost use Rattle.indexed_tree.specs.Words.{with_word};

use std::alloc::{AllocError, Global};
use std::marker::Model;

/// The bytes of a name or of a value.
#[derive(Drop)]
pub(crate) struct OwnBytes {
    bytes: Vec<u8>,
}

impl Model for OwnBytes {
    ghost use Rattle.std.specs.Prelude.{ℕ, List};

    ghost Value = { List ℕ };

    ghost view = { λ own. own.bytes.items };
}

impl OwnBytes {
    /// A copy of these bytes.
    pub(crate) fn copied(alloc: Global, bytes: &[u8]) -> Result<OwnBytes, AllocError>
        ensures { IfOk result (λ made. made ≡ bytes.now) }
    {
        Ok(OwnBytes {
            bytes: bytes.to_vec(alloc)?,
        })
    }

    /// All the bytes.
    pub(crate) fn as_slice(&self) -> &[u8]
        ensures { result.now ≡ self.now }
    {
        self.bytes.as_slice()
    }

    /// Puts a word in its place at an offset, the most significant byte first. Takes no memory.
    pub(crate) fn put_word(&mut self, offset: usize, number: u32)
        requires { offset + 4 ≤ length self.old }
        ensures { self.new ≡ with_word self.old offset number }
    {
        put_at(&mut self.bytes, offset, number);
    }
}

/// Puts another word at an offset.
fn put_at(bytes: &mut [u8], offset: usize, number: u32)
    requires { offset + 4 ≤ length bytes.old }
    ensures { bytes.new ≡ with_word bytes.old offset number }
{
    bytes[offset..offset + 4].copy_from_slice(&number.to_be_bytes());
}
