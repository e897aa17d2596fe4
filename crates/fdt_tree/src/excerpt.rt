// Parts of bytes, which many properties may share.
ghost use Rattle.std.specs.Prelude.{◌≡◌, ◌≤◌, length, IfOk, slice_range};

use std::alloc::{AllocError, Global};
use std::marker::Model;
use texts::Bytes;

/// A part of bytes, which contracts see as a list of bytes of its own.
#[derive(Drop)]
pub struct Excerpt<'a> {
    whole: &'a Bytes,
    start: usize,
    end: usize,
}

impl<'a> Model for Excerpt<'a> {
    ghost use Rattle.std.specs.Prelude.{ℕ, List, ◌≤◌, length, slice_range};

    ghost Value = { List ℕ };

    ghost view = { λ part. slice_range part.whole.now part.start part.end };

    ghost invariant = { λ part. (part.start ≤ part.end) × (part.end ≤ length part.whole.now) };
}

impl<'a> Excerpt<'a> {
    /// The bytes from the offset `start` up to the offset `end`.
    pub fn new(whole: &'a Bytes, start: usize, end: usize) -> Excerpt<'a>
        requires ordered { start ≤ end }
        requires within { end ≤ length whole.now }
        ensures { result ≡ slice_range whole.now start end }
    {
        Excerpt { whole, start, end }
    }

    /// The bytes of the part.
    pub fn as_slice(&self) -> &[u8]
        ensures { result.now ≡ self.now }
    {
        &self.whole.as_slice()[self.start..self.end]
    }

    /// The part with a copy of the whole, which takes no memory where the whole is shared.
    pub(crate) fn held(&self, alloc: Global) -> Result<Held, AllocError>
        ensures { IfOk result (λ held. held ≡ self.now) }
    {
        Ok(Held {
            whole: self.whole.copy(alloc)?,
            start: self.start,
            end: self.end,
        })
    }
}

/// A part of bytes that are held with it, and may be shared with other parts of them.
#[derive(Drop)]
pub(crate) struct Held {
    whole: Bytes,
    start: usize,
    end: usize,
}

impl Model for Held {
    ghost use Rattle.std.specs.Prelude.{ℕ, List, ◌≤◌, length, slice_range};

    ghost Value = { List ℕ };

    ghost view = { λ part. slice_range part.whole part.start part.end };

    ghost invariant = { λ part. (part.start ≤ part.end) × (part.end ≤ length part.whole) };
}

impl Held {
    /// A copy of all these bytes, which no other part shares.
    pub(crate) fn copied(alloc: Global, bytes: &[u8]) -> Result<Held, AllocError>
        ensures { IfOk result (λ held. held ≡ bytes.now) }
    {
        let mut whole = Bytes::new(alloc);
        whole.append(bytes)?;
        Ok(Held {
            whole,
            start: 0,
            end: bytes.len(),
        })
    }

    /// The bytes of the part.
    pub(crate) fn as_slice(&self) -> &[u8]
        ensures { result.now ≡ self.now }
    {
        &self.whole.as_slice()[self.start..self.end]
    }
}
