// Names and paths as a refusal holds them.
ghost use Rattle.std.specs.Prelude.{◌≡◌, IfOk};

use std::alloc::{AllocError, Global};
use texts::Bytes;

/// Bytes of a tree as bytes of their own.
pub(crate) fn held(alloc: Global, bytes: &[u8]) -> Result<Bytes, AllocError>
    ensures { IfOk result (λ held. held ≡ bytes.now) }
{
    let mut held = Bytes::new(alloc);
    held.append(bytes)?;
    Ok(held)
}
