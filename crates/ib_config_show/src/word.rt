// Groups of numbers, as the words of a value.
ghost use Rattle.std.specs.Prelude.{◌≡◌, ◌++◌, List, ℕ, OnOk, map, string_bytes};
ghost use Rattle.ib_config_show.specs.Words.{range_words, shm_words, port_words, spaced, joined};

use ib_config::{PortGroup, ShmGroup};
use std::alloc::AllocError;
use texts::BaseSize;

/// A group of the words of a value.
pub(crate) trait Words {
    /// The words, with a space between each two.
    ghost words: { Self → List ℕ };

    /// Adds the words to a text.
    fn put(&self, out: &mut String) -> Result<(), AllocError>
        ensures { OnOk result (string_bytes out.new ≡ string_bytes out.old ++ words self.now) };
}

impl Words for BaseSize {
    ghost words = { range_words };

    fn put(&self, out: &mut String) -> Result<(), AllocError> {
        let base = self.base;
        let size = self.size;
        write!(out, "0x{base:x} 0x{size:x}")
    }
}

impl Words for ShmGroup {
    ghost words = { shm_words };

    fn put(&self, out: &mut String) -> Result<(), AllocError> {
        out.push_str(self.id.as_str())?;
        let host = self.host;
        let guest = self.guest;
        let size = self.size;
        write!(out, " 0x{host:x} 0x{guest:x} 0x{size:x}")
    }
}

impl Words for PortGroup {
    ghost words = { port_words };

    fn put(&self, out: &mut String) -> Result<(), AllocError> {
        let port = self.port;
        let peer = self.peer;
        let peer_port = self.peer_port;
        write!(out, "{port} {peer} {peer_port}")
    }
}

/// Adds groups to a text, each behind a space.
fn put_more<T: Words>(out: &mut String, groups: &[T]) -> Result<(), AllocError>
    ensures { OnOk result (string_bytes out.new ≡ string_bytes out.old ++ spaced (map T.words groups.now)) }
{
    for group in groups {
        out.push_str(" ")?;
        group.put(out)?;
    }
    Ok(())
}

/// Adds groups to a text, with a space between each two.
pub(crate) fn put_groups<T: Words>(out: &mut String, groups: &[T]) -> Result<(), AllocError>
    ensures { OnOk result (string_bytes out.new ≡ string_bytes out.old ++ joined (map T.words groups.now)) }
{
    let Some((first, more)) = groups.split_first() else {
        return Ok(());
    };
    first.put(out)?;
    put_more(out, more)
}
