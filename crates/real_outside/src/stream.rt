// Standard output and standard error. No bytes are told; failures are counted.
ghost use Rattle.std.specs.Prelude.{◌≡◌, None};

use outside::{Failed, Sink};
use std::io::Write;
use std::marker::Model;

/// A writer with a count of its failures, which stands still at its last value.
#[derive(Drop)]
pub struct Stream<W> {
    writer: W,
    faults: u64,
}

impl<W> Model for Stream<W> {
    ghost use Rattle.std.specs.Prelude.{ℕ};

    ghost Value = { ℕ };

    ghost view = { λ stream. stream.faults };
}

impl<W: Write> Stream<W> {
    /// A stream with no failure yet.
    pub fn new(writer: W) -> Stream<W>
        ensures { result ≡ 0 }
    {
        Stream { writer, faults: 0 }
    }
}

impl<W: Write> Sink for Stream<W> {
    ghost taken = { λ _. None };

    ghost room = { λ _. None };

    ghost faults = { λ faults. faults };

    fn put(&mut self, bytes: &[u8]) -> Result<(), Failed> {
        if self.writer.write_all(bytes).is_ok() && self.writer.flush().is_ok() {
            return Ok(());
        }
        self.faults = self.faults.saturating_add(1);
        Err(Failed)
    }
}
