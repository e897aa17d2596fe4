// The report of a run that has none.
ghost use Rattle.std.specs.Prelude.{None, Some};

use outside::{Failed, Sink};

/// A stream that has room for no byte, for a run that puts nothing on it.
#[derive(Clone, Copy, Debug)]
pub(crate) struct NoReport;

impl Sink for NoReport {
    ghost taken = { λ _. None };

    ghost room = { λ _. Some 0 };

    ghost faults = { λ _. 0 };

    fn put(&mut self, _bytes: &[u8]) -> Result<(), Failed> {
        Ok(())
    }
}
