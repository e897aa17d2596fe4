// Why a program makes nothing.
ghost use Rattle.std.specs.Prelude.{◌≡◌};
ghost use Rattle.program.specs.declared.fault.Fault.TheVariants.{Stops};

use run_steps::Stop;
use texts::Bytes;

/// Why a program makes nothing: its words ask for nothing, or a step stops it.
#[derive(Drop)]
pub enum Fault {
    /// The words are refused, and `usage` is said.
    Usage,
    /// The words are refused, and the text is said as it is.
    Words(Bytes),
    /// A step stops the run.
    Stops(Stop),
}

impl From<Stop> for Fault {
    ghost from_gives = { λ stop fault. fault ≡ Stops stop };

    fn from(stop: Stop) -> Fault {
        Fault::Stops(stop)
    }
}
