// What a program makes before its first write.
ghost use Rattle.std.specs.Prelude.{◌≡◌};
ghost use Rattle.program.specs.Made.{status_of};

use outside::Status;
use run_steps::Build;
use texts::Bytes;

/// What a list that is found says of what was looked at.
#[derive(Clone, Copy, Debug, PartialEq, Eq)]
pub enum Verdict {
    /// What is described is refused.
    Refused,
    /// The bytes are none of their format.
    Format,
    /// What was looked at differs from what it is to be.
    Differs,
}

impl Verdict {
    /// The status with which the run ends.
    pub fn status(self) -> Status
        ensures { result ≡ status_of self }
    {
        match self {
            Verdict::Refused => Status::Refused,
            Verdict::Format => Status::Format,
            Verdict::Differs => Status::Differs,
        }
    }
}

/// What a program makes before its first write.
#[derive(Drop)]
pub enum Made {
    /// Outputs and a report: status 0.
    Built(Build),
    /// A list on standard output, no output, and the verdict's status.
    Found(Verdict, Bytes),
}
