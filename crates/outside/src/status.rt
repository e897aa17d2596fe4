// How a run ended.
ghost use Rattle.std.specs.Prelude.{◌≡◌};
ghost use Rattle.outside.specs.Statuses.{code_of};

/// How a run of the program ended.
#[derive(Clone, Copy, Debug, PartialEq, Eq)]
pub enum Status {
    /// All outputs were written.
    Built,
    /// Memory ran out.
    Memory,
    /// The words of the command line are none that the program takes.
    Words,
    /// An item of the description is refused.
    Refused,
    /// An input file is not of its format.
    Format,
    /// An input file could not be read, or is not there.
    Read,
    /// An output could not be written.
    Write,
    /// An input file is longer than its limit.
    Longer,
    /// An image that was audited differs from its plan.
    Differs,
}

impl Status {
    /// The exit status of the process.
    pub fn code(self) -> u8
        ensures { result ≡ code_of self }
    {
        match self {
            Status::Built => 0,
            Status::Memory => 1,
            Status::Words => 2,
            Status::Refused => 3,
            Status::Format => 4,
            Status::Read => 5,
            Status::Write => 6,
            Status::Longer => 7,
            Status::Differs => 8,
        }
    }
}
