// Files that a program writes.
ghost use Rattle.std.specs.Prelude.{◌≡◌, ◌≤◌, ℕ, List, Option, Some, IfSome, IsOk, IsTrue, OnOk, OnErr};
ghost use Rattle.outside.specs.Outside.{File, Rose, and_file, TookPart, fits_file, less_file};

/// A write to an output or a stream failed.
#[derive(Clone, Copy, Debug, PartialEq, Eq)]
pub struct Failed;

/// Outputs by their names. What was taken and the room that is left may be told; how often a write failed is counted.
pub trait Outs {
    /// The files that were taken, in their order, where they are told.
    ghost written: { Self → Option (List File) };

    /// How many files and how many bytes of names and contents there is room for, where it is told.
    ghost room: { Self → Option (ℕ × ℕ) };

    /// How often a write failed.
    ghost faults: { Self → ℕ };

    /// Writes one file. After a failure nothing, or a prefix of the bytes, was taken.
    fn write(&mut self, name: &str, bytes: &[u8]) -> Result<(), Failed>
        ensures ok { OnOk result (written self.new ≡ and_file (written self.old) name.now bytes.now) }
        ensures part { OnErr result (TookPart (written self.old) (written self.new) name.now bytes.now) }
        ensures room { IfSome (room self.old) (λ room_left. IsTrue (fits_file room_left name.now bytes.now) → IsOk result × (room self.new ≡ Some (less_file room_left name.now bytes.now))) }
        ensures failed { OnErr result (Rose (faults self.old) (faults self.new)) }
        ensures faults { faults self.old ≤ faults self.new };
}
