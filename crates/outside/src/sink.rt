// A stream that a program writes.
ghost use Rattle.std.specs.Prelude.{◌≡◌, ◌≤◌, ◌-◌, ℕ, List, Option, Some, IfSome, IsOk, OnOk, OnErr, length};
ghost use Rattle.outside.specs.Outside.{Rose, and_bytes, TookPrefix};

use crate::Failed;

/// A stream of bytes. What was taken and the room that is left may be told; how often a put failed is counted.
pub trait Sink {
    /// The bytes that were taken, where they are told.
    ghost taken: { Self → Option (List ℕ) };

    /// How many bytes there is room for, where it is told.
    ghost room: { Self → Option ℕ };

    /// How often a put failed.
    ghost faults: { Self → ℕ };

    /// Adds bytes at the end. After a failure a prefix of them was taken.
    fn put(&mut self, bytes: &[u8]) -> Result<(), Failed>
        ensures ok { OnOk result (taken self.new ≡ and_bytes (taken self.old) bytes.now) }
        ensures part { OnErr result (TookPrefix (taken self.old) (taken self.new) bytes.now) }
        ensures room { IfSome (room self.old) (λ room_left. length bytes.now ≤ room_left → IsOk result × (room self.new ≡ Some (room_left - length bytes.now))) }
        ensures failed { OnErr result (Rose (faults self.old) (faults self.new)) }
        ensures faults { faults self.old ≤ faults self.new };
}
