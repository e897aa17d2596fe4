// A stream in memory, for tests.
ghost use Rattle.std.specs.Prelude.{◌≡◌, ◌≤◌, ◌-◌, ◌∷◌, ◌++◌, ◌||◌, not, max, [], Some, IfSome, IsTrue, IsOk, OnOk, OnErr, length, nat_le, is_err};
ghost use Rattle.std.specs.Bool.{OnTrue, OnFalse};
ghost use Rattle.outside.specs.Outside.{Rose, one_more, and_bytes, TookPrefix};
ghost use Rattle.outside.specs.Fakes.{is_listed, told_room, first_half};

use crate::{Failed, Sink};
use std::alloc::{AllocError, Global};
use std::marker::Model;

/// A stream in memory. A put takes no memory: it uses room that `reserve` made. A put whose number was added by
/// `fail_at` fails, and so does one without room.
#[derive(Debug, Drop)]
pub struct MemSink {
    bytes: Vec<u8>,
    room: usize,
    calls: u64,
    failing: Vec<u64>,
    faults: u64,
}

impl Model for MemSink {
    ghost use Rattle.std.specs.Prelude.{◌+◌, ◌≤◌, vec_len, vec_capacity};
    ghost use Rattle.outside.specs.Fakes.{TakenBytes};

    ghost Value = { TakenBytes };

    ghost view = { λ m. record { bytes = m.bytes.items; room = m.room; calls = m.calls; failing = m.failing.items; faults = m.faults } };

    ghost invariant = { λ m. vec_len m.bytes + m.room ≤ vec_capacity m.bytes };
}

impl MemSink {
    /// Nothing taken, and no room. Takes no memory.
    pub fn new(alloc: Global) -> MemSink
        ensures { result ≡ record { bytes = []; room = 0; calls = 0; failing = []; faults = 0 } }
    {
        MemSink {
            bytes: Vec::new(alloc),
            room: 0,
            calls: 0,
            failing: Vec::new(alloc),
            faults: 0,
        }
    }

    /// The call of this number is to fail.
    pub fn fail_at(&mut self, call: u64) -> Result<(), AllocError>
        ensures ok { OnOk result (self.new ≡ record self.old { failing = self.old.failing ++ call ∷ [] }) }
        ensures err { OnErr result (self.new ≡ self.old) }
    {
        self.failing.push(call)?;
        Ok(())
    }

    /// Makes room for at least so many bytes more.
    pub fn reserve(&mut self, bytes: usize) -> Result<(), AllocError>
        ensures ok { OnOk result (self.new ≡ record self.old { room = max self.old.room bytes }) }
        ensures err { OnErr result (self.new ≡ self.old) }
    {
        let room = self.room.max(bytes);
        self.bytes.reserve(room)?;
        self.room = room;
        Ok(())
    }

    /// All the bytes that were taken.
    pub fn bytes(&self) -> &[u8]
        ensures { result.now ≡ self.now.bytes }
    {
        self.bytes.as_slice()
    }

    // Counts a call, and tells whether it is to fail by its number.
    fn starts_failing_call(&mut self) -> bool
        ensures fails { result ≡ is_listed self.old.failing self.old.calls }
        ensures counted { self.new ≡ record self.old { calls = one_more self.old.calls } }
    {
        let fails = self.failing.contains(&self.calls);
        self.calls = self.calls.saturating_add(1);
        fails
    }

    fn count_fault(&mut self)
        ensures counted { self.new ≡ record self.old { faults = one_more self.old.faults } }
        ensures later { self.old.faults ≤ self.new.faults }
    {
        self.faults = self.faults.saturating_add(1);
    }

    // Takes bytes where there is room for them.
    fn take_bytes(&mut self, bytes: &[u8]) -> bool
        ensures fits { result ≡ nat_le (length bytes.now) self.old.room }
        ensures taken { OnTrue result (self.new ≡ record self.old { bytes = self.old.bytes ++ bytes.now; room = self.old.room - length bytes.now }) }
        ensures same { OnFalse result (self.new ≡ self.old) }
    {
        if bytes.len() > self.room {
            return false;
        }
        let Ok(()) = self.bytes.extend_from_slice(bytes) else {
            unreachable!()
        };
        self.room -= bytes.len();
        true
    }
}

impl Sink for MemSink {
    ghost taken = { λ m. Some m.bytes };

    ghost room = { λ m. told_room m.failing m.room };

    ghost faults = { λ m. m.faults };

    fn put(&mut self, bytes: &[u8]) -> Result<(), Failed>
        ensures ok { OnOk result (Some self.new.bytes ≡ and_bytes (Some self.old.bytes) bytes.now) }
        ensures part { OnErr result (TookPrefix (Some self.old.bytes) (Some self.new.bytes) bytes.now) }
        ensures room { IfSome (told_room self.old.failing self.old.room) (λ room_left. length bytes.now ≤ room_left → IsOk result × (told_room self.new.failing self.new.room ≡ Some (room_left - length bytes.now))) }
        ensures failed { OnErr result (Rose self.old.faults self.new.faults) }
        ensures faults { self.old.faults ≤ self.new.faults }

        // It fails exactly where its number was added, or the room is too small.
        ensures fails { is_err result ≡ (is_listed self.old.failing self.old.calls || not (nat_le (length bytes.now) self.old.room)) }

        // A put that is to fail by its number takes the first half of its bytes where there is room for them.
        ensures half { IsTrue (is_listed self.old.failing self.old.calls) → length (first_half bytes.now) ≤ self.old.room → self.new.bytes ≡ self.old.bytes ++ first_half bytes.now }
        ensures none { IsTrue (is_listed self.old.failing self.old.calls) → IsTrue (not (nat_le (length (first_half bytes.now)) self.old.room)) → self.new.bytes ≡ self.old.bytes }
        ensures no_room { OnErr result (IsTrue (not (is_listed self.old.failing self.old.calls)) → self.new.bytes ≡ self.old.bytes) }
        ensures calls { self.new.calls ≡ one_more self.old.calls }
        ensures failing { self.new.failing ≡ self.old.failing }

        // The room that is left, whether calls are to fail or not.
        ensures left { OnOk result (self.new.room ≡ self.old.room - length bytes.now) }
        ensures half_left { IsTrue (is_listed self.old.failing self.old.calls) → length (first_half bytes.now) ≤ self.old.room → self.new.room ≡ self.old.room - length (first_half bytes.now) }
        ensures none_left { IsTrue (is_listed self.old.failing self.old.calls) → IsTrue (not (nat_le (length (first_half bytes.now)) self.old.room)) → self.new.room ≡ self.old.room }
        ensures no_room_left { OnErr result (IsTrue (not (is_listed self.old.failing self.old.calls)) → self.new.room ≡ self.old.room) }
    {
        if self.starts_failing_call() {
            self.count_fault();
            let half = bytes.len() / 2;
            let _taken = self.take_bytes(&bytes[..half]);
            return Err(Failed);
        }
        if !self.take_bytes(bytes) {
            self.count_fault();
            return Err(Failed);
        }
        Ok(())
    }
}
