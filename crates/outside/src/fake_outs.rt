// Outputs in memory, for tests.
ghost use Rattle.std.specs.Prelude.{◌≡◌, ◌≤◌, ◌<◌, ◌+◌, ◌∷◌, ◌++◌, ◌||◌, not, max, [], Some, IfSome, IsTrue, IsOk, OnOk, OnErr, MatchOption, slice_get, length, if◌then◌else◌, is_err};
ghost use Rattle.std.specs.Bool.{OnTrue, OnFalse};
ghost use Rattle.outside.specs.Outside.{Rose, one_more, and_file, TookPart, fits_file, less_file};
ghost use Rattle.outside.specs.Fakes.{is_listed, told_room, first_half};

use crate::places::{Place, append_file, file_of};
use crate::{Failed, Outs};
use std::alloc::{AllocError, Global};
use std::marker::Model;

/// Outputs in memory. A write takes no memory: it uses room that `reserve` made. A write whose number was added by
/// `fail_at` fails, and so does one without room.
#[derive(Debug, Drop)]
pub struct MemOuts {
    bytes: Vec<u8>,
    places: Vec<Place>,
    bytes_room: usize,
    places_room: usize,
    calls: u64,
    failing: Vec<u64>,
    faults: u64,
}

impl Model for MemOuts {
    ghost use Rattle.std.specs.Prelude.{vec_capacity};
    ghost use Rattle.outside.specs.Fakes.{TakenFiles};
    ghost use Rattle.outside.specs.Places.{files_at, OutsHold};

    ghost Value = { TakenFiles };

    ghost view = { λ m. record { written = files_at m.bytes.items m.places.items; room = (m.places_room, m.bytes_room); calls = m.calls; failing = m.failing.items; faults = m.faults } };

    ghost invariant = { λ m. OutsHold m.bytes.items m.places.items (vec_capacity m.bytes) (vec_capacity m.places) m.bytes_room m.places_room };
}

impl MemOuts {
    /// Nothing written, and no room. Takes no memory.
    pub fn new(alloc: Global) -> MemOuts
        ensures { result ≡ record { written = []; room = (0, 0); calls = 0; failing = []; faults = 0 } }
    {
        MemOuts {
            bytes: Vec::new(alloc),
            places: Vec::new(alloc),
            bytes_room: 0,
            places_room: 0,
            calls: 0,
            failing: Vec::new(alloc),
            faults: 0,
        }
    }

    /// The call of this number is to fail.
    pub fn fail_at(&mut self, call: u64) -> Result<(), AllocError>
        ensures ok { OnOk result (self.new ≡ record self.old { failing = self.old.failing ++ call ∷ [] }) }
        ensures err { OnErr result (self.new ≡ self.old) }
    {
        self.failing.push(call)?;
        Ok(())
    }

    /// Makes room for at least so many files more, and so many bytes of their names and contents.
    pub fn reserve(&mut self, files: usize, bytes: usize) -> Result<(), AllocError>
        ensures ok { OnOk result (self.new ≡ record self.old { room = (max self.old.room.0 files, max self.old.room.1 bytes) }) }
        ensures err { OnErr result (self.new ≡ self.old) }
    {
        let files = self.places_room.max(files);
        let bytes = self.bytes_room.max(bytes);
        self.places.reserve(files)?;
        self.bytes.reserve(bytes)?;
        self.places_room = files;
        self.bytes_room = bytes;
        Ok(())
    }

    /// The name and the bytes of the file that was taken at this index, from 0; `None` exactly past the last.
    pub fn written(&self, index: usize) -> Option<(&[u8], &[u8])>
        ensures { MatchOption result (length self.now.written ≤ index) (λ file. slice_get self.now.written index ≡ Some (file.0.now, file.1.now)) }
    {
        if index >= self.places.len() {
            return None;
        }
        Some(file_of(&self.bytes, &self.places, index))
    }

    // Counts a call, and tells whether it is to fail by its number.
    fn starts_failing_call(&mut self) -> bool
        ensures fails { result ≡ is_listed self.old.failing self.old.calls }
        ensures counted { self.new ≡ record self.old { calls = one_more self.old.calls } }
    {
        let fails = self.failing.contains(&self.calls);
        self.calls = self.calls.saturating_add(1);
        fails
    }

    fn count_fault(&mut self)
        ensures counted { self.new ≡ record self.old { faults = one_more self.old.faults } }
        ensures later { self.old.faults ≤ self.new.faults }
    {
        self.faults = self.faults.saturating_add(1);
    }

    // Takes a file where there is room for it.
    fn take_file(&mut self, name: &[u8], bytes: &[u8]) -> bool
        ensures fits { result ≡ fits_file self.old.room name.now bytes.now }
        ensures taken { OnTrue result (self.new ≡ record self.old { written = self.old.written ++ (name.now, bytes.now) ∷ []; room = less_file self.old.room name.now bytes.now }) }
        ensures same { OnFalse result (self.new ≡ self.old) }
    {
        if self.places_room == 0
            || name.len() > self.bytes_room
            || bytes.len() > self.bytes_room - name.len()
        {
            return false;
        }
        append_file(&mut self.bytes, &mut self.places, name, bytes);
        self.places_room -= 1;
        self.bytes_room -= name.len() + bytes.len();
        true
    }
}

impl Outs for MemOuts {
    ghost written = { λ m. Some m.written };

    ghost room = { λ m. told_room m.failing m.room };

    ghost faults = { λ m. m.faults };

    fn write(&mut self, name: &str, bytes: &[u8]) -> Result<(), Failed>
        ensures ok { OnOk result (Some self.new.written ≡ and_file (Some self.old.written) name.now bytes.now) }
        ensures part { OnErr result (TookPart (Some self.old.written) (Some self.new.written) name.now bytes.now) }
        ensures room { IfSome (told_room self.old.failing self.old.room) (λ room_left. IsTrue (fits_file room_left name.now bytes.now) → IsOk result × (told_room self.new.failing self.new.room ≡ Some (less_file room_left name.now bytes.now))) }
        ensures failed { OnErr result (Rose self.old.faults self.new.faults) }
        ensures faults { self.old.faults ≤ self.new.faults }

        // It fails exactly where its number was added, or the room is too small.
        ensures fails { is_err result ≡ (is_listed self.old.failing self.old.calls || not (fits_file self.old.room name.now bytes.now)) }

        // A write that is to fail by its number takes the first half of its bytes where there is room for them.
        ensures half { IsTrue (is_listed self.old.failing self.old.calls) → IsTrue (fits_file self.old.room name.now (first_half bytes.now)) → self.new.written ≡ self.old.written ++ (name.now, first_half bytes.now) ∷ [] }
        ensures none { IsTrue (is_listed self.old.failing self.old.calls) → IsTrue (not (fits_file self.old.room name.now (first_half bytes.now))) → self.new.written ≡ self.old.written }
        ensures no_room { OnErr result (IsTrue (not (is_listed self.old.failing self.old.calls)) → self.new.written ≡ self.old.written) }
        ensures calls { self.new.calls ≡ one_more self.old.calls }
        ensures failing { self.new.failing ≡ self.old.failing }

        // The room that is left, whether calls are to fail or not.
        ensures left { OnOk result (self.new.room ≡ less_file self.old.room name.now bytes.now) }
        ensures half_left { IsTrue (is_listed self.old.failing self.old.calls) → IsTrue (fits_file self.old.room name.now (first_half bytes.now)) → self.new.room ≡ less_file self.old.room name.now (first_half bytes.now) }
        ensures none_left { IsTrue (is_listed self.old.failing self.old.calls) → IsTrue (not (fits_file self.old.room name.now (first_half bytes.now))) → self.new.room ≡ self.old.room }
        ensures no_room_left { OnErr result (IsTrue (not (is_listed self.old.failing self.old.calls)) → self.new.room ≡ self.old.room) }
    {
        if self.starts_failing_call() {
            self.count_fault();
            let half = bytes.len() / 2;
            let _taken = self.take_file(name.as_bytes(), &bytes[..half]);
            return Err(Failed);
        }
        if !self.take_file(name.as_bytes(), bytes) {
            self.count_fault();
            return Err(Failed);
        }
        Ok(())
    }
}
