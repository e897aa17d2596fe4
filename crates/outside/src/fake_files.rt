// Files in memory, for tests.
ghost use Rattle.std.specs.Prelude.{◌≡◌, ◌≤◌, ◌↔◌, ◌∷◌, ◌++◌, [], Some, IfSome, IfOk, length, IsTrue, IsErrOf, OnOk, OnErr, option_copied, if◌then◌else◌};
ghost use Rattle.outside.specs.Outside.{Rose, one_more, bytes_of, reading, ReadGives, SizeGives};
ghost use Rattle.outside.specs.Reads.{Reads};
ghost use Rattle.outside.specs.Fakes.{is_listed, told_files, file_counts};

use crate::{FileError, Files, SizeError};
use std::alloc::{AllocError, Global};
use std::marker::Model;
use texts::Bytes;

/// Files in memory. A call whose number was added by `fail_at` fails; all calls are counted together, from 0.
#[derive(Debug, Drop)]
pub struct MemFiles {
    alloc: Global,
    files: Vec<(Bytes, Bytes)>,
    calls: u64,
    failing: Vec<u64>,
    faults: u64,
    absents: u64,
    overlong: u64,
}

impl Model for MemFiles {
    ghost use Rattle.outside.specs.Fakes.{HeldFiles};

    ghost Value = { HeldFiles };

    ghost view = { λ m. record { files = m.files.items; calls = m.calls; failing = m.failing.items; faults = m.faults; absents = m.absents; overlong = m.overlong } };
}

impl MemFiles {
    /// No files. Takes no memory.
    pub fn new(alloc: Global) -> MemFiles
        ensures { result ≡ record { files = []; calls = 0; failing = []; faults = 0; absents = 0; overlong = 0 } }
    {
        MemFiles {
            alloc,
            files: Vec::new(alloc),
            calls: 0,
            failing: Vec::new(alloc),
            faults: 0,
            absents: 0,
            overlong: 0,
        }
    }

    /// The call of this number is to fail.
    pub fn fail_at(&mut self, call: u64) -> Result<(), AllocError>
        ensures ok { OnOk result (self.new ≡ record self.old { failing = self.old.failing ++ call ∷ [] }) }
        ensures err { OnErr result (self.new ≡ self.old) }
    {
        self.failing.push(call)?;
        Ok(())
    }

    /// Adds a file, which counts from now on in place of an earlier one of its name.
    pub fn add(&mut self, name: &str, bytes: &[u8]) -> Result<(), AllocError>
        ensures ok { OnOk result (self.new ≡ record self.old { files = (name.now, bytes.now) ∷ self.old.files }) }
        ensures err { OnErr result (self.new ≡ self.old) }
    {
        let mut own_name = Bytes::new(self.alloc);
        own_name.append(name.as_bytes())?;
        let mut own_bytes = Bytes::new(self.alloc);
        own_bytes.append(bytes)?;
        self.files.insert(0, (own_name, own_bytes))?;
        Ok(())
    }
}

// The bytes of the first file of that name.
fn find_bytes<'a>(files: &'a [(Bytes, Bytes)], name: &str) -> Option<&'a [u8]>
    ensures { option_copied result ≡ bytes_of files.entry.now name.now }
{
    files
        .iter()
        .find(|file| file.0.as_slice() == name.as_bytes())
        .map(|file| file.1.as_slice())
}

impl MemFiles {
    // Counts a call, and tells whether it is to fail.
    fn starts_failing_call(&mut self) -> bool
        ensures fails { result ≡ is_listed self.old.failing self.old.calls }
        ensures later { self.old.faults ≤ self.new.faults }
        ensures counted { self.new ≡ record self.old { calls = one_more self.old.calls; faults = if result then one_more self.old.faults else self.old.faults } }
    {
        let fails = self.failing.contains(&self.calls);
        self.calls = self.calls.saturating_add(1);
        if fails {
            self.faults = self.faults.saturating_add(1);
        }
        fails
    }
}

impl Files for MemFiles {
    ghost held = { told_files };

    ghost counts = { file_counts };

    fn read(&mut self, alloc: Global, name: &str, limit: u64) -> Result<Vec<u8>, FileError>
        ensures told { ReadGives (reading self.old.files name.now limit) result }
        ensures limit { IfOk result (λ bytes. length bytes.items ≤ limit) }
        ensures kept { self.new.files ≡ self.old.files }
        ensures failed { IsErrOf result FileError.Failed → Rose self.old.faults self.new.faults }
        ensures absent { IsErrOf result FileError.Absent → Rose self.old.absents self.new.absents }
        ensures longer { IsErrOf result FileError.Longer → Rose self.old.overlong self.new.overlong }
        ensures only_read { Reads told_files file_counts self.old self.new }

        // The call fails exactly where its number was added.
        ensures fails { IsErrOf result FileError.Failed ↔ IsTrue (is_listed self.old.failing self.old.calls) }
        ensures calls { self.new.calls ≡ one_more self.old.calls }
        ensures failing { self.new.failing ≡ self.old.failing }
    {
        if self.starts_failing_call() {
            return Err(FileError::Failed);
        }
        match find_bytes(&self.files, name) {
            None => {
                self.absents = self.absents.saturating_add(1);
                Err(FileError::Absent)
            }
            Some(bytes) => {
                if bytes.len() as u64 > limit {
                    self.overlong = self.overlong.saturating_add(1);
                    return Err(FileError::Longer);
                }
                Ok(bytes.to_vec(alloc)?)
            }
        }
    }

    fn size(&mut self, name: &str) -> Result<u64, SizeError>
        ensures told { SizeGives (bytes_of self.old.files name.now) result }
        ensures kept { self.new.files ≡ self.old.files }
        ensures failed { IsErrOf result SizeError.Failed → Rose self.old.faults self.new.faults }
        ensures absent { IsErrOf result SizeError.Absent → Rose self.old.absents self.new.absents }
        ensures only_read { Reads told_files file_counts self.old self.new }

        // The call fails exactly where its number was added.
        ensures fails { IsErrOf result SizeError.Failed ↔ IsTrue (is_listed self.old.failing self.old.calls) }
        ensures calls { self.new.calls ≡ one_more self.old.calls }
        ensures failing { self.new.failing ≡ self.old.failing }
    {
        if self.starts_failing_call() {
            return Err(SizeError::Failed);
        }
        match find_bytes(&self.files, name) {
            None => {
                self.absents = self.absents.saturating_add(1);
                Err(SizeError::Absent)
            }
            Some(bytes) => Ok(bytes.len() as u64),
        }
    }
}
