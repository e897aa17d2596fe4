// Files and outputs of the file system. No contents are told; each kind of failure is counted.
ghost use Rattle.std.specs.Prelude.{◌≡◌, ◌≤◌, IfOk, None, length};

use crate::replaced::write_whole;
use outside::{Failed, FileError, Outs, SizeError};
use std::alloc::Global;
use std::fs;
use std::io::{ErrorKind, Read};
use std::marker::Model;
use std::rt::Files;

/// Files and outputs by their paths, with a count of each kind of failure, which stands still at its last value.
#[derive(Drop)]
pub struct Folder<'a, R> {
    rt: &'a R,
    has_input: bool,
    faults: u64,
    absents: u64,
    overlong: u64,
}

impl<'a, R> Model for Folder<'a, R> {
    ghost use Rattle.real_outside.specs.Counts.{FailureCounts};

    ghost Value = { FailureCounts };

    ghost view = { λ folder. record { faults = folder.faults; absents = folder.absents; overlong = folder.overlong } };
}

impl<'a, R: Files> Folder<'a, R> {
    /// The file system, with no failure yet.
    pub fn new(rt: &'a R) -> Folder<'a, R>
        ensures { result ≡ record { faults = 0; absents = 0; overlong = 0 } }
    {
        Folder {
            rt,
            has_input: false,
            faults: 0,
            absents: 0,
            overlong: 0,
        }
    }

    /// The file system, in which the file of the name `-` is standard input, with no failure yet.
    pub fn with_input(rt: &'a R) -> Folder<'a, R>
        ensures { result ≡ record { faults = 0; absents = 0; overlong = 0 } }
    {
        Folder {
            rt,
            has_input: true,
            faults: 0,
            absents: 0,
            overlong: 0,
        }
    }
}

/// Why a file could not be reached: nothing has the name, be it that its path leads through what is no folder, or the call
/// failed.
fn missed(kind: ErrorKind) -> SizeError {
    if kind == ErrorKind::NotFound || kind == ErrorKind::NotADirectory {
        SizeError::Absent
    } else {
        SizeError::Failed
    }
}

/// All the bytes of a reader, at most `limit`.
fn read_within<F: Read>(alloc: Global, file: &mut F, limit: u64) -> Result<Vec<u8>, FileError>
    ensures { IfOk result (λ bytes. length bytes.items ≤ limit) }
{
    let mut bytes = Vec::new(alloc);
    let mut piece = [0u8; 4096];
    for _ in 0..u64::MAX {
        let count = match file.read(&mut piece) {
            Ok(count) => count,
            Err(e) if e.kind() == ErrorKind::Interrupted => continue,
            Err(_) => return Err(FileError::Failed),
        };
        if count == 0 {
            return Ok(bytes);
        }
        if count as u64 > limit || bytes.len() as u64 > limit - count as u64 {
            return Err(FileError::Longer);
        }
        bytes.extend_from_slice(&piece[..count])?;
    }
    Err(FileError::Failed)
}

/// All the bytes of the file of a path, at most `limit`.
fn read_path<R: Files>(rt: &R, alloc: Global, path: &str, limit: u64) -> Result<Vec<u8>, FileError>
    ensures { IfOk result (λ bytes. length bytes.items ≤ limit) }
{
    match fs::open(rt, path) {
        Ok(mut file) => read_within(alloc, &mut file, limit),
        Err(e) => match missed(e.kind()) {
            SizeError::Absent => Err(FileError::Absent),
            SizeError::Failed => Err(FileError::Failed),
        },
    }
}

impl<R: Files + Input> outside::Files for Folder<'_, R> {
    ghost held = { λ _. None };

    ghost counts = { λ folder. record { failed = folder.faults; absent = folder.absents; overlong = folder.overlong } };

    fn read(&mut self, alloc: Global, name: &str, limit: u64) -> Result<Vec<u8>, FileError> {
        let result = if self.has_input && name == "-" {
            read_within(alloc, &mut self.rt.reader(), limit)
        } else {
            read_path(self.rt, alloc, name, limit)
        };
        match result {
            Err(FileError::Failed) => self.faults = self.faults.saturating_add(1),
            Err(FileError::Absent) => self.absents = self.absents.saturating_add(1),
            Err(FileError::Longer) => self.overlong = self.overlong.saturating_add(1),
            _ => {}
        }
        result
    }

    fn size(&mut self, name: &str) -> Result<u64, SizeError> {
        let result = match fs::metadata(self.rt, name) {
            Ok(metadata) if metadata.is_file() => Ok(metadata.len()),
            Ok(_) => Err(SizeError::Failed),
            Err(e) => Err(missed(e.kind())),
        };
        match result {
            Err(SizeError::Failed) => self.faults = self.faults.saturating_add(1),
            Err(SizeError::Absent) => self.absents = self.absents.saturating_add(1),
            Ok(_) => {}
        }
        result
    }
}

impl<R: Files> Outs for Folder<'_, R> {
    ghost written = { λ _. None };

    ghost room = { λ _. None };

    ghost faults = { λ folder. folder.faults };

    fn write(&mut self, name: &str, bytes: &[u8]) -> Result<(), Failed> {
        if write_whole(self.rt, name, bytes) {
            return Ok(());
        }
        self.faults = self.faults.saturating_add(1);
        Err(Failed)
    }
}
