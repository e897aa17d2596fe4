// Files that never fail, and outputs and a stream that take all and keep nothing.
ghost use Rattle.std.specs.Prelude.{◌≡◌, ◌≤◌, [], None, Some, IsErrOf};
ghost use Rattle.outside.specs.Outside.{Rose, reading, bytes_of, ReadGives, SizeGives};
ghost use Rattle.outside.specs.Fakes.{told_files, sure_counts};

use crate::{Failed, FileError, Files, MemFiles, Outs, Sink, SizeError};
use std::alloc::Global;
use std::marker::Model;

/// Files in memory none of whose calls is to fail.
#[derive(Debug, Drop)]
pub struct SureFiles {
    inner: MemFiles,
}

impl Model for SureFiles {
    ghost use Rattle.std.specs.Prelude.{◌≡◌, []};
    ghost use Rattle.outside.specs.Fakes.{HeldFiles};

    ghost Value = { HeldFiles };

    ghost view = { λ s. s.inner };

    ghost invariant = { λ s. s.inner.failing ≡ [] };
}

impl SureFiles {
    /// Takes files none of whose calls is to fail. Takes no memory.
    pub fn new(files: MemFiles) -> SureFiles
        requires { files.failing ≡ [] }
        ensures { result ≡ files }
    {
        SureFiles { inner: files }
    }
}

impl Files for SureFiles {
    ghost held = { told_files };

    ghost counts = { sure_counts };

    fn read(&mut self, alloc: Global, name: &str, limit: u64) -> Result<Vec<u8>, FileError> {
        match self.inner.read(alloc, name, limit) {
            Err(FileError::Failed) => unreachable!(),
            other => other,
        }
    }

    fn size(&mut self, name: &str) -> Result<u64, SizeError> {
        match self.inner.size(name) {
            Err(SizeError::Failed) => unreachable!(),
            other => other,
        }
    }
}

/// Outputs that take every write and keep nothing.
#[derive(Clone, Copy, Debug)]
pub struct NullOuts;

impl Outs for NullOuts {
    ghost written = { λ _. None };

    ghost room = { λ _. None };

    ghost faults = { λ _. 0 };

    fn write(&mut self, _name: &str, _bytes: &[u8]) -> Result<(), Failed> {
        Ok(())
    }
}

/// A stream that takes every put and keeps nothing.
#[derive(Clone, Copy, Debug)]
pub struct NullSink;

impl Sink for NullSink {
    ghost taken = { λ _. None };

    ghost room = { λ _. None };

    ghost faults = { λ _. 0 };

    fn put(&mut self, _bytes: &[u8]) -> Result<(), Failed> {
        Ok(())
    }
}
