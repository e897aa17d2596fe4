// Files that a program reads.
ghost use Rattle.std.specs.Prelude.{◌≡◌, ◌≤◌, List, Option, IfSome, IfOk, IsErrOf, length};
ghost use Rattle.outside.specs.declared.files.FileError.TheVariants.{Memory};
ghost use Rattle.outside.specs.Outside.{File, Rose, bytes_of, reading, ReadGives, SizeGives};
ghost use Rattle.outside.specs.Reads.{Counts, Reads};

use std::alloc::{AllocError, AllocFailed, Global};

/// Why a file was not read.
#[derive(Clone, Copy, Debug, PartialEq, Eq)]
pub enum FileError {
    /// The call failed.
    Failed,
    /// No file has the name.
    Absent,
    /// The file is longer than the limit.
    Longer,
    /// Memory ran out.
    Memory,
}

impl From<AllocError> for FileError {
    ghost from_gives = { λ _ e. e ≡ Memory };

    fn from(_e: AllocError) -> FileError {
        FileError::Memory
    }
}

impl<T: Drop> From<AllocFailed<T>> for FileError {
    ghost from_gives = { λ _ e. e ≡ Memory };

    fn from(_e: AllocFailed<T>) -> FileError {
        FileError::Memory
    }
}

/// Why a file was not measured.
#[derive(Clone, Copy, Debug, PartialEq, Eq)]
pub enum SizeError {
    /// The call failed.
    Failed,
    /// No file has the name.
    Absent,
}

/// Files by their names. What they hold may be told; how often a call failed, met no file or met a longer one is
/// counted, and no count falls.
pub trait Files {
    /// The files that are held, where they are told.
    ghost held: { Self → Option (List File) };

    /// How often a call failed, met a name that is not held, and met a file that is longer than its limit.
    ghost counts: { Self → Counts };

    /// The bytes of a file that has at most `limit` of them.
    fn read(&mut self, alloc: Global, name: &str, limit: u64) -> Result<Vec<u8>, FileError>
        ensures told { IfSome (held self.old) (λ files. ReadGives (reading files name.now limit) result) }
        ensures limit { IfOk result (λ bytes. length bytes.items ≤ limit) }
        ensures failed { IsErrOf result FileError.Failed → Rose (counts self.old).failed (counts self.new).failed }
        ensures absent { IsErrOf result FileError.Absent → Rose (counts self.old).absent (counts self.new).absent }
        ensures longer { IsErrOf result FileError.Longer → Rose (counts self.old).overlong (counts self.new).overlong }
        ensures only_read { Reads held counts self.old self.new };

    /// How many bytes a file has.
    fn size(&mut self, name: &str) -> Result<u64, SizeError>
        ensures told { IfSome (held self.old) (λ files. SizeGives (bytes_of files name.now) result) }
        ensures failed { IsErrOf result SizeError.Failed → Rose (counts self.old).failed (counts self.new).failed }
        ensures absent { IsErrOf result SizeError.Absent → Rose (counts self.old).absent (counts self.new).absent }
        ensures only_read { Reads held counts self.old self.new };
}
