// Reading a file.
ghost use Rattle.std.specs.Prelude.{◌≡◌, IfOk, IfErr, Ok};
ghost use Rattle.outside.specs.Reads.{Reads};
ghost use Rattle.run_steps.specs.Steps.{IsReading, AfterReading, nothing};
ghost use Rattle.run_steps.specs.Stops.{StopsFor};

use crate::messages::{make_file_message, make_longer_message};
use crate::stop::Stop;
use outside::{FileError, Files, Status};
use std::alloc::Global;

/// The bytes of a file that has at most `limit` of them. A file that is not there, or longer, stops the run; so does a
/// failed read.
pub fn read_file<F: Files>(
    alloc: Global,
    name: &str,
    limit: u64,
    files: &mut F,
) -> Result<Vec<u8>, Stop>
    ensures read { IfOk result (λ bytes. IsReading (F.held files.old) name.now limit (Ok bytes.items)) }
    ensures stopped { IfErr result (StopsFor F.counts files.old files.new (AfterReading (F.held files.old) name.now limit nothing)) }
    ensures only_read { Reads F.held F.counts files.old files.new }
{
    match files.read(alloc, name, limit) {
        Ok(bytes) => Ok(bytes),
        Err(FileError::Memory) => Err(Stop::Memory),
        Err(FileError::Failed) => Err(Stop::Because(
            Status::Read,
            make_file_message(alloc, name, b"read failed")?,
        )),
        Err(FileError::Absent) => Err(Stop::Because(
            Status::Read,
            make_file_message(alloc, name, b"not found")?,
        )),
        Err(FileError::Longer) => Err(Stop::Because(
            Status::Longer,
            make_longer_message(alloc, name, limit)?,
        )),
    }
}
