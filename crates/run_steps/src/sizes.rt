// Measuring files.
ghost use Rattle.std.specs.Prelude.{◌≡◌, IfOk, IfErr, Some, map};
ghost use Rattle.std.specs.Option.{option_copied};
ghost use Rattle.outside.specs.Reads.{Reads};
ghost use Rattle.run_steps.specs.Names.{joined};
ghost use Rattle.run_steps.specs.Steps.{IsSize, AreSizes, AfterSize, AfterSizes, nothing};
ghost use Rattle.run_steps.specs.Stops.{StopsFor};

use crate::messages::make_file_message;
use crate::names::join;
use crate::stop::Stop;
use outside::{Files, SizeError, Status};
use std::alloc::Global;
use texts::Text;

/// The size of a file, in bytes. A file that is not there stops the run; so does a failed call.
pub fn measure<F: Files>(alloc: Global, name: &str, files: &mut F) -> Result<u64, Stop>
    ensures measured { IfOk result (λ size. IsSize (F.held files.old) name.now (Some size)) }
    ensures stopped { IfErr result (StopsFor F.counts files.old files.new (AfterSize (F.held files.old) name.now nothing)) }
    ensures only_read { Reads F.held F.counts files.old files.new }
{
    match files.size(name) {
        Ok(size) => Ok(size),
        Err(SizeError::Failed) => Err(Stop::Because(
            Status::Read,
            make_file_message(alloc, name, b"read failed")?,
        )),
        Err(SizeError::Absent) => Err(Stop::Because(
            Status::Read,
            make_file_message(alloc, name, b"not found")?,
        )),
    }
}

/// The sizes of files of a folder in their order, in bytes. The first that is not there stops the run; so does a failed call.
pub fn measure_all<F: Files>(
    alloc: Global,
    folder: Option<&str>,
    names: &[Text],
    files: &mut F,
) -> Result<Vec<u64>, Stop>
    ensures measured { IfOk result (λ sizes. AreSizes (F.held files.old) (map (joined (option_copied folder.entry)) names.now) sizes.items) }
    ensures stopped { IfErr result (StopsFor F.counts files.old files.new (AfterSizes (F.held files.old) (map (joined (option_copied folder.entry)) names.now) nothing)) }
    ensures only_read { Reads F.held F.counts files.old files.new }
{
    let mut sizes = Vec::new(alloc);
    for name in names {
        match measure_in(alloc, folder, name.as_str(), files) {
            Ok(size) => sizes.push(size)?,
            Err(stop) => return Err(stop),
        }
    }
    Ok(sizes)
}

/// The size of a file of a folder, in bytes.
fn measure_in<F: Files>(
    alloc: Global,
    folder: Option<&str>,
    name: &str,
    files: &mut F,
) -> Result<u64, Stop>
    ensures measured { IfOk result (λ size. IsSize (F.held files.old) (joined (option_copied folder.entry) name.now) (Some size)) }
    ensures stopped { IfErr result (StopsFor F.counts files.old files.new (AfterSize (F.held files.old) (joined (option_copied folder.entry) name.now) nothing)) }
    ensures only_read { Reads F.held F.counts files.old files.new }
{
    let path = join(alloc, folder, name)?;
    measure(alloc, path.as_str(), files)
}
