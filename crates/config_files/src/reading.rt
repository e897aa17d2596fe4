// Reading a configuration.
ghost use Rattle.std.specs.Prelude.{◌≡◌, IfOk, IfErr, Ok};
ghost use Rattle.ib_config.specs.Settings.{config_of};
ghost use Rattle.outside.specs.Reads.{Reads};
ghost use Rattle.run_steps.specs.Steps.{OnResult, nothing};
ghost use Rattle.run_steps.specs.Stops.{StopsFor, IsOwnDue};
ghost use Rattle.config_files.specs.Configs.{fault_message, IsFaultRefusal, AfterConfigFile, IsConfigFile};

use ib_config::{Config, ConfigFault, read_config};
use outside::{Files, Status};
use run_steps::{Stop, make_file_message, read_file};
use std::alloc::{AllocError, Global};
use texts::Bytes;

// The longest configuration that is read, in bytes.
const CONFIG_LIMIT: u64 = 65_536;

/// What the configuration of this name says, which has at most 65,536 bytes. A file that cannot be read stops the run, and
/// so does a configuration that is refused, whose first fault is named: a name that is not supported stands behind its fault.
pub fn read_config_file<F: Files>(alloc: Global, name: &str, files: &mut F) -> Result<Config, Stop>
    ensures read { IfOk result (λ config. IsConfigFile (F.held files.old) name.now config) }
    ensures stopped { IfErr result (StopsFor F.counts files.old files.new (AfterConfigFile (F.held files.old) name.now nothing)) }
    ensures only_read { Reads F.held F.counts files.old files.new }
{
    let bytes = read_file(alloc, name, CONFIG_LIMIT, files)?;
    said(alloc, name, &bytes)
}

/// What the bytes of a configuration say.
fn said(alloc: Global, name: &str, bytes: &[u8]) -> Result<Config, Stop>
    ensures read { IfOk result (λ config. config_of bytes.now ≡ Ok config) }
    ensures stopped { IfErr result (λ stop. IsOwnDue (OnResult (IsFaultRefusal name.now bytes.now) nothing (config_of bytes.now)) stop) }
{
    match read_config(alloc, bytes) {
        Ok(config) => Ok(config),
        Err(ConfigFault::Memory) => Err(Stop::Memory),
        Err(fault) => Err(Stop::Because(
            Status::Format,
            make_fault_message(alloc, name, bytes, &fault)?,
        )),
    }
}

/// What is said about a configuration that is refused.
fn make_fault_message(
    alloc: Global,
    name: &str,
    bytes: &[u8],
    fault: &ConfigFault,
) -> Result<Bytes, AllocError>
    ensures { IfOk result (λ message. message ≡ fault_message name.now bytes.now fault.now) }
{
    let mut text = Bytes::new(alloc);
    fault.append_named_text(alloc, bytes, &mut text)?;
    make_file_message(alloc, name, text.as_slice())
}
