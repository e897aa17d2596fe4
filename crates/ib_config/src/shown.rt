// How the faults of a configuration are shown.
ghost use Rattle.std.specs.Prelude.{◌≡◌, ◌++◌, OnOk, decimal};
ghost use Rattle.ib_config.specs.FaultTexts.{variable, fault_text, named_fault_text};

use crate::fault::ConfigFault;
use crate::names::name_on_line;
use std::alloc::{AllocError, Global};
use texts::Bytes;

fn append_number(
    alloc: Global,
    line: &mut Bytes,
    before: &str,
    number: u64,
) -> Result<(), AllocError>
    ensures { OnOk result (line.new ≡ line.old ++ (before.now ++ decimal number)) }
{
    line.append(before.as_bytes())?;
    line.append_decimal(alloc, number)
}

/// Adds a variable's name, and its index if each guest has the variable.
fn append_variable(
    alloc: Global,
    line: &mut Bytes,
    name: &str,
    index: u64,
) -> Result<(), AllocError>
    ensures { OnOk result (line.new ≡ line.old ++ variable name.now index) }
{
    line.append(name.as_bytes())?;
    if name.starts_with("DOMU_") {
        append_number(alloc, line, "[", index)?;
        line.append(b"]")
    } else {
        Ok(())
    }
}

impl ConfigFault {
    /// Adds the fault's text to a line: its name, and the line, the variable or the count that it is of. After want of
    /// memory a part of it may have been added.
    pub fn append_text(&self, alloc: Global, line: &mut Bytes) -> Result<(), AllocError>
        ensures { OnOk result (line.new ≡ line.old ++ fault_text self.now) }
    {
        match self {
            ConfigFault::NotUtf8(at) => append_number(alloc, line, "NotUtf8 at ", *at),
            ConfigFault::BadName(at) => append_number(alloc, line, "BadName at ", *at),
            ConfigFault::BadIndex(at) => append_number(alloc, line, "BadIndex at ", *at),
            ConfigFault::OpenQuote(at) => append_number(alloc, line, "OpenQuote at ", *at),
            ConfigFault::NotPlain(at) => append_number(alloc, line, "NotPlain at ", *at),
            ConfigFault::Unsupported(at) => append_number(alloc, line, "Unsupported at ", *at),
            ConfigFault::Missing(name, index) => {
                line.append(b"Missing ")?;
                append_variable(alloc, line, name.as_str(), *index)
            }
            ConfigFault::BadValue(name, index) => {
                line.append(b"BadValue ")?;
                append_variable(alloc, line, name.as_str(), *index)
            }
            ConfigFault::TooMany(count) => append_number(alloc, line, "TooMany ", *count),
            ConfigFault::Memory => line.append(b"out of memory"),
        }
    }
    /// Adds the fault's text as `append_text` does, and behind that of a name without effect the name: that on the line
    /// of the fault in the file of these bytes. After want of memory a part of it may have been added.
    pub fn append_named_text(
        &self,
        alloc: Global,
        bytes: &[u8],
        line: &mut Bytes,
    ) -> Result<(), AllocError>
        ensures { OnOk result (line.new ≡ line.old ++ named_fault_text bytes.now self.now) }
    {
        self.append_text(alloc, line)?;
        match self {
            ConfigFault::Unsupported(at) => {
                line.append(b" ")?;
                line.append(name_on_line(bytes, *at))
            }
            _ => Ok(()),
        }
    }
}
