// What is said about trees' files.
ghost use Rattle.std.specs.Prelude.{◌≡◌, ◌-◌, ◌^◌, min, IfOk};
ghost use Rattle.fdt_read.specs.FaultTexts.{fault_text};
ghost use Rattle.run_steps.specs.Messages.{file_message};
ghost use Rattle.tree_files.specs.Lengths.{too_long_message};

use fdt_read::FdtFault;
use run_steps::make_file_message;
use std::alloc::{AllocError, Global};
use texts::Bytes;

/// What is said about a file that is no flattened tree.
pub(crate) fn make_fault_message(
    alloc: Global,
    name: &str,
    fault: &FdtFault,
) -> Result<Bytes, AllocError>
    ensures { IfOk result (λ message. message ≡ file_message name.now (fault_text fault.now)) }
{
    let mut text = Bytes::new(alloc);
    fault.append_text(alloc, &mut text)?;
    make_file_message(alloc, name, text.as_slice())
}

/// What is said about a tree of so many bytes, or of more where the number is the greatest, that is too long to be written
/// under a name.
pub(crate) fn make_too_long_message(
    alloc: Global,
    name: &str,
    bytes: u64,
) -> Result<Bytes, AllocError>
    ensures { IfOk result (λ message. (length : _) → bytes ≡ min length (2 ^ 64 - 1) → message ≡ too_long_message name.now length) }
{
    let mut text = Bytes::new(alloc);
    text.append(b"TreeTooLong ")?;
    text.append_decimal(alloc, bytes)?;
    let message = make_file_message(alloc, name, text.as_slice())?;
    Ok(message)
}
