// What is said about files.
ghost use Rattle.std.specs.Prelude.{◌≡◌, IfOk};
ghost use Rattle.fdt_source.specs.Messages.{bad_name_message, syntax_message};

use run_steps::make_file_message;
use std::alloc::{AllocError, Global};
use texts::Bytes;

/// What is said about a tree with a node, at this path, that cannot be printed.
pub(crate) fn make_bad_name_message(
    alloc: Global,
    name: &str,
    path: &[u8],
) -> Result<Bytes, AllocError>
    ensures { IfOk result (λ message. message ≡ bad_name_message name.now path.now) }
{
    let mut text = Bytes::new(alloc);
    text.append(b"BadName ")?;
    text.append(path)?;
    let message = make_file_message(alloc, name, text.as_slice())?;
    Ok(message)
}

/// What is said about a text that departs from every source at this offset.
pub(crate) fn make_syntax_message(
    alloc: Global,
    name: &str,
    offset: u64,
) -> Result<Bytes, AllocError>
    ensures { IfOk result (λ message. message ≡ syntax_message name.now offset) }
{
    let mut text = Bytes::new(alloc);
    text.append(b"Syntax at ")?;
    text.append_decimal(alloc, offset)?;
    let message = make_file_message(alloc, name, text.as_slice())?;
    Ok(message)
}
