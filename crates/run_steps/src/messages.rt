// Messages, which are said behind the program's name.
ghost use Rattle.std.specs.Prelude.{◌≡◌, IfOk};
ghost use Rattle.run_steps.specs.Messages.{file_message, longer_message};

use std::alloc::{AllocError, Global};
use texts::Bytes;

/// What is said about a file: `NAME: TEXT`.
pub fn make_file_message(alloc: Global, name: &str, text: &[u8]) -> Result<Bytes, AllocError>
    ensures { IfOk result (λ message. message ≡ file_message name.now text.now) }
{
    let mut message = Bytes::new(alloc);
    message.append(name.as_bytes())?;
    message.append(b": ")?;
    message.append(text)?;
    Ok(message)
}

/// What is said about a file that is longer than its limit, in bytes: `NAME: longer than LIMIT`.
pub(crate) fn make_longer_message(
    alloc: Global,
    name: &str,
    limit: u64,
) -> Result<Bytes, AllocError>
    ensures { IfOk result (λ message. message ≡ longer_message name.now limit) }
{
    let mut text = Bytes::new(alloc);
    text.append(b"longer than ")?;
    text.append_decimal(alloc, limit)?;
    let message = make_file_message(alloc, name, text.as_slice())?;
    Ok(message)
}
