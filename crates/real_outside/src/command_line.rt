// The words of the command line.
ghost use Rattle.std.specs.Prelude.{◌≡◌, ◌≢◌, codes};
ghost use Rattle.std.specs.IoError.{error_kind};

use outside::Status;
use std::alloc::AllocError;
use std::env::Env;
use std::io::{self, ErrorKind};

/// The words of the command line, the program's name first. Which words these are is the system's to say, so no clause
/// tells it.
pub fn words(rt: &(impl Env + AllocGlobal)) -> io::Result<Vec<String>> {
    let mut words = Vec::new(rt.alloc());
    for word in std::env::args(rt)? {
        words.push(word).map_err(AllocError::from)?;
    }
    Ok(words)
}

/// The status of a run whose words could not be read, and its message: memory ran out, or a word is not UTF-8.
pub fn unread_words(error: &io::Error) -> (Status, &'static str)
    ensures memory { error_kind error.now ≡ ErrorKind.OutOfMemory → (result.0 ≡ Status.Memory) × (result.1.now ≡ codes "out of memory") }
    ensures usage { error_kind error.now ≢ ErrorKind.OutOfMemory → (result.0 ≡ Status.Words) × (result.1.now ≡ codes "usage") }
{
    if error.kind() == ErrorKind::OutOfMemory {
        (Status::Memory, "out of memory")
    } else {
        (Status::Words, "usage")
    }
}
