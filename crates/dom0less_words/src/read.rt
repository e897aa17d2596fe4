//! The words of the command line.
ghost use Rattle.std.specs.Prelude.{◌≡◌, ◌≢◌, ◌≤◌, IfOk, Ok, Err, Some, None, map, string_bytes, true, false};
ghost use Rattle.clap.specs.Words.{kind_of};
ghost use Rattle.clap.specs.declared.error.kind.ErrorKind.TheVariants.{OutOfMemory};
ghost use Rattle.dom0less_words.specs.Command.{is_taken};
ghost use Rattle.dom0less_words.specs.Settings.{settings};
ghost use Rattle.dom0less_words.specs.Meant.{meant};

use crate::asked::Asked;
use crate::command::find_options;
use crate::options::asked;
use clap::Error;
use clap::error::ErrorKind;
use std::alloc::Global;

/// Why words are refused.
#[derive(Debug, Drop)]
pub enum WordsFault {
    /// `clap` does not take them, and this is its text; a call for help is among them.
    Refused(String),
    /// They break a rule of usage.
    Usage,
    /// Memory ran out.
    Memory,
}

/// What the words of the command line ask for, the program's name first. `Refused` where `clap` does not take them, a call
/// for help included, with its text; `Usage` where it takes them and they break a rule of usage, as two modes, or an
/// option that does not go with the mode; `Memory` where memory ran out.
pub fn read_words<'a>(alloc: Global, words: &'a [String]) -> Result<Asked<'a>, WordsFault>
    ensures asked { IfOk result (λ asked. settings (map string_bytes words.now) ≡ Some (meant asked)) }
    // A tree is generated for a number up to the limit alone.
    ensures bounded { (number : _) → result ≡ Ok (Asked.Generate number) → number ≤ 1000000 }
    ensures refused { (text : _) → result ≡ Err (WordsFault.Refused text) → is_taken (map string_bytes words.now) ≡ false }
    ensures usage { result ≡ Err WordsFault.Usage → (is_taken (map string_bytes words.now) ≡ true) × (settings (map string_bytes words.now) ≡ None) }
{
    match find_options(alloc, words) {
        Ok(options) => match asked(&options) {
            Some(asked) => Ok(asked),
            None => Err(WordsFault::Usage),
        },
        Err(error) => Err(refused(alloc, &error)),
    }
}

/// What `clap` refuses, with its text.
fn refused(alloc: Global, error: &Error) -> WordsFault
    ensures memory { kind_of error.now ≡ OutOfMemory → result ≡ WordsFault.Memory }
    ensures other { result ≢ WordsFault.Usage }
{
    if error.kind() == ErrorKind::OutOfMemory {
        return WordsFault::Memory;
    }
    match format!(in alloc; "{error}") {
        Ok(text) => WordsFault::Refused(text),
        Err(_) => WordsFault::Memory,
    }
}
