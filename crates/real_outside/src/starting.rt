// The start of a program.
ghost use Rattle.std.specs.Prelude.{◌≡◌, ◌⊎◌, Some, IfSome, IfNone};
ghost use Rattle.std.specs.Bool.{OnTrue, OnFalse};
ghost use Rattle.outside.specs.Outside.{Rose, and_bytes};

use crate::command_line::{unread_words, words};
use crate::folder::Folder;
use crate::stream::Stream;
use outside::{Sink, Status};
use program::{Program, run};
use run_steps::say;
use std::env::Env;
use std::io::Write;
use std::process::ExitCode;
use std::rt::Files;

/// The version of every program, as `--version` shows it.
pub const VERSION: &str = "0.9.0";

/// What stands behind a program's name in the line of its version.
const VERSION_LINE: &[u8] = b" 0.9.0\n";

/// Runs a program over the words of the command line, the real file system and the streams, and answers its exit status.
///
/// Where the program has a text of help, the single word `--help` puts that text on standard output and the single word
/// `--version` the program's name and its version, with status 0.
pub fn start<P: Program, R: Env + Files + Input + AllocGlobal, S: Write + Drop, E: Write + Drop>(
    rt: &R,
    out: S,
    err: E,
    program: &P,
) -> ExitCode {
    start_over(rt, Folder::new(rt), out, err, program)
}

/// Runs a filter likewise: to it, a file of the name `-` is standard input.
pub fn start_filter<
    P: Program,
    R: Env + Files + Input + AllocGlobal,
    S: Write + Drop,
    E: Write + Drop,
>(rt: &R, out: S, err: E, program: &P) -> ExitCode {
    start_over(rt, Folder::with_input(rt), out, err, program)
}

fn start_over<P: Program, R: Env + Files + Input + AllocGlobal, S: Write + Drop, E: Write + Drop>(
    rt: &R,
    mut files: Folder<'_, R>,
    out: S,
    err: E,
    program: &P,
) -> ExitCode {
    let mut out = Stream::new(out);
    let mut err = Stream::new(err);
    let words = match words(rt) {
        Ok(words) => words,
        Err(error) => {
            let (status, message) = unread_words(&error);
            say(&mut err, program.program_name(), message.as_bytes());
            return ExitCode::from(status.code());
        }
    };
    if let Some(help) = program.help() {
        if let Some(status) = answer_about(
            program.program_name(),
            help,
            &words,
            &mut out,
            &mut err,
        ) {
            return ExitCode::from(status.code());
        }
    }
    let mut outs = Folder::new(rt);
    let status = run(
        program,
        rt.alloc(),
        &words,
        &mut files,
        &mut outs,
        &mut out,
        &mut err,
    );
    ExitCode::from(status.code())
}

/// Answers the single word `--help` or `--version` on standard output; no answer to other words. Takes no memory.
fn answer_about<S: Sink, E: Sink>(
    name: &str,
    help: &str,
    words: &[String],
    out: &mut S,
    err: &mut E,
) -> Option<Status>
    ensures unasked { IfNone result ((out.new ≡ out.old) × (err.new ≡ err.old)) }
    ensures only { IfSome result (λ status. (status ≡ Status.Built) ⊎ (status ≡ Status.Write)) }
    ensures built { result ≡ Some Status.Built → err.new ≡ err.old }
    ensures write { result ≡ Some Status.Write → Rose (S.faults out.old) (S.faults out.new) }
{
    let [_, word] = words else {
        return None;
    };
    let whole = match word.as_str() {
        "--help" => put_both(out, help.as_bytes(), b""),
        "--version" => put_both(out, name.as_bytes(), VERSION_LINE),
        _ => return None,
    };
    if whole {
        return Some(Status::Built);
    }
    say(err, name, b"standard output: write failed");
    Some(Status::Write)
}

/// Puts two texts, one behind the other, and answers whether both were taken whole.
fn put_both<S: Sink>(out: &mut S, one: &[u8], other: &[u8]) -> bool
    ensures whole { OnTrue result (S.taken out.new ≡ and_bytes (and_bytes (S.taken out.old) one.now) other.now) }
    ensures failed { OnFalse result (Rose (S.faults out.old) (S.faults out.new)) }
{
    if out.put(one).is_err() {
        return false;
    }
    out.put(other).is_ok()
}
