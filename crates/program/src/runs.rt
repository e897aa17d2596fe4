// The top call of every program.
ghost use Rattle.std.specs.Prelude.{map, string_bytes};
ghost use Rattle.program.specs.Runs.{Ran};

use crate::finding::write_found;
use crate::{Fault, Made, Program};
use outside::{Files, Outs, Sink, Status};
use run_steps::{Stop, say, write_all};
use std::alloc::Global;

/// Runs a program: reads its words and its files, makes all bytes, and then writes them. The answer is the status; a line on
/// `err` says why it is not `Built`.
///
/// `words` are those of the command line, the program's name first.
pub fn run<P: Program, F: Files, O: Outs, S: Sink, E: Sink>(
    program: &P,
    alloc: Global,
    words: &[String],
    files: &mut F,
    outs: &mut O,
    out: &mut S,
    err: &mut E,
) -> Status
    ensures ran { Ran F.held F.counts O.written O.room O.faults S.taken S.room S.faults E.taken E.faults
        P.name (P.refuses (map string_bytes words.now)) P.words_take_memory (P.calls_for (map string_bytes words.now) (F.held files.old)) (P.promises (map string_bytes words.now) (F.held files.old))
        files.old files.new outs.old outs.new out.old out.new err.old err.new result }
{
    program.one_outcome();
    program.asks_nothing();
    let name = program.program_name();
    match program.make(alloc, words, files) {
        Ok(Made::Built(build)) => write_all(name, &build, outs, out, err),
        Ok(Made::Found(verdict, list)) => { write_found(name, verdict, list.as_slice(), out, err) }
        Err(Fault::Usage) => {
            say(err, name, b"usage");
            Status::Words
        }
        Err(Fault::Words(text)) => {
            let _ = err.put(text.as_slice());
            Status::Words
        }
        Err(Fault::Stops(Stop::Memory)) => {
            say(err, name, b"out of memory");
            Status::Memory
        }
        Err(Fault::Stops(Stop::Because(status, message))) => {
            say(err, name, message.as_slice());
            status
        }
    }
}
