// Putting a list that was found.
ghost use Rattle.std.specs.Prelude.{◌≡◌, ◌⊎◌, codes};
ghost use Rattle.outside.specs.Outside.{Rose, and_bytes, TookPrefix};
ghost use Rattle.run_steps.specs.Messages.{line, file_message};
ghost use Rattle.run_steps.specs.Endings.{Said, TakesBytes};
ghost use Rattle.program.specs.Made.{status_of};

use crate::Verdict;
use outside::{Sink, Status};
use run_steps::say;

/// Puts a list on standard output. Takes no memory. The answer is the verdict's status, or `Write` where the list was not
/// taken whole, which the program's line on `err` says.
pub(crate) fn write_found<S: Sink, E: Sink>(
    program: &str,
    verdict: Verdict,
    list: &[u8],
    out: &mut S,
    err: &mut E,
) -> Status
    ensures found { result ≡ status_of verdict → (S.taken out.new ≡ and_bytes (S.taken out.old) list.now) × (err.new ≡ err.old) }
    ensures write { result ≡ Status.Write →
        Said E.taken E.faults err.old err.new (line program.now (file_message (codes "standard output") (codes "write failed")))
        × Rose (S.faults out.old) (S.faults out.new)
        × TookPrefix (S.taken out.old) (S.taken out.new) list.now }
    ensures only { (result ≡ status_of verdict) ⊎ (result ≡ Status.Write) }
    ensures room { TakesBytes (S.room out.old) list.now → result ≡ status_of verdict }
{
    match out.put(list) {
        Ok(()) => verdict.status(),
        Err(_failed) => {
            say(err, program, b"standard output: write failed");
            Status::Write
        }
    }
}
