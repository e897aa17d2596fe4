// A run of `dom0less` in memory.
ghost use Rattle.std.specs.Prelude.{◌≡◌, ◌∷◌, IfOk, map, codes, string_bytes};
ghost use Rattle.run_steps.specs.Endings.{Refuses, Builds};
ghost use Rattle.dom0less.specs.Job.{CallsFor};

use outside::{Files, MemOuts, MemSink, Status};
use std::alloc::{AllocError, Global};

// Room for what a job writes: a script, the host's tree, and two files of each guest, in bytes.
const ROOM: usize = 200_000;

// How many files a job writes at most.
const OUTPUTS: usize = 8;

/// What a run answered, wrote and put.
#[derive(Drop)]
pub struct Job {
    /// The answer.
    pub status: Status,
    /// The outputs.
    pub outs: MemOuts,
    /// The report.
    pub out: MemSink,
}

/// The words of a command line, the program's name first.
fn words_of(alloc: Global, more: &[&str]) -> Result<Vec<String>, AllocError>
    ensures { IfOk result (λ words. map string_bytes words.items ≡ codes "dom0less" ∷ map (λ word. word.now) more.now) }
{
    let mut words = Vec::new(alloc);
    words.push(String::from_str(alloc, "dom0less")?)?;
    for word in more {
        words.push(String::from_str(alloc, word)?)?;
    }
    Ok(words)
}

/// Runs over files with these words behind the program's name. A build has taken what the words and the files call for,
/// and a refused description is refused by them. Its only error is want of memory.
pub fn run_job<F: Files>(alloc: Global, files: &mut F, more: &[&str]) -> Result<Job, AllocError>
    ensures built { IfOk result (λ job. job.status ≡ Status.Built → CallsFor (codes "dom0less" ∷ map (λ word. word.now) more.now) (F.held files.old) (Builds job.outs.written job.out.bytes)) }
    ensures refused { IfOk result (λ job. job.status ≡ Status.Refused → (line : _) × CallsFor (codes "dom0less" ∷ map (λ word. word.now) more.now) (F.held files.old) (Refuses Status.Refused line)) }
{
    let words = words_of(alloc, more)?;
    let mut outs = MemOuts::new(alloc);
    outs.reserve(OUTPUTS, ROOM)?;
    let mut out = MemSink::new(alloc);
    out.reserve(ROOM)?;
    let mut err = MemSink::new(alloc);
    err.reserve(ROOM)?;
    let status = dom0less::run(alloc, &words, files, &mut outs, &mut out, &mut err);
    Ok(Job { status, outs, out })
}
