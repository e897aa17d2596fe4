// What a case runs: a program, the words of its run, and what it meets outside.
use crate::example::run_job;
use outside::{Files, MemFiles, MemOuts, MemSink, Status};
use std::alloc::{AllocError, Global};
use std::marker::Model;

/// How many outputs a run has at most: a script, the host's tree, and two files of each of sixteen guests.
pub(crate) const OUTPUTS: usize = 34;

// Room for the bytes of their names and contents.
const BYTES: usize = 2_000_000;

// Room for a report or a listing, and for what is said, in bytes.
const REPORT: usize = 100_000;

const SAID: usize = 4000;

/// The program that is run.
#[derive(Clone, Copy)]
enum Program {
    /// `dom0less`.
    Build,
    /// `guest_load`.
    Load,
    /// `fdt_overlay`.
    Overlay,
    /// `fdt_source`.
    Source,
    /// `fdt_canonical`.
    Canonical,
    /// `ib_config_show`.
    Show,
    /// `ib_lint`.
    Lint,
}

/// The program of a name; `dom0less` of any other.
fn program_of(name: &str) -> Program {
    match name {
        "guest_load" => Program::Load,
        "fdt_overlay" => Program::Overlay,
        "fdt_source" => Program::Source,
        "fdt_canonical" => Program::Canonical,
        "ib_config_show" => Program::Show,
        "ib_lint" => Program::Lint,
        _ => Program::Build,
    }
}

/// A program, the words of its run, its name first, and what it meets outside. No contract speaks of a case, so one sees
/// nothing of it.
#[derive(Drop)]
pub(crate) struct Case {
    program: Program,
    words: Vec<String>,
    files: MemFiles,
    outs: MemOuts,
    out: MemSink,
    err: MemSink,
}

impl Model for Case {
    ghost Value = { Unit {0} };

    ghost view = { λ _. tt };
}

impl Case {
    /// No words, no files, and no room for what a run writes. Takes no memory.
    pub(crate) fn new(alloc: Global) -> Case {
        Case {
            program: Program::Build,
            words: Vec::new(alloc),
            files: MemFiles::new(alloc),
            outs: MemOuts::new(alloc),
            out: MemSink::new(alloc),
            err: MemSink::new(alloc),
        }
    }

    /// The program is `dom0less` with no word but its name, there are no files, nothing is written, and there is room for
    /// all that a run writes.
    pub(crate) fn reset(&mut self, alloc: Global) -> Result<(), AllocError> {
        self.files = MemFiles::new(alloc);
        self.clear(alloc)?;
        self.choose(alloc, "dom0less")
    }

    /// Nothing is written, and there is room for all that a run writes.
    pub(crate) fn clear(&mut self, alloc: Global) -> Result<(), AllocError> {
        self.outs = MemOuts::new(alloc);
        self.out = MemSink::new(alloc);
        self.err = MemSink::new(alloc);
        self.outs.reserve(OUTPUTS, BYTES)?;
        self.out.reserve(REPORT)?;
        self.err.reserve(SAID)
    }

    /// The program is the one of this name, with no other word yet.
    pub(crate) fn choose(&mut self, alloc: Global, name: &str) -> Result<(), AllocError> {
        self.program = program_of(name);
        self.words.clear();
        self.add_word(alloc, name)
    }

    /// Adds a word behind the others.
    pub(crate) fn add_word(&mut self, alloc: Global, word: &str) -> Result<(), AllocError> {
        self.words.push(String::from_str(alloc, word)?)?;
        Ok(())
    }

    /// Holds a file, in place of an earlier one of its name.
    pub(crate) fn add_file(&mut self, name: &str, bytes: &[u8]) -> Result<(), AllocError> {
        self.files.add(name, bytes)
    }

    /// Holds the outputs as files.
    pub(crate) fn hold_outputs(&mut self) -> Result<(), AllocError> {
        for number in 0..OUTPUTS {
            if let Some((output, bytes)) = self.outs.written(number) {
                if let Ok(name) = str::from_utf8(output) {
                    self.files.add(name, bytes)?;
                }
            }
        }
        Ok(())
    }

    /// The bytes of a file that is held and has at most `limit` of them.
    pub(crate) fn read_file(&mut self, alloc: Global, name: &str, limit: u64) -> Option<Vec<u8>> {
        self.files.read(alloc, name, limit).ok()
    }

    /// The call of this number fails: of the files, of the outputs, of standard output or of standard error.
    pub(crate) fn fail_at(&mut self, place: &str, call: u64) -> Result<(), AllocError> {
        match place {
            "files" => self.files.fail_at(call),
            "outs" => self.outs.fail_at(call),
            "out" => self.out.fail_at(call),
            "err" => self.err.fail_at(call),
            _ => Ok(()),
        }
    }

    /// Runs the program.
    pub(crate) fn run(&mut self, alloc: Global) -> Status {
        let words = self.words.as_slice();
        let files = &mut self.files;
        let outs = &mut self.outs;
        let out = &mut self.out;
        let err = &mut self.err;
        match self.program {
            Program::Build => dom0less::run(alloc, words, files, outs, out, err),
            Program::Load => guest_load::run(alloc, words, files, outs, out, err),
            Program::Overlay => fdt_overlay::run(alloc, words, files, outs, out, err),
            Program::Source => fdt_source::run(alloc, words, files, outs, out, err),
            Program::Canonical => fdt_canonical::run(alloc, words, files, outs, out, err),
            Program::Show => ib_config_show::run(alloc, words, files, outs, out, err),
            Program::Lint => ib_lint::run(alloc, words, files, outs, out, err),
        }
    }

    /// Lets the example run over the files, with two words behind the name of `dom0less`, and takes over what that
    /// wrote.
    pub(crate) fn run_example(
        &mut self,
        alloc: Global,
        option: &str,
        file: &str,
    ) -> Result<Status, AllocError> {
        let job = run_job(alloc, &mut self.files, &[option, file])?;
        self.outs = job.outs;
        self.out = job.out;
        Ok(job.status)
    }

    /// The name and the bytes of an output, by its number from 0.
    pub(crate) fn written(&self, number: usize) -> Option<(&[u8], &[u8])> {
        self.outs.written(number)
    }

    /// The report or the listing.
    pub(crate) fn report(&self) -> &[u8] {
        self.out.bytes()
    }

    /// What was said.
    pub(crate) fn said(&self) -> &[u8] {
        self.err.bytes()
    }
}
