// The program.
ghost use Rattle.fdt_canonical.specs.Job.{program_name, AreRefused, CallsFor};
ghost use Rattle.fdt_canonical.specs.Promises.{IsRespelled};

use crate::laws;
use crate::respelling::prepare;
use filters::read_words;
use outside::Files;
use program::{Fault, Made, Program};
use std::alloc::Global;

/// What is shown for the word `--help`.
const HELP: &str = "usage: fdt_canonical [TREE]
       fdt_canonical --help | --version

Rewrites a flattened device tree in its one canonical spelling, on standard output.
Without TREE, or where it is -, the tree is read from standard input.
";

/// Rewrites a flattened tree in its canonical spelling.
#[derive(Clone, Copy)]
pub struct FdtCanonical;

impl Program for FdtCanonical {
    ghost name = { program_name };

    ghost refuses = { AreRefused };

    ghost words_take_memory = { ⊥ };

    ghost calls_for = { CallsFor };

    ghost promises = { IsRespelled };

    fn one_outcome(&self) {
        laws::one_outcome();
    }

    fn asks_nothing(&self) {
        laws::asks_nothing();
    }

    fn program_name(&self) -> &'static str {
        "fdt_canonical"
    }

    fn help(&self) -> Option<&'static str> {
        Some(HELP)
    }

    fn make<F: Files>(
        &self,
        alloc: Global,
        words: &[String],
        files: &mut F,
    ) -> Result<Made, Fault> {
        let Some(file) = read_words(words) else {
            return Err(Fault::Usage);
        };
        let build = prepare(alloc, file, files)?;
        Ok(Made::Built(build))
    }
}
