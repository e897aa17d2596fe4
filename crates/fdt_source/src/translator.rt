// The program.
ghost use Rattle.fdt_source.specs.Job.{AreRefused, CallsFor};
ghost use Rattle.fdt_source.specs.Messages.{program_name};
ghost use Rattle.fdt_source.specs.Promises.{IsPromised};

use crate::laws;
use crate::prepare::prepare;
use crate::words::read_words;
use outside::Files;
use program::{Fault, Made, Program};
use std::alloc::Global;

/// What is shown for the word `--help`.
const HELP: &str = "usage: fdt_source print TREE
       fdt_source build TEXT OUT
       fdt_source --help | --version

Prints the flattened device tree TREE as source, or builds one of the source TEXT
and writes it to OUT.
";

/// Prints trees as device tree source, and builds them of it.
#[derive(Clone, Copy)]
pub struct FdtSource;

impl Program for FdtSource {
    ghost name = { program_name };

    ghost refuses = { AreRefused };

    ghost words_take_memory = { ⊥ };

    ghost calls_for = { CallsFor };

    ghost promises = { IsPromised };

    fn one_outcome(&self) {
        laws::one_outcome();
    }

    fn asks_nothing(&self) {
        laws::asks_nothing();
    }

    fn program_name(&self) -> &'static str {
        "fdt_source"
    }

    fn help(&self) -> Option<&'static str> {
        Some(HELP)
    }

    fn make<F: Files>(
        &self,
        alloc: Global,
        words: &[String],
        files: &mut F,
    ) -> Result<Made, Fault> {
        let Some(asked) = read_words(words) else {
            return Err(Fault::Usage);
        };
        let build = prepare(alloc, &asked, files)?;
        Ok(Made::Built(build))
    }
}
