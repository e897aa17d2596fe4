// The program.
ghost use Rattle.ib_lint.specs.Job.{program_name, AreRefused, CallsFor};
ghost use Rattle.ib_lint.specs.Promises.{IsClean};

use crate::laws;
use crate::linting::prepare;
use filters::read_words;
use outside::Files;
use program::{Fault, Made, Program};
use std::alloc::Global;

/// What is shown for the word `--help`.
const HELP: &str = "usage: ib_lint [CONFIG]
       ib_lint --help | --version

Shows what U-Boot and Xen trip over in an ImageBuilder configuration, a line for each
warning; the status is 8 where something is to be mended.
Without CONFIG, or where it is -, the configuration is read from standard input.
";

/// Says what U-Boot and Xen trip over in a configuration.
#[derive(Clone, Copy)]
pub struct IbLint;

impl Program for IbLint {
    ghost name = { program_name };

    ghost refuses = { AreRefused };

    ghost words_take_memory = { ⊥ };

    ghost calls_for = { CallsFor };

    ghost promises = { IsClean };

    fn one_outcome(&self) {
        laws::one_outcome();
    }

    fn asks_nothing(&self) {
        laws::asks_nothing();
    }

    fn program_name(&self) -> &'static str {
        "ib_lint"
    }

    fn help(&self) -> Option<&'static str> {
        Some(HELP)
    }

    fn make<F: Files>(
        &self,
        alloc: Global,
        words: &[String],
        files: &mut F,
    ) -> Result<Made, Fault> {
        let Some(file) = read_words(words) else {
            return Err(Fault::Usage);
        };
        let made = prepare(alloc, file, files)?;
        Ok(made)
    }
}
