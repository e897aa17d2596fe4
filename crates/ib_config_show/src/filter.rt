// The program.
ghost use Rattle.ib_config_show.specs.Job.{program_name, AreRefused, CallsFor};
ghost use Rattle.ib_config_show.specs.Promises.{IsShown};

use crate::laws;
use crate::showing::prepare;
use filters::read_words;
use outside::Files;
use program::{Fault, Made, Program};
use std::alloc::Global;

/// What is shown for the word `--help`.
const HELP: &str = "usage: ib_config_show [CONFIG]
       ib_config_show --help | --version

Shows what each variable of an ImageBuilder configuration means, on standard output.
Without CONFIG, or where it is -, the configuration is read from standard input.
";

/// Shows what a configuration says.
#[derive(Clone, Copy)]
pub struct IbConfigShow;

impl Program for IbConfigShow {
    ghost name = { program_name };

    ghost refuses = { AreRefused };

    ghost words_take_memory = { ⊥ };

    ghost calls_for = { CallsFor };

    ghost promises = { IsShown };

    fn one_outcome(&self) {
        laws::one_outcome();
    }

    fn asks_nothing(&self) {
        laws::asks_nothing();
    }

    fn program_name(&self) -> &'static str {
        "ib_config_show"
    }

    fn help(&self) -> Option<&'static str> {
        Some(HELP)
    }

    fn make<F: Files>(
        &self,
        alloc: Global,
        words: &[String],
        files: &mut F,
    ) -> Result<Made, Fault> {
        let Some(file) = read_words(words) else {
            return Err(Fault::Usage);
        };
        let build = prepare(alloc, file, files)?;
        Ok(Made::Built(build))
    }
}
