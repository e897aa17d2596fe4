// The program.
ghost use Rattle.std.specs.Prelude.{⊤};
ghost use Rattle.dom0less.specs.Job.{AreRefused, CallsFor};
ghost use Rattle.dom0less.specs.Lines.{program_name};
ghost use Rattle.dom0less.specs.Promises.{IsPromised};

use crate::laws;
use crate::prepare::prepare;
use dom0less_words::{WordsFault, read_words};
use outside::Files;
use program::{Fault, Made, Program};
use run_steps::Stop;
use std::alloc::Global;
use texts::Bytes;

/// Builds guests, audits their images, writes a boot script alone, lists a tree, or builds a generated tree.
#[derive(Clone, Copy)]
pub struct Dom0less;

impl Program for Dom0less {
    ghost name = { program_name };

    ghost refuses = { AreRefused };

    ghost words_take_memory = { ⊤ };

    ghost calls_for = { CallsFor };

    ghost promises = { IsPromised };

    fn one_outcome(&self) {
        laws::one_outcome();
    }

    fn asks_nothing(&self) {
        laws::asks_nothing();
    }

    fn program_name(&self) -> &'static str {
        "dom0less"
    }

    /// The words `--help` are among those that `clap` reads, and refuses with its text.
    fn help(&self) -> Option<&'static str> {
        None
    }

    fn make<F: Files>(
        &self,
        alloc: Global,
        words: &[String],
        files: &mut F,
    ) -> Result<Made, Fault> {
        let asked = match read_words(alloc, words) {
            Ok(asked) => asked,
            Err(WordsFault::Refused(text)) => {
                return Err(Fault::Words(Bytes::from(text.into_bytes())));
            }
            Err(WordsFault::Usage) => return Err(Fault::Usage),
            Err(WordsFault::Memory) => return Err(Fault::Stops(Stop::Memory)),
        };
        let build = prepare(alloc, &asked, files)?;
        Ok(Made::Built(build))
    }
}
