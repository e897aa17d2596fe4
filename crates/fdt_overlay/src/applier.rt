// The program.
ghost use Rattle.fdt_overlay.specs.Job.{AreRefused, CallsFor};
ghost use Rattle.fdt_overlay.specs.Lines.{program_name};
ghost use Rattle.fdt_overlay.specs.Promises.{IsPromised};

use crate::laws;
use crate::prepare::prepare;
use crate::words::read_words;
use outside::Files;
use program::{Fault, Made, Program};
use std::alloc::Global;

/// What is shown for the word `--help`.
const HELP: &str = "usage: fdt_overlay BASE OUT OVERLAY..
       fdt_overlay --help | --version

Applies one to sixteen overlays to the flattened device tree BASE, one after the
other, and writes the tree that they make to OUT.
";

/// Applies overlays to a base, one after the other, and writes the tree that they make.
#[derive(Clone, Copy)]
pub struct FdtOverlay;

impl Program for FdtOverlay {
    ghost name = { program_name };

    ghost refuses = { AreRefused };

    ghost words_take_memory = { ⊥ };

    ghost calls_for = { CallsFor };

    ghost promises = { IsPromised };

    fn one_outcome(&self) {
        laws::one_outcome();
    }

    fn asks_nothing(&self) {
        laws::asks_nothing();
    }

    fn program_name(&self) -> &'static str {
        "fdt_overlay"
    }

    fn help(&self) -> Option<&'static str> {
        Some(HELP)
    }

    fn make<F: Files>(
        &self,
        alloc: Global,
        words: &[String],
        files: &mut F,
    ) -> Result<Made, Fault> {
        let Some(asked) = read_words(words) else {
            return Err(Fault::Usage);
        };
        let build = prepare(alloc, &asked, files)?;
        Ok(Made::Built(build))
    }
}
