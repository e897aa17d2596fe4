// The program.
ghost use Rattle.guest_load.specs.Job.{AreRefused, CallsFor};
ghost use Rattle.guest_load.specs.Lines.{program_name};
ghost use Rattle.guest_load.specs.Promises.{IsLoaded};

use crate::laws;
use crate::prepare::prepare;
use crate::words::read_words;
use outside::Files;
use program::{Fault, Made, Program};
use std::alloc::Global;

/// What is shown for the word `--help`.
const HELP: &str = "usage: guest_load TREE KERNEL OUT [RAMDISK]
       guest_load --help | --version

Says where a guest's kernel, ramdisk and device tree lie in its memory, and writes
the tree that it is started with to OUT.
";

/// Says where a guest's parts lie, and writes the tree that it is started with.
#[derive(Clone, Copy)]
pub struct GuestLoad;

impl Program for GuestLoad {
    ghost name = { program_name };

    ghost refuses = { AreRefused };

    ghost words_take_memory = { ⊥ };

    ghost calls_for = { CallsFor };

    ghost promises = { IsLoaded };

    fn one_outcome(&self) {
        laws::one_outcome();
    }

    fn asks_nothing(&self) {
        laws::asks_nothing();
    }

    fn program_name(&self) -> &'static str {
        "guest_load"
    }

    fn help(&self) -> Option<&'static str> {
        Some(HELP)
    }

    fn make<F: Files>(
        &self,
        alloc: Global,
        words: &[String],
        files: &mut F,
    ) -> Result<Made, Fault> {
        let Some(asked) = read_words(words) else {
            return Err(Fault::Usage);
        };
        let build = prepare(alloc, &asked, files)?;
        Ok(Made::Built(build))
    }
}
