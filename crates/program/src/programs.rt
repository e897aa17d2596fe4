// What a program owes to be run.
ghost use Rattle.std.specs.Prelude.{◌≡◌, ℕ, List, Option, IfOk, IfErr, map, string_bytes};
ghost use Rattle.outside.specs.Outside.{File};
ghost use Rattle.run_steps.specs.Endings.{Outcome};
ghost use Rattle.program.specs.Laws.{IsOneOutcome, AsksNothing};
ghost use Rattle.program.specs.Made.{outcome_of, IsPromised};
ghost use Rattle.program.specs.Programs.{IsFault, IsRefusal};

use crate::{Fault, Made};
use outside::Files;
use std::alloc::Global;

/// A program: what its words and the files call for, and the making of it.
pub trait Program {
    /// Its name, with which each of its lines begins.
    ghost name: { List ℕ };

    /// The words are refused, and this text is said.
    ghost refuses: { List (List ℕ) → List ℕ → Type 0 };

    /// Reading the words may take memory, so that a run over words that are refused may end for want of it.
    ghost words_take_memory: { Type 0 };

    /// What the words and the files call for.
    ghost calls_for: { List (List ℕ) → Option (List File) → Outcome → Type 0 };

    /// What status 0 promises of the outputs and the report, in the program's own terms.
    ghost promises: { List (List ℕ) → Option (List File) → List File → List ℕ → Type 0 };

    /// The words and the files call for one outcome. It does nothing.
    fn one_outcome(&self)
        ensures { IsOneOutcome calls_for };

    /// Words that are refused call for nothing. It does nothing.
    fn asks_nothing(&self)
        ensures { AsksNothing refuses calls_for };

    /// Its name.
    fn program_name(&self) -> &'static str
        ensures { result.now ≡ name };

    /// What is shown for the word `--help`, with a line feed behind each line; none where the program answers that word itself.
    fn help(&self) -> Option<&'static str>;

    /// Reads the words and the files, and makes all that is to be written.
    fn make<F: Files>(&self, alloc: Global, words: &[String], files: &mut F) -> Result<Made, Fault>
        ensures built { IfOk result (λ made. calls_for (map string_bytes words.now) (F.held files.old) (outcome_of made)) }
        ensures promised { IfOk result (IsPromised (promises (map string_bytes words.now) (F.held files.old))) }
        ensures stopped { IfErr result (λ fault. IsFault name (refuses (map string_bytes words.now)) (calls_for (map string_bytes words.now) (F.held files.old)) (F.counts files.old) (F.counts files.new) fault) }
        ensures unasked { (text : _) → refuses (map string_bytes words.now) text → IfErr result (IsRefusal words_take_memory) × IfOk result (λ _. ⊥) }
        ensures kept { F.held files.new ≡ F.held files.old };
}
