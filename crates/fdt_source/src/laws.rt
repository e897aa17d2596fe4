// Laws over the definitions. Each is the contract of a function that does nothing.
ghost use Rattle.program.specs.Laws.{IsOneOutcome, AsksNothing, FindsNothing, AuditsNothing};
ghost use Rattle.fdt_source.specs.Job.{AreRefused, CallsFor};

pub use source_text::laws::{one_source, printed_is_read};

/// The words and the files call for one outcome: a refusal excludes a build, and two refusals have one status and one line.
pub fn one_outcome()
    ensures { IsOneOutcome CallsFor }
{}

/// Words that are refused call for nothing.
pub fn asks_nothing()
    ensures { AsksNothing AreRefused CallsFor }
{}

/// No list is called for.
pub fn finds_nothing()
    ensures { FindsNothing CallsFor }
{}

/// Nothing is audited.
pub fn audits_nothing()
    ensures { AuditsNothing CallsFor }
{}
