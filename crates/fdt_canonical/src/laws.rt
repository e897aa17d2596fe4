// Laws over the definitions. Each is the contract of a function that does nothing.
ghost use Rattle.program.specs.Laws.{IsOneOutcome, AsksNothing, FindsNothing};
ghost use Rattle.fdt_canonical.specs.Job.{AreRefused, CallsFor};

/// The words and the files call for one outcome.
pub fn one_outcome()
    ensures { IsOneOutcome CallsFor }
{}

/// Words that are refused call for nothing.
pub fn asks_nothing()
    ensures { AsksNothing AreRefused CallsFor }
{}

/// No list is called for.
pub fn finds_nothing()
    ensures { FindsNothing CallsFor }
{}
