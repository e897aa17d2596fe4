// Laws over the definitions. Each is the contract of a function that does nothing.
ghost use Rattle.program.specs.Laws.{IsOneOutcome, AsksNothing};
ghost use Rattle.ib_lint.specs.Job.{AreRefused, CallsFor};

/// The words and the files call for one outcome.
pub fn one_outcome()
    ensures { IsOneOutcome CallsFor }
{}

/// Words that are refused call for nothing.
pub fn asks_nothing()
    ensures { AsksNothing AreRefused CallsFor }
{}
