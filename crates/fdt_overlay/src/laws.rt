// Laws over the definitions. Each is the contract of a function that does nothing.
ghost use Rattle.program.specs.Laws.{IsOneOutcome, AsksNothing, FindsNothing, AuditsNothing};
ghost use Rattle.fdt_overlay.specs.Job.{AreRefused, CallsFor};
ghost use Rattle.fdt_overlay.specs.Laws.{ReportsNothing};

/// The words and the files call for one outcome: a refusal excludes a build, and two refusals have one status and one line.
pub fn one_outcome()
    ensures { IsOneOutcome CallsFor }
{}

/// Words that are refused call for nothing.
pub fn asks_nothing()
    ensures { AsksNothing AreRefused CallsFor }
{}

/// No list is called for.
pub fn finds_nothing()
    ensures { FindsNothing CallsFor }
{}

/// Nothing is audited.
pub fn audits_nothing()
    ensures { AuditsNothing CallsFor }
{}

/// Nothing is reported.
pub fn reports_nothing()
    ensures { ReportsNothing }
{}
