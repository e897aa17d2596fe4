// Laws of the scripts that are written for a configuration. Each is the contract of a function that does nothing.
ghost use Rattle.script_run.specs.Laws.{NamesAreTaken, ReadsBack, ScriptEdits};

/// The printed script of each configuration whose files are placed is read back as that script.
pub fn printed_is_parsed()
    ensures { ReadsBack }
{}

/// The names of nodes and properties in the script of each configuration whose files are placed are such as a tree takes,
/// which `run` asks.
pub fn names_are_taken()
    ensures { NamesAreTaken }
{}

/// The script of each configuration whose files are placed makes of the host's device tree the edited tree. Where `/chosen`
/// already has a child that is to be added, it stops with `Exists` at the first command that adds one.
pub fn script_edits_the_tree()
    ensures { ScriptEdits }
{}
