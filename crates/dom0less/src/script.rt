// The boot script of a configuration, alone.
ghost use Rattle.std.specs.Prelude.{◌≡◌, IfErr, IfOk};
ghost use Rattle.std.specs.Option.{option_copied};
ghost use Rattle.dom0less_words.specs.Meant.{meant_script};
ghost use Rattle.run_steps.specs.Outputs.{files_of, report_of};
ghost use Rattle.run_steps.specs.PrivateOutcomes.{outcome_of};
ghost use Rattle.run_steps.specs.Stops.{StopsFor};
ghost use Rattle.build_sources.specs.Meant.{meant_made};
ghost use Rattle.dom0less.specs.Job.{IsScriptJob, IsScriptWriting};
ghost use Rattle.dom0less.specs.Promises.{IsScripted};

use build_sources::{Made, make_script};
use dom0less_words::ScriptAsked;
use outside::Files;
use run_steps::{Build, Stop};
use std::alloc::{AllocError, Global};
use texts::List;

/// What is written for a configuration whose boot script alone is asked for.
pub(crate) fn prepare_script<F: Files>(
    alloc: Global,
    ask: &ScriptAsked<'_>,
    files: &mut F,
) -> Result<Build, Stop>
    ensures built { IfOk result (λ build. IsScriptJob (F.held files.old) (meant_script ask.now) (outcome_of build)) }
    ensures promised { IfOk result (λ build. IsScripted (F.held files.old) (meant_script ask.now) (files_of build) (report_of build)) }
    ensures stopped { IfErr result (StopsFor F.counts files.old files.new (IsScriptJob (F.held files.old) (meant_script ask.now))) }
    ensures kept { F.held files.new ≡ F.held files.old }
{
    let made = make_script(alloc, ask.config, ask.files, ask.kind, files)?;
    Ok(write_script(alloc, ask.outputs, &made)?)
}

/// The script as the one output, and the names that have no effect as the report.
fn write_script(alloc: Global, folder: Option<&str>, made: &Made) -> Result<Build, AllocError>
    ensures { IfOk result (λ build. IsScriptWriting (option_copied folder.entry) (meant_made made.now) (outcome_of build)) }
{
    let mut outputs = List::new(alloc);
    outputs.push(made.script_output(alloc, folder)?)?;
    let unused = made.unused_lines(alloc)?;
    Ok(Build {
        outputs,
        report: Some(unused),
    })
}
