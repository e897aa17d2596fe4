// What is said of configurations and scripts.
ghost use Rattle.std.specs.Prelude.{◌≡◌, ◌++◌, IfOk, OnOk, codes, decimal};
ghost use Rattle.texts.specs.NumberTexts.{hexadecimal};
ghost use Rattle.ib_config.specs.FaultTexts.{fault_text};
ghost use Rattle.run_steps.specs.Messages.{file_message};
ghost use Rattle.script_run.specs.FaultTexts.{at_number, step_name, line_name, step_text, line_text};
ghost use Rattle.build_sources.specs.Scripts.{unused_lines};

use ib_config::ConfigFault;
use run_steps::make_file_message;
use script_run::{LineWhy, ScriptFault, StepFault, StepWhy};
use std::alloc::{AllocError, Global};
use texts::{Bytes, Text};

/// What is said about a file that is no configuration.
pub(crate) fn make_config_message(
    alloc: Global,
    name: &str,
    fault: &ConfigFault,
) -> Result<Bytes, AllocError>
    ensures { IfOk result (λ message. message ≡ file_message name.now (fault_text fault.now)) }
{
    let mut text = Bytes::new(alloc);
    fault.append_text(alloc, &mut text)?;
    make_file_message(alloc, name, text.as_slice())
}

/// What is said about a file that ends past the end of memory, at this address.
pub(crate) fn make_past_end_message(
    alloc: Global,
    name: &str,
    end: u64,
) -> Result<Bytes, AllocError>
    ensures { IfOk result (λ message. message ≡ file_message name.now (codes "PastEnd " ++ hexadecimal end)) }
{
    let mut text = Bytes::new(alloc);
    text.append(b"PastEnd ")?;
    text.append_hexadecimal(alloc, end)?;
    make_file_message(alloc, name, text.as_slice())
}

/// What is said about a tree that leaves no phandle above its highest.
pub(crate) fn make_phandle_message(
    alloc: Global,
    name: &str,
    highest: u32,
) -> Result<Bytes, AllocError>
    ensures { IfOk result (λ message. message ≡ file_message name.now (codes "NoPhandle " ++ decimal highest)) }
{
    let mut text = Bytes::new(alloc);
    text.append(b"NoPhandle ")?;
    text.append_decimal(alloc, highest as u64)?;
    make_file_message(alloc, name, text.as_slice())
}

/// The names of a configuration that have no effect, a line each.
pub(crate) fn make_unused_lines(alloc: Global, names: &[Text]) -> Result<Bytes, AllocError>
    ensures { IfOk result (λ made. made ≡ unused_lines names.now) }
{
    let mut made = Bytes::new(alloc);
    for name in names {
        append_unused(&mut made, name.as_str())?;
    }
    Ok(made)
}

/// Adds the line of a name that has no effect.
fn append_unused(lines: &mut Bytes, name: &str) -> Result<(), AllocError>
    ensures { OnOk result (lines.new ≡ lines.old ++ (codes "unused " ++ (name.now ++ codes "\n"))) }
{
    lines.append(b"unused ")?;
    lines.append(name.as_bytes())?;
    lines.append(b"\n")
}

/// What is said about a script with a bad line.
pub(crate) fn make_line_message(
    alloc: Global,
    name: &str,
    fault: ScriptFault,
) -> Result<Bytes, AllocError>
    ensures { IfOk result (λ message. message ≡ file_message name.now (line_text fault)) }
{
    let text = line_text(alloc, fault)?;
    make_file_message(alloc, name, text.as_slice())
}

/// What is said about a script with a command that cannot be run.
pub(crate) fn make_step_message(
    alloc: Global,
    name: &str,
    fault: StepFault,
) -> Result<Bytes, AllocError>
    ensures { IfOk result (λ message. message ≡ file_message name.now (step_text fault)) }
{
    let text = step_text(alloc, fault)?;
    make_file_message(alloc, name, text.as_slice())
}

/// A bad line, by why and its number.
fn line_text(alloc: Global, fault: ScriptFault) -> Result<Bytes, AllocError>
    ensures { IfOk result (λ text. text ≡ line_text fault) }
{
    match fault {
        ScriptFault::Line(number, why) => at_number(alloc, line_name(why), number),
        ScriptFault::Memory => out_of_memory(alloc),
    }
}

/// A refused command, by why and its number.
fn step_text(alloc: Global, fault: StepFault) -> Result<Bytes, AllocError>
    ensures { IfOk result (λ text. text ≡ step_text fault) }
{
    match fault {
        StepFault::Step(number, why) => at_number(alloc, step_name(why), number),
        StepFault::Memory => out_of_memory(alloc),
    }
}

/// A name, and the number of the line or command.
fn at_number(alloc: Global, name: &str, number: u64) -> Result<Bytes, AllocError>
    ensures { IfOk result (λ text. text ≡ at_number name.now number) }
{
    let mut text = Bytes::new(alloc);
    text.append(name.as_bytes())?;
    text.append(b" at ")?;
    text.append_decimal(alloc, number)?;
    Ok(text)
}

/// The words on want of memory.
fn out_of_memory(alloc: Global) -> Result<Bytes, AllocError>
    ensures { IfOk result (λ text. text ≡ codes "out of memory") }
{
    let mut text = Bytes::new(alloc);
    text.append(b"out of memory")?;
    Ok(text)
}

/// The name of what is wrong with a line.
fn line_name(why: LineWhy) -> &'static str
    ensures { result.now ≡ line_name why }
{
    match why {
        LineWhy::NotPlain => "NotPlain",
        LineWhy::OpenQuote => "OpenQuote",
        LineWhy::BadCommand => "BadCommand",
        LineWhy::BadNumber => "BadNumber",
        LineWhy::BadPath => "BadPath",
    }
}

/// The name of what stops a command.
fn step_name(why: StepWhy) -> &'static str
    ensures { result.now ≡ step_name why }
{
    match why {
        StepWhy::NoNode => "NoNode",
        StepWhy::Exists => "Exists",
        StepWhy::Deep => "Deep",
        StepWhy::NoTree => "NoTree",
    }
}
