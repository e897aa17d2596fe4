// What a run answered, said and wrote.
use crate::case::{Case, OUTPUTS};
use crate::content::{show_bytes, show_content};
use outside::Status;
use std::io;

/// Shows the status of a run, what was said, the report, and the outputs with what lines ask for of them.
pub(crate) fn show(
    rt: &(impl Print + AllocGlobal),
    lines: &str,
    status: Status,
    case: &Case,
) -> io::Result<()> {
    let code = status.code();
    println!(rt; ": status {code}")?;
    show_lines(rt, case.said())?;
    show_report(rt, case.report())?;
    show_outputs(rt, lines, case)
}

/// Shows a report: a text as it is, and other bytes as bytes.
fn show_report(rt: &impl Print, bytes: &[u8]) -> io::Result<()> {
    if str::from_utf8(bytes).is_ok() {
        return show_lines(rt, bytes);
    }
    show_bytes(rt, bytes)
}

/// Shows the outputs with what lines ask for of them.
fn show_outputs(rt: &(impl Print + AllocGlobal), lines: &str, case: &Case) -> io::Result<()> {
    for number in 0..OUTPUTS {
        if let Some((name, bytes)) = case.written(number) {
            show_output(rt, lines, name, bytes)?;
        }
    }
    Ok(())
}

/// Shows an output: its name, its length, and what lines ask for of it.
fn show_output(
    rt: &(impl Print + AllocGlobal),
    lines: &str,
    name: &[u8],
    bytes: &[u8],
) -> io::Result<()> {
    show_text(rt, name)?;
    let length = bytes.len();
    println!(rt; ": {length} bytes")?;
    for line in lines.lines() {
        show_content(rt, line, name, bytes)?;
    }
    Ok(())
}

/// Shows a text, if it is one, and ends its last line.
pub(crate) fn show_lines(rt: &impl Print, bytes: &[u8]) -> io::Result<()> {
    show_text(rt, bytes)?;
    match bytes {
        [.., last] if *last != b'\n' && str::from_utf8(bytes).is_ok() => println!(rt; ""),
        _ => Ok(()),
    }
}

/// Shows a text, if it is one.
fn show_text(rt: &impl Print, bytes: &[u8]) -> io::Result<()> {
    match str::from_utf8(bytes) {
        Ok(text) => print!(rt; "{text}"),
        Err(_) => Ok(()),
    }
}
