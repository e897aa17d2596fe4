// A case that is run once for each of the first calls of a place outside, which fails.
use crate::case::Case;
use crate::lines::{count, parted};
use crate::reading::read_case;
use crate::shown::show;
use std::io;

/// Runs the case so many times, each time with the next call of this place failing, and shows what each run answers, says
/// and writes.
pub(crate) fn show_failing(
    rt: &(impl Print + std::rt::Files + AllocGlobal),
    name: &str,
    lines: &str,
    value: &str,
    case: &mut Case,
) -> io::Result<()> {
    let (place, calls) = parted(value);
    for call in 0..count(calls) {
        read_case(rt, lines, case)?;
        print!(rt; "-- {name}, {place} {call}")?;
        show_failure(rt, lines, place, call, case)?;
    }
    Ok(())
}

/// Runs the case with this call of this place failing, and shows what the run answers, says and writes.
fn show_failure(
    rt: &(impl Print + AllocGlobal),
    lines: &str,
    place: &str,
    call: u32,
    case: &mut Case,
) -> io::Result<()> {
    case.fail_at(place, call as u64)?;
    let status = case.run(rt.alloc());
    show(rt, lines, status, case)
}
