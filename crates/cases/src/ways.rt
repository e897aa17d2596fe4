// The ways in which a case is run. Without a line with one of these words it is run once:
//
//     each PLACE COUNT  the run is made so many times, and the next call of this place fails each time
//     cut NAME          the run is made for the first lines of this file, with one more each time
//     trim NAME COUNT   the run is made so many times, and this file has one byte less at its end each time
//     audit outputs     the run is made again, with the word `--check`, over what it wrote
//     example TEXT      the worked example makes the run, with these two words behind the name of `dom0less`
use crate::audits::audit;
use crate::case::Case;
use crate::cuts::{Cutting, show_cuts};
use crate::failing::show_failing;
use crate::lines::{count, parted};
use crate::reading::read_case;
use crate::shown::show;
use outside::Status;
use std::alloc::{AllocError, Global};
use std::io;

/// How a case is run.
#[derive(Clone, Copy)]
enum Way {
    Once,
    Each,
    Cut,
    Trim,
    Audit,
    Example,
}

/// The way of a word.
fn way_of(word: &str) -> Way {
    match word {
        "each" => Way::Each,
        "cut" => Way::Cut,
        "trim" => Way::Trim,
        "audit" => Way::Audit,
        "example" => Way::Example,
        _ => Way::Once,
    }
}

/// The first way that lines say, and what belongs to it.
fn way_in(lines: &str) -> (Way, &str) {
    for line in lines.lines() {
        let (word, value) = parted(line);
        match way_of(word) {
            Way::Once => {}
            way => return (way, value),
        }
    }
    (Way::Once, "")
}

/// Runs the case of this name and of these lines in its way, and shows what came of it.
pub(crate) fn show_way(
    rt: &(impl Print + std::rt::Files + AllocGlobal),
    name: &str,
    lines: &str,
    case: &mut Case,
) -> io::Result<()> {
    read_case(rt, lines, case)?;
    let (way, value) = way_in(lines);
    match way {
        Way::Each => show_failing(rt, name, lines, value, case),
        Way::Cut => show_cuts(rt, name, value, Cutting::Lines, case),
        Way::Trim => {
            let (file, bytes) = parted(value);
            show_cuts(rt, name, file, Cutting::Bytes(count(bytes)), case)
        }
        _ => {
            print!(rt; "-- {name}")?;
            let status = answer(rt.alloc(), way, lines, value, case)?;
            show(rt, lines, status, case)
        }
    }
}

/// What the case answers that is shown once.
fn answer(
    alloc: Global,
    way: Way,
    lines: &str,
    value: &str,
    case: &mut Case,
) -> Result<Status, AllocError> {
    match way {
        Way::Audit => audit(alloc, lines, case),
        Way::Example => {
            let (option, file) = parted(value);
            case.run_example(alloc, option, file)
        }
        _ => Ok(case.run(alloc)),
    }
}
