//! Runs of `dom0less`, `guest_load`, `fdt_overlay` and `fdt_source` in memory, described as data: the file `cases` names
//! them, one a line, and each is a file of its own, whose lines say the words, the files that are held and the calls that
//! fail. What each run answers, says and writes is shown. The trees in the folder `trees` that have a source beside them
//! are its canonical spelling.
#![tactic(auto)]

mod audits;
mod case;
mod content;
mod cuts;
mod example;
mod failing;
mod images;
mod lines;
mod reading;
mod shown;
mod trees;
mod ways;

use crate::case::Case;
use crate::ways::show_way;
use std::{fs, io};

/// Runs the case of this name and shows what came of it.
fn show_case(rt: &(impl Print + std::rt::Files + AllocGlobal), name: &str) -> io::Result<()> {
    let text = fs::read_to_string(rt, name)?;
    let mut case = Case::new(rt.alloc());
    show_way(rt, name, text.as_str(), &mut case)
}

fn main(rt: HostRuntime) -> io::Result<()> {
    let names = fs::read_to_string(&rt, "cases")?;
    for name in names.lines() {
        show_case(&rt, name)?;
    }
    Ok(())
}
