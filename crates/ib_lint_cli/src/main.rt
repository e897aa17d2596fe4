//! The program `ib_lint`, over the real file system and streams.
#![tactic(auto)]

use ib_lint::IbLint;
use real_outside::start_filter;
use std::process::ExitCode;

fn main(rt: HostRuntime) -> ExitCode {
    start_filter(&rt, rt.stdout(), rt.stderr(), &IbLint)
}
