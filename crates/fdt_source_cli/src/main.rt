//! The program `fdt_source`, over the real file system and streams.
#![tactic(auto)]

use fdt_source::FdtSource;
use real_outside::start;
use std::process::ExitCode;

fn main(rt: HostRuntime) -> ExitCode {
    start(&rt, rt.stdout(), rt.stderr(), &FdtSource)
}
