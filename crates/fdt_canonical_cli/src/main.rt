//! The program `fdt_canonical`, over the real file system and streams.
#![tactic(auto)]

use fdt_canonical::FdtCanonical;
use real_outside::start_filter;
use std::process::ExitCode;

fn main(rt: HostRuntime) -> ExitCode {
    start_filter(&rt, rt.stdout(), rt.stderr(), &FdtCanonical)
}
