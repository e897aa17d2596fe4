//! The program `fdt_overlay`, over the real file system and streams.
#![tactic(auto)]

use fdt_overlay::FdtOverlay;
use real_outside::start;
use std::process::ExitCode;

fn main(rt: HostRuntime) -> ExitCode {
    start(&rt, rt.stdout(), rt.stderr(), &FdtOverlay)
}
