//! The program `dom0less`, over the real file system and streams.
#![tactic(auto)]

use dom0less::Dom0less;
use real_outside::start;
use std::process::ExitCode;

fn main(rt: HostRuntime) -> ExitCode {
    start(&rt, rt.stdout(), rt.stderr(), &Dom0less)
}
