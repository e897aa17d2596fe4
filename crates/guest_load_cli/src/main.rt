//! The program `guest_load`, over the real file system and streams.
#![tactic(auto)]

use guest_load::GuestLoad;
use real_outside::start;
use std::process::ExitCode;

fn main(rt: HostRuntime) -> ExitCode {
    start(&rt, rt.stdout(), rt.stderr(), &GuestLoad)
}
