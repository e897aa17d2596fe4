//! The program `ib_config_show`, over the real file system and streams.
#![tactic(auto)]

use ib_config_show::IbConfigShow;
use real_outside::start_filter;
use std::process::ExitCode;

fn main(rt: HostRuntime) -> ExitCode {
    start_filter(&rt, rt.stdout(), rt.stderr(), &IbConfigShow)
}
