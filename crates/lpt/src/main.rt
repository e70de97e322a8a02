//! `lpt`: the livepatch transition engine over traces.
#![tactic(auto)]

use std::process::ExitCode;

fn main(rt: HostRuntime) -> ExitCode {
    lp_program::start(&rt, &rt)
}
