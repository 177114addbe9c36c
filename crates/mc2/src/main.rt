//! The program `mc2`, whose work `mc2_command` does.
#![tactic(auto)]

use mc2_command::{CommandFault, command, refuse};
use program::start;
use std::process::ExitCode;

fn main(rt: HostRuntime) -> ExitCode {
    let status = start(
        &rt,
        (rt.stdout(), rt.stderr()),
        |words, inputs, out, faults| command(&rt, rt.alloc(), words, inputs, out, faults),
        |refusal, faults| refuse(&CommandFault::from(refusal), faults),
    );
    ExitCode::from(status)
}
