//! The program: what the step machine does by a schedule, step by step, and the words of the lock behind each step.
#![tactic(auto)]

mod answer;
mod arguments;
mod command;
mod form;
mod line;
mod lines;
mod words_law;

use crate::command::{command, refuse};
use program::start;
use std::process::ExitCode;

fn main(rt: HostRuntime) -> ExitCode {
    let status = start(
        &rt,
        (rt.stdout(), rt.stderr()),
        |words, inputs, out, faults| command(rt.alloc(), words, inputs, out, faults),
        |refusal, faults| refuse(refusal, faults),
    );
    ExitCode::from(status)
}
