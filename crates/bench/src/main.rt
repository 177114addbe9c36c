//! Rounds of calls on a queue that several CPUs share, timed inside: `bench KIND[,KIND..] CPUS CALLS ROUNDS [batch|hold] [unkept]`.
#![tactic(auto)]

mod calls;
mod cells;
mod round;
mod words;

use crate::round::print_rounds;
use std::alloc::AllocError;
use std::process::ExitCode;
use thiserror::Error;

/// Why there are no rounds, or no further ones.
#[derive(Debug, Drop, Error)]
pub enum BenchFault {
    #[error("usage: bench KIND[,KIND..] CPUS CALLS ROUNDS [batch|hold] [unkept]")]
    WrongWords,
    #[error("bench: out of memory")]
    OutOfMemory(#[from(alloc)] AllocError),
    /// The other threads of the round have ended.
    #[error("bench: a thread was not started")]
    NoThreadStarted,
    #[error("bench: the clock can't be read")]
    NoClock,
    #[error("bench: write failed")]
    WriteFailed,
}

fn main(rt: HostRuntime) -> ExitCode {
    let Err(fault) = print_rounds(&rt, rt.alloc()) else {
        return ExitCode::SUCCESS;
    };
    let _ = eprintln!(rt; "{fault}");
    match fault {
        BenchFault::WrongWords => ExitCode::from(2),
        _ => ExitCode::FAILURE,
    }
}
