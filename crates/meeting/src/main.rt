//! Two CPUs call one queue of threads, each on a thread of its own: behind an MCS lock, and then behind a ticket lock with a log
//! that is kept no longer.
#![tactic(auto)]

mod meet;

use crate::meet::meet;
use event_log::Logged;
use shared_queue::{QueueCall as Call, ThreadQueue};
use sound_run::LockKind;
use std::process::ExitCode;

const PUTS: [Call; 2] = [Call::Enq(3), Call::Enq(4)];

const TAKES: [Call; 1] = [Call::Deq];

fn main(rt: HostRuntime) -> ExitCode {
    let Ok(queue) = Logged::<ThreadQueue>::open(rt.alloc(), 8, 100) else {
        return ExitCode::FAILURE;
    };
    let Some((queue, put, taken)) = meet(&rt, rt.alloc(), LockKind::Mcs, queue, &PUTS, &TAKES)
    else {
        return ExitCode::FAILURE;
    };
    let first = println!(rt; "{put} and {taken} calls, {} events", queue.log().len());
    let queue = queue.into_unkept(rt.alloc());
    let Some((_, put, taken)) = meet(&rt, rt.alloc(), LockKind::Ticket, queue, &PUTS, &TAKES) else {
        return ExitCode::FAILURE;
    };
    match (first, println!(rt; "{put} and {taken} calls more")) {
        (Ok(()), Ok(())) => ExitCode::SUCCESS,
        _ => ExitCode::FAILURE,
    }
}
