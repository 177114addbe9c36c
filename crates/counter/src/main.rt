//! Two CPUs count on one counter, each on a thread of its own, behind a lock of either kind.
#![tactic(auto)]

ghost use Rattle.std.specs.Prelude.{◌≡◌, ◌≤◌, IfSome};
ghost use Rattle.event_log.specs.Log.{steps_of};
ghost use Rattle.counter.specs.Counting.{ok_count};

mod call;
mod counter;
mod counting;
mod judged;

use CounterCall::{Increase, Read};
pub use call::{CounterCall, CounterReply};
pub use counter::{BoundedCounter, MOST_COUNT};
pub use counting::{counts_each_once, stays_within};
use event_log::Logged;
use guarded_cell::{AnyCell, two_callers};
pub use judged::{ReferenceCounter, verdict_on};
use sound_run::LockKind;
use std::alloc::Global;
use std::process::ExitCode;
use std::sync::Wait;
use std::thread::Threads;

/// A new counter for at most 3, once two CPUs have called it behind a lock of that kind; none if memory is refused.
fn counted_by_two<R: Threads + Wait + Sync>(
    rt: &R,
    alloc: Global,
    kind: LockKind,
) -> Option<Logged<BoundedCounter>>
    ensures { IfSome result (λ l. l.params ≡ 3) }
{
    let Ok(counter) = Logged::<BoundedCounter>::open(alloc, 3, 100) else {
        return None;
    };
    let Ok((cell, mut passes)) = AnyCell::open(alloc, kind, counter, 2) else {
        return None;
    };
    let one = passes.pop().unwrap();
    let zero = passes.pop().unwrap();
    let calls = [Increase, Increase, Read];
    let (counter, _, _) = two_callers(rt, cell, (zero, one), &calls, &calls);
    Some(counter)
}

/// How many calls were answered Ok.
fn total_count(counter: &Logged<BoundedCounter>) -> u32
    ensures count { result ≡ ok_count (steps_of counter.now.log) }
    ensures within { result ≤ counter.now.params }
{
    stays_within();
    counts_each_once();
    counter.state().value()
}

fn main(rt: HostRuntime) -> ExitCode {
    for kind in [LockKind::Ticket, LockKind::Mcs] {
        let Some(counter) = counted_by_two(&rt, rt.alloc(), kind) else {
            return ExitCode::FAILURE;
        };
        let (events, total) = (counter.log().len(), total_count(&counter));
        if println!(rt; "{kind:?}: {events} events, {total} counted").is_err() {
            return ExitCode::FAILURE;
        }
    }
    for read in [1, 2] {
        let Ok(verdict) = verdict_on(rt.alloc(), read) else {
            return ExitCode::FAILURE;
        };
        if println!(rt; "1 counted, {read} read: {verdict:?}").is_err() {
            return ExitCode::FAILURE;
        }
    }
    ExitCode::SUCCESS
}
