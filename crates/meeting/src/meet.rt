//! Two CPUs and their calls on one queue: with room for all calls none is refused.

ghost use Rattle.std.specs.Prelude.{◌≡◌, ◌≤◌, ◌+◌, IfSome, length, take};
ghost use Rattle.word_rule.specs.Cell.{first_pass};
ghost use Rattle.guarded_cell.specs.Calls.{IsEnded};

use event_log::{Logged, SeqObject};
use guarded_cell::{AnyCell, two_callers};
use shared_queue::{QueueCall as Call, ThreadQueue};
use sound_run::LockKind;
use std::alloc::Global;
use std::sync::Wait;
use std::thread::Threads;

/// The queue that two CPUs leave, and how many calls each has done.
type Left = (Logged<ThreadQueue>, usize, usize);

/// Two CPUs do their calls on the queue, each on a thread of its own, behind a lock of that kind. The log grows by an event for
/// each call that was done. Those are all calls if there is room for them, as in a log that isn't kept. None if memory is refused.
pub fn meet<R: Threads + Wait + Sync>(
    rt: &R,
    alloc: Global,
    kind: LockKind,
    queue: Logged<ThreadQueue>,
    puts: &[Call],
    takes: &[Call],
) -> Option<Left>
    ensures ended { IfSome result (λ l. IsEnded ⟦<ThreadQueue as SeqObject>⟧
        (first_pass kind 0 queue 2 0) (take l.1 puts.now)
        (first_pass kind 0 queue 2 1) (take l.2 takes.now) l.0) }
    ensures counted { IfSome result (λ l. length l.0.log ≡ length queue.log + (l.1 + l.2)) }
    ensures room { length queue.log + (length puts.now + length takes.now) ≤ queue.limit
        → IfSome result (λ l. (l.1 ≡ length puts.now) × (l.2 ≡ length takes.now)) }
{
    let Ok((cell, mut passes)) = AnyCell::open(alloc, kind, queue, 2) else {
        return None;
    };
    let one = passes.pop().unwrap();
    let zero = passes.pop().unwrap();
    let left = two_callers(rt, cell, (zero, one), puts, takes);
    Some(left)
}
