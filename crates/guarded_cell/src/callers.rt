//! Callers that do lists of calls, and end their cell: what they leave in the log, whatever order their calls come in.

ghost use Rattle.std.specs.Prelude.{◌≡◌, ◌<◌, ◌≤◌, length, take};
ghost use Rattle.word_rule.specs.Cell.{OwnTogether};
ghost use Rattle.guarded_cell.specs.{Calls.{HasDoneCalls, IsEnded}, Held.{EndedInOrder, HasHeldFor, holds_of}};

use crate::whole::call;
use event_log::{Logged, NoRoom, SeqObject};
use std::sync::Wait;
use std::thread;
use std::thread::Threads;
use word_rule::LockCell;

/// Does the calls one after another, each as one event, up to the first without room. The number is that of the calls
/// that were done. Other callers may do theirs at the same time.
pub fn call_all<O: SeqObject, C: LockCell<O>, R: Wait>(
    rt: &R,
    cell: &C,
    pass: C::Pass,
    calls: &[O::Call],
) -> (C::Pass, usize)
    requires { C.is_pass_of cell.now pass }
    ensures pass { C.is_pass_of cell.now result.0 }
    ensures done { HasDoneCalls (C.pass_view pass) calls.now result.1 (C.pass_view result.0) }
    ensures run { HasHeldFor O.SeqObject (C.pass_view pass).caller (C.pass_run pass) calls.now result.1 (C.pass_run result.0) }
{
    let mut pass = pass;
    let mut done = 0;
    for asked in calls {
        let (back, reply, _looks) = call(rt, cell, pass, asked);
        pass = back;
        match reply {
            Ok(_) => done += 1,
            Err(NoRoom) => return (pass, done),
        }
    }
    (pass, done)
}

/// Two callers do their calls, the second on this thread, the first on a new one, or after the second where none can be
/// made. The numbers are those of the calls that each has done.
pub fn call_on_two_threads<O: SeqObject + Send, C: LockCell<O> + Sync, R: Threads + Wait + Sync>(
    rt: &R,
    cell: &C,
    passes: (C::Pass, C::Pass),
    first_calls: &[O::Call],
    second_calls: &[O::Call],
) -> ((C::Pass, usize), (C::Pass, usize))
where
    O::Params: Send,
    O::Call: Send + Sync,
    O::Reply: Send,
    C::Pass: Send,
    requires first { C.is_pass_of cell.now passes.0 }
    requires second { C.is_pass_of cell.now passes.1 }
    ensures passes { C.is_pass_of cell.now result.0.0 × C.is_pass_of cell.now result.1.0 }
    ensures first { HasDoneCalls (C.pass_view passes.0) first_calls.now result.0.1 (C.pass_view result.0.0) }
    ensures second { HasDoneCalls (C.pass_view passes.1) second_calls.now result.1.1 (C.pass_view result.1.0) }
    ensures first_run { HasHeldFor O.SeqObject (C.pass_view passes.0).caller (C.pass_run passes.0) first_calls.now result.0.1 (C.pass_run result.0.0) }
    ensures second_run { HasHeldFor O.SeqObject (C.pass_view passes.1).caller (C.pass_run passes.1) second_calls.now result.1.1 (C.pass_run result.1.0) }
{
    let (first, second) = passes;
    thread::join(
        rt,
        move || -> (C::Pass, usize)
            requires pass { C.is_pass_of cell.now first }
            ensures pass { C.is_pass_of cell.entry.now result.0 }
            ensures done { HasDoneCalls (C.pass_view first) first_calls.entry.now result.1 (C.pass_view result.0) }
            ensures run { HasHeldFor O.SeqObject (C.pass_view first).caller (C.pass_run first) first_calls.entry.now result.1 (C.pass_run result.0) }
        { call_all(rt, cell, first, first_calls) },
        move || -> (C::Pass, usize)
            requires pass { C.is_pass_of cell.now second }
            ensures pass { C.is_pass_of cell.entry.now result.0 }
            ensures done { HasDoneCalls (C.pass_view second) second_calls.entry.now result.1 (C.pass_view result.0) }
            ensures run { HasHeldFor O.SeqObject (C.pass_view second).caller (C.pass_run second) second_calls.entry.now result.1 (C.pass_run result.0) }
        { call_all(rt, cell, second, second_calls) },
    )
}

/// Two callers, who own every number of the cell together, do their calls on two threads, meet, become one and end the
/// cell. The numbers are those of the calls that each has done: all, unless the log is full. The holds of all calls have ended in
/// the order in which the callers arrived in line.
pub fn two_callers<O: SeqObject + Send, C: LockCell<O> + Sync, R: Threads + Wait + Sync>(
    rt: &R,
    cell: C,
    passes: (C::Pass, C::Pass),
    first_calls: &[O::Call],
    second_calls: &[O::Call],
) -> (Logged<O>, usize, usize)
where
    O::Params: Send,
    O::Call: Send + Sync,
    O::Reply: Send,
    C::Pass: Send,
    requires first { C.is_pass_of cell passes.0 }
    requires second { C.is_pass_of cell passes.1 }
    requires all { OwnTogether (C.pass_view passes.0).caller (C.pass_view passes.1).caller }
    ensures ended { IsEnded O.SeqObject (C.pass_view passes.0) (take result.1 first_calls.now)
        (C.pass_view passes.1) (take result.2 second_calls.now) result.0 }
    ensures counts { (result.1 ≤ length first_calls.now) × (result.2 ≤ length second_calls.now) }
    ensures first_full { result.1 < length first_calls.now → length result.0.log ≡ result.0.limit }
    ensures second_full { result.2 < length second_calls.now → length result.0.log ≡ result.0.limit }
    ensures order_run { EndedInOrder O.SeqObject result.0.log
        (C.pass_view passes.0).caller (C.pass_run passes.0) (holds_of first_calls.now result.1)
        (C.pass_view passes.1).caller (C.pass_run passes.1) (holds_of second_calls.now result.2) }
{
    let ((first, first_done), (second, second_done)) = call_on_two_threads(
        rt,
        &cell,
        passes,
        first_calls,
        second_calls,
    );
    let (first, second) = cell.meet(first, second);
    let pass = cell.join(first, second);
    (cell.close(pass), first_done, second_done)
}
