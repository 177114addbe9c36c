//! Any number of callers of one cell, each on a thread of its own.

ghost use Rattle.std.specs.{Prelude.{◌≡◌, ◌<◌, ◌≤◌, [], length, map, vec_len, vec_capacity}, Thread.IsSync};
ghost use Rattle.word_rule.specs.Cell.{EachAt};
ghost use Rattle.guarded_cell.specs.{Calls.HasDoneCalls, Held.HasHeldFor, ManyCallers.{AllHaveJoined}};

use crate::callers::call_all;
use event_log::SeqObject;
use std::sync::Wait;
use std::thread;
use std::thread::Threads;
use word_rule::LockCell;

/// Lets the callers do their calls, the last one on this thread and each of the others on a new one, and joins their passes. If no
/// thread can be made, this thread does the calls one caller after another. Returns the joined pass, and how many calls each caller has
/// done. `done` has room for these counts.
pub fn call_each<O: SeqObject + Send, C: LockCell<O> + Sync, R: Threads + Wait + Sync>(
    rt: &R,
    cell: &C,
    passes: Vec<C::Pass>,
    scripts: &[Vec<O::Call>],
    done: Vec<usize>,
) -> (C::Pass, Vec<usize>)
where
    O::Params: Send,
    O::Call: Send + Sync,
    O::Reply: Send,
    C::Pass: Send,
    requires some { 0 < vec_len passes }
    requires each { EachAt (λ _ p. C.is_pass_of cell.now p) passes.items }
    requires scripts { vec_len passes ≤ length scripts.now }
    requires room { (done.items ≡ []) × (vec_len passes ≤ vec_capacity done) }
    ensures pass { C.is_pass_of cell.now result.0 }
    ensures joined { AllHaveJoined O.SeqObject C.pass_view C.pass_run passes.items (map (λ s. s.items) scripts.now)
        result.1.items result.0 }
    ensures room { vec_capacity result.1 ≡ vec_capacity done }
{
    let mut passes = passes;
    let mut done = done;
    let pass = passes.pop().unwrap();
    let at = passes.len();
    let calls = scripts[at].as_slice();
    if at == 0 {
        let (pass, count) = call_all(rt, cell, pass, calls);
        done.push_reserved(count);
        return (pass, done);
    }
    let ((others, counts), (pass, count)) = thread::join(
        rt,
        move || -> (C::Pass, Vec<usize>)
            requires shares { IsSync R.row }
            requires some { 0 < vec_len passes }
            requires each { EachAt (λ _ p. C.is_pass_of cell.now p) passes.items }
            requires scripts { vec_len passes ≤ length scripts.now }
            requires room { (done.items ≡ []) × (vec_len passes ≤ vec_capacity done) }
            ensures pass { C.is_pass_of cell.entry.now result.0 }
            ensures joined { AllHaveJoined O.SeqObject C.pass_view C.pass_run passes.items (map (λ s. s.items) scripts.entry.now)
                result.1.items result.0 }
            ensures room { vec_capacity result.1 ≡ vec_capacity done }
        { call_each(rt, cell, passes, scripts, done) },
        move || -> (C::Pass, usize)
            requires pass { C.is_pass_of cell.now pass }
            ensures pass { C.is_pass_of cell.entry.now result.0 }
            ensures done { HasDoneCalls (C.pass_view pass) calls.entry.now result.1 (C.pass_view result.0) }
            ensures run { HasHeldFor O.SeqObject (C.pass_view pass).caller (C.pass_run pass) calls.entry.now result.1
                (C.pass_run result.0) }
        { call_all(rt, cell, pass, calls) },
    );
    let mut counts = counts;
    counts.push_reserved(count);
    (cell.join(others, pass), counts)
}
