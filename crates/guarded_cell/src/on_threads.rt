//! From an object to an object: any number of callers of one new cell, each on a thread of its own.

ghost use Rattle.std.specs.Prelude.{◌≡◌, ◌<◌, ◌≤◌, IfOk, IfErr, length, map};
ghost use Rattle.sound_run.specs.declared.limits.TheConstants.{MOST_CPUS};
ghost use Rattle.word_rule.specs.Cell.{cell_of};
ghost use Rattle.guarded_cell.specs.ManyCallers.{AreCarriedOut, HasOrderedRun};

use crate::cell::AnyCell;
use crate::many_callers::call_each;
use event_log::{Logged, OutOfMemory, SeqObject};
use sound_run::{LockKind, MOST_CPUS};
use std::alloc::Global;
use std::sync::Wait;
use std::thread::Threads;
use word_rule::LockCell;

/// Opens a cell around the object with a lock of that kind, lets 1 to 64 callers do their calls, each on a thread of its own, and
/// closes the cell. `scripts` has the calls of each caller. Returns the object, and how many calls each caller has done: all of
/// them, unless the log is full. Without memory the object is returned unchanged.
pub fn callers_on_threads<O: SeqObject + Send, R: Threads + Wait + Sync>(
    rt: &R,
    alloc: Global,
    kind: LockKind,
    object: Logged<O>,
    scripts: &[Vec<O::Call>],
) -> Result<(Logged<O>, Vec<usize>), (OutOfMemory, Logged<O>)>
where
    O::Params: Send,
    O::Call: Send + Sync,
    O::Reply: Send,
    requires some { 0 < length scripts.now }
    requires few { length scripts.now ≤ MOST_CPUS }
    ensures carried_out { IfOk result (λ r. AreCarriedOut O.SeqObject (cell_of kind 0 (length scripts.now) object)
        (map (λ s. s.items) scripts.now) r.1.items r.0) }
    ensures ordered { IfOk result (λ r. HasOrderedRun O.SeqObject (cell_of kind 0 (length scripts.now) object)
        (map (λ s. s.items) scripts.now) r.1.items r.0.log) }
    ensures unchanged { IfErr result (λ e. e.1 ≡ object) }
{
    let cpus = scripts.len();
    let Ok(done) = Vec::with_capacity(alloc, cpus) else {
        return Err((OutOfMemory, object));
    };
    let (cell, passes) = AnyCell::open(alloc, kind, object, cpus as u8)?;
    let (pass, done) = call_each(rt, &cell, passes, scripts, done);
    Ok((cell.close(pass), done))
}
