//! A batch of calls, as far as it comes without waiting. Its steps are long, so their replies are written where the calls are done,
//! and only the result is returned.

ghost use Rattle.std.specs.Prelude.{◌≡◌, ◌<◌, ◌≤◌, length};
ghost use Rattle.event_log.specs.declared.event.TheConstants.{MOST_CALLS};
ghost use Rattle.std_alloc.specs.Arc.{arc_value};
ghost use Rattle.guarded_cell.specs.{AnyCallers.{IsCallerOf, state_of_caller}, Kinds.IsHoldOf};
ghost use Rattle.word_rule.specs.Passes.{state_of_hold};
ghost use Rattle.kernel_object.specs.contracts.object.KernelObjectSeqObject.TheImpl.{ghosts};
ghost use Rattle.cell_callers.specs.{KernelCallers.KernelCell, BatchReports.{IsRepliedHeld, ReportsHeldBatch, ReportsBatchedAt, ReportsBatched}};

use crate::Caller;
use crate::batching::Replies;
use crate::report_codes::{AGAIN, DONE, LOG_FULL, REFUSED, count_look, kept_code, steps_code};
use guarded_cell::{AnyCaller, AnyCell};
use kernel_object::{KCall, KernelObject};
use word_rule::{Hold, Polled, PolledCell};

/// Does the calls as one event and writes their replies, unless the log is full.
#[inline(never)]
fn apply_all_held(hold: &mut Hold<KernelObject>, calls: &[KCall], replies: &mut Replies) -> u32
    requires some { 0 < length calls.now }
    requires few { length calls.now ≤ MOST_CALLS }
    ensures of { (cell : KernelCell) → IsHoldOf cell hold.old → IsHoldOf cell hold.new }
    ensures caller { (state_of_hold hold.new).caller ≡ (state_of_hold hold.old).caller }
    ensures applied { IsRepliedHeld calls.now replies.old result replies.new hold.old hold.new }
{
    steps_code(hold.apply(calls), DONE, LOG_FULL, replies)
}

/// Does a batch under the hold, and releases the lock.
fn batch_held(
    cell: &AnyCell<KernelObject>,
    mut hold: Hold<KernelObject>,
    calls: &[KCall],
    replies: &mut Replies,
) -> (AnyCaller<KernelObject>, u32)
    requires hold { IsHoldOf cell.now hold }
    requires some { 0 < length calls.now }
    requires few { length calls.now ≤ MOST_CALLS }
    ensures of { IsCallerOf cell.now result.0 }
    ensures caller { (state_of_caller result.0).caller ≡ (state_of_hold hold).caller }
    ensures reports { ReportsHeldBatch cell.now hold calls.now replies.old result.1 replies.new result.0 }
{
    let reported = apply_all_held(&mut hold, calls, replies);
    match cell.poll_release(hold) {
        (caller, true) => (caller, reported),
        (caller, false) => (caller, kept_code(reported)),
    }
}

/// Does a batch of 1 to 8 calls as one event, as far as this needs no waiting, and returns its result. The replies are written if
/// it was done, and the look is counted.
#[inline(never)]
fn batch(
    cell: &AnyCell<KernelObject>,
    caller: AnyCaller<KernelObject>,
    calls: &[KCall],
    replies: &mut Replies,
    looks: &mut u64,
) -> (AnyCaller<KernelObject>, u32)
    requires caller { IsCallerOf cell.now caller }
    requires some { 0 < length calls.now }
    requires few { length calls.now ≤ MOST_CALLS }
    ensures of { IsCallerOf cell.now result.0 }
    ensures caller { (state_of_caller result.0).caller ≡ (state_of_caller caller).caller }
    ensures reports { ReportsBatchedAt cell.now caller calls.now (replies.old, looks.old) result.1 result.0 (replies.new, looks.new) }
{
    match cell.poll_acquire(caller) {
        Polled::Held(hold, looked) => {
            count_look(looked, looks);
            batch_held(cell, hold, calls, replies)
        }
        Polled::Waits(caller) => {
            count_look(true, looks);
            (caller, AGAIN)
        }
        Polled::Refused(caller) => (caller, REFUSED),
    }
}

/// The same for a caller in its place.
pub fn batch_in_place(
    caller: &mut Caller<KernelObject>,
    calls: &[KCall],
    replies: &mut Replies,
    looks: &mut u64,
) -> u32
    requires some { 0 < length calls.now }
    requires few { length calls.now ≤ MOST_CALLS }
    ensures cell { arc_value caller.new.cell ≡ arc_value caller.old.cell }
    ensures reports { ReportsBatched (arc_value caller.old.cell) calls.now caller.old.place (replies.old, looks.old) result caller.new.place (replies.new, looks.new) }
{
    let (cell, place) = (&*caller.cell, &mut caller.place);
    let (caller, reported) = batch(cell, place.take(cell), calls, replies, looks);
    place.put(cell, caller);
    reported
}
