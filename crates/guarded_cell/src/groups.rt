//! Groups of calls under one hold.

ghost use Rattle.std.specs.{Prelude.{◌≡◌, ◌<◌, ◌≤◌, ◌↔◌, [], length, IsErr, IfOk, OnOk, OnErr}, List.All};
ghost use Rattle.event_log.specs.Log.{Fulfils};
ghost use Rattle.word_rule.specs.{Answered.FulfilFirst, Cell.after_steps};
ghost use Rattle.guarded_cell.specs.Groups.{HasAdded};

use arrayvec::ArrayVec;
use event_log::{MOST_CALLS, NoRoom, SeqObject, Steps};
use word_rule::LockCell;

/// The most groups of calls under one hold.
pub const MOST_GROUPS: usize = 8;

/// Does a group as one event, as `apply` does. The event of a single call is written where it stays.
#[inline]
fn do_group<O: SeqObject, C: LockCell<O>>(
    hold: &mut C::Hold,
    calls: &[O::Call],
) -> Result<Steps<O>, NoRoom>
    requires some { 0 < length calls.now }
    requires few { length calls.now ≤ MOST_CALLS }
    ensures hold { (cell : C) → C.is_hold_of cell hold.old → C.is_hold_of cell hold.new }
    ensures caller { (C.hold_view hold.new).caller ≡ (C.hold_view hold.old).caller }
    ensures run { C.hold_run hold.new ≡ C.hold_run hold.old }
    ensures room { IsErr result ↔ (length (C.hold_view hold.old).history.log ≡ (C.hold_view hold.old).history.limit) }
    ensures asked { IfOk result (λ s. Fulfils O.SeqObject calls.now s.list.items) }
    ensures after { IfOk result (λ s. (C.hold_view hold.new).history ≡ after_steps O.SeqObject (C.hold_view hold.old) s) }
    ensures full { OnErr result (C.hold_view hold.new ≡ C.hold_view hold.old) }
{
    if calls.len() != 1 {
        return C::apply(hold, calls);
    }
    let call = calls[0];
    let reply = C::apply_one(hold, &call)?;
    Ok(Steps::one(call, reply))
}

/// Does the groups, one event for each, up to the first without room.
pub(crate) fn do_groups<O: SeqObject, C: LockCell<O>>(
    hold: &mut C::Hold,
    groups: &[ArrayVec<O::Call, MOST_CALLS>],
    done: &mut ArrayVec<Steps<O>, MOST_GROUPS>,
) -> Result<(), NoRoom>
    requires few { length groups.now ≤ MOST_GROUPS }
    requires each { All (λ g. 0 < length g.items) groups.now }
    requires empty { done.old.items ≡ [] }
    ensures hold { (cell : C) → C.is_hold_of cell hold.old → C.is_hold_of cell hold.new }
    ensures run { C.hold_run hold.new ≡ C.hold_run hold.old }
    ensures added { HasAdded (C.hold_view hold.old) done.new.items (C.hold_view hold.new) }
    ensures fulfils { FulfilFirst O.SeqObject groups.now done.new.items }
    ensures whole { OnOk result (length done.new.items ≡ length groups.now) }
    ensures left { OnErr result (length done.new.items < length groups.now) }
    ensures full { OnErr result (length (C.hold_view hold.new).history.log ≡ (C.hold_view hold.new).history.limit) }
{
    for calls in groups {
        let steps = do_group::<O, C>(hold, calls.as_slice())?;
        done.push(steps);
    }
    Ok(())
}
