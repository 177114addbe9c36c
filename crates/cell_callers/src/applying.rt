//! Calls by a caller that holds the lock, and tries.

ghost use Rattle.std.specs.Prelude.{◌≡◌};
ghost use Rattle.guarded_cell.specs.{AnyCallers.{IsCallerOf, state_of_caller}, Kinds.IsHoldOf};
ghost use Rattle.word_rule.specs.Passes.{state_of_hold};
ghost use Rattle.cell_callers.specs.{Applies.IsHeldApply, Wholes.{IsApplied, IsTriedBy}};

use event_log::{NoRoom, SeqObject};
use guarded_cell::{AnyCaller, AnyCell};
use word_rule::{Hold, PolledCell, Tried};

/// Does the call as one event, unless the log is full.
#[inline]
pub fn apply_held<O: SeqObject>(hold: &mut Hold<O>, asked: &O::Call) -> Result<O::Reply, NoRoom>
    ensures of { (cell : AnyCell O O.Params O.Call O.Reply) → IsHoldOf cell hold.old → IsHoldOf cell hold.new }
    ensures caller { (state_of_hold hold.new).caller ≡ (state_of_hold hold.old).caller }
    ensures applied { IsHeldApply O.SeqObject hold.old asked.now result hold.new }
{
    hold.apply_one(asked)
}

/// The same, once in the library for the calls that needn't be the fastest.
#[inline(never)]
pub fn shared_apply_held<O: SeqObject>(
    hold: &mut Hold<O>,
    asked: &O::Call,
) -> Result<O::Reply, NoRoom>
    ensures of { (cell : AnyCell O O.Params O.Call O.Reply) → IsHoldOf cell hold.old → IsHoldOf cell hold.new }
    ensures caller { (state_of_hold hold.new).caller ≡ (state_of_hold hold.old).caller }
    ensures applied { IsHeldApply O.SeqObject hold.old asked.now result hold.new }
{
    apply_held(hold, asked)
}

/// Does the call as one event, unless the log is full. A caller that doesn't hold the lock does nothing.
pub fn apply<O: SeqObject>(
    cell: &AnyCell<O>,
    caller: AnyCaller<O>,
    call: &O::Call,
) -> (AnyCaller<O>, Option<Result<O::Reply, NoRoom>>)
    requires { IsCallerOf cell.now caller }
    ensures of { IsCallerOf cell.now result.0 }
    ensures caller { (state_of_caller result.0).caller ≡ (state_of_caller caller).caller }
    ensures applied { IsApplied O.SeqObject cell.now caller call.now result.1 result.0 }
{
    match cell.hold_of(caller) {
        Ok(mut hold) => {
            let done = shared_apply_held(&mut hold, call);
            (cell.holder(hold), Some(done))
        }
        Err(other) => (other, None),
    }
}

/// Acquires the lock if no one holds it or is in line for it; otherwise the caller stays idle. One that isn't idle does nothing.
pub fn try_hold<O: SeqObject>(
    cell: &AnyCell<O>,
    caller: AnyCaller<O>,
) -> (AnyCaller<O>, Option<bool>)
    requires { IsCallerOf cell.now caller }
    ensures of { IsCallerOf cell.now result.0 }
    ensures caller { (state_of_caller result.0).caller ≡ (state_of_caller caller).caller }
    ensures tried { IsTriedBy O.SeqObject cell.now caller result.1 result.0 }
{
    match cell.poll_try_acquire(caller) {
        Tried::Held(hold) => (cell.holder(hold), Some(true)),
        Tried::Busy(caller) => (caller, Some(false)),
        Tried::Refused(caller) => (caller, None),
    }
}
