//! Whole calls, as far as they come without waiting: acquire the lock, do the call, and release the lock.

ghost use Rattle.std.specs.Prelude.{◌≡◌};
ghost use Rattle.word_rule.specs.{Passes.state_of_hold, Polls.{IsPolled, OfPolled, after_poll}};
ghost use Rattle.guarded_cell.specs.{AnyCallers.{IsCallerOf, state_of_caller}, Kinds.{IsHoldOf, kind_of}};
ghost use Rattle.cell_callers.specs.{Applies.IsHeldApply, Wholes.{IsHeldCall, IsCalled, IsTryCalled}};

use crate::applying::shared_apply_held;
use event_log::{NoRoom, SeqObject};
use guarded_cell::{AnyCaller, AnyCell};
use word_rule::{Hold, Polled, PolledCell, Tried};

/// How far a whole call came.
#[derive(Drop)]
pub enum Whole<D> {
    /// The call has this answer, and the lock is released. It was acquired by a look, or without one.
    Done(D, bool),
    /// The same, but the lock isn't released yet: a successor has come, and has to link itself first.
    Kept(D, bool),
    /// The caller is in line, after a failed look.
    Waits,
    /// Nothing was done, since the caller isn't idle or at a look.
    Refused,
}

/// How far a whole call by a try came.
#[derive(Drop)]
pub enum TriedCall<D> {
    /// The call has this answer, and the lock is released.
    Done(D),
    /// The same, but the lock isn't released yet: a successor has come, and has to link itself first.
    Kept(D),
    /// Another caller holds the lock or is in line for it, and nothing was done.
    Busy,
    /// Nothing was done, since the caller isn't idle.
    Refused,
}

#[inline]
fn call_held<O: SeqObject>(
    cell: &AnyCell<O>,
    mut hold: Hold<O>,
    asked: &O::Call,
) -> (AnyCaller<O>, Result<O::Reply, NoRoom>, bool)
    requires { IsHoldOf cell.now hold }
    ensures of { IsCallerOf cell.now result.0 }
    ensures caller { (state_of_caller result.0).caller ≡ (state_of_hold hold).caller }
    ensures called { IsHeldCall O.SeqObject (λ h k. IsHeldApply O.SeqObject h asked.now result.1 k) cell.now hold result.2 result.0 }
{
    let done = shared_apply_held(&mut hold, asked);
    let (caller, is_back) = cell.poll_release(hold);
    (caller, done, is_back)
}

// Does a whole call of a caller that has polled its lock.
#[cold]
#[inline(never)]
pub fn call_polled<O: SeqObject>(
    cell: &AnyCell<O>,
    polled: Polled<Hold<O>, AnyCaller<O>>,
    asked: &O::Call,
) -> (AnyCaller<O>, Whole<Result<O::Reply, NoRoom>>)
    requires { OfPolled (IsHoldOf cell.now) (IsCallerOf cell.now) polled }
    ensures of { IsCallerOf cell.now result.0 }
    ensures caller { (state_of_caller result.0).caller ≡ (after_poll O.SeqObject state_of_hold state_of_caller polled).caller }
    ensures called { (p : _) → IsPolled O.SeqObject state_of_hold state_of_caller (kind_of cell.now) p polled → IsCalled O.SeqObject cell.now p asked.now result.1 result.0 }
{
    match polled {
        Polled::Held(hold, looked) => match call_held(cell, hold, asked) {
            (caller, done, true) => (caller, Whole::Done(done, looked)),
            (caller, done, false) => (caller, Whole::Kept(done, looked)),
        },
        Polled::Waits(caller) => (caller, Whole::Waits),
        Polled::Refused(caller) => (caller, Whole::Refused),
    }
}

/// Does a whole call if no one holds the lock or is in line for it.
#[inline]
pub fn try_call<O: SeqObject>(
    cell: &AnyCell<O>,
    caller: AnyCaller<O>,
    asked: &O::Call,
) -> (AnyCaller<O>, TriedCall<Result<O::Reply, NoRoom>>)
    requires { IsCallerOf cell.now caller }
    ensures of { IsCallerOf cell.now result.0 }
    ensures caller { (state_of_caller result.0).caller ≡ (state_of_caller caller).caller }
    ensures called { IsTryCalled O.SeqObject cell.now caller asked.now result.1 result.0 }
{
    match cell.poll_try_acquire(caller) {
        Tried::Held(hold) => match call_held(cell, hold, asked) {
            (caller, done, true) => (caller, TriedCall::Done(done)),
            (caller, done, false) => (caller, TriedCall::Kept(done)),
        },
        Tried::Busy(caller) => (caller, TriedCall::Busy),
        Tried::Refused(caller) => (caller, TriedCall::Refused),
    }
}
