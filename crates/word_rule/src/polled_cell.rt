//! The interface of a cell whose callers wait outside its functions.

ghost use Rattle.std.specs.Prelude.{◌≡◌};
ghost use Rattle.sound_run.specs.declared.lock_kind.LockKind.{LockKind};
ghost use Rattle.word_rule.specs.{Cell.HoldView, CallerState.CallerState, Polls.{IsAcquireStep, IsReleaseStep, IsPolled, IsRelease, IsTried, OfPolled, OfTried, after_poll, after_try}};

use crate::{Polled, Progress, Tried};
use event_log::SeqObject;
use sound_run::LockKind;

/// A cell whose callers wait outside its functions: none of them blocks. A caller keeps its state in the line of the lock between
/// two calls, for a language or a kernel that has its own way to wait.
pub trait PolledCell<O: SeqObject> {
    /// A caller with the object. It can't be dropped.
    type Hold;

    /// A caller in any state of the lock. It can't be dropped.
    type Caller;

    /// The lock of the cell.
    ghost kind_of: { Self → LockKind };

    /// Whether the holder is of the cell.
    ghost is_hold_of: { Self → Self.Hold → Type 0 };

    /// Whether the caller is of the cell.
    ghost is_caller_of: { Self → Self.Caller → Type 0 };

    /// What a holder knows.
    ghost hold_view: { Self.Hold → HoldView O O.Params O.Call O.Reply };

    /// The state of a holder, and of a caller.
    ghost hold_state: { Self.Hold → CallerState O O.Params O.Call O.Reply };

    ghost state_of: { Self.Caller → CallerState O O.Params O.Call O.Reply };

    /// Performs the caller's next step towards the lock. A caller that already has the object does nothing.
    fn acquire_step(&self, caller: Self::Caller) -> (Self::Caller, Option<Progress>)
        requires { is_caller_of self.now caller }
        ensures of { is_caller_of self.now result.0 }
        ensures caller { (state_of result.0).caller ≡ (state_of caller).caller }
        ensures step { IsAcquireStep O.SeqObject state_of (kind_of self.now) caller result.1 result.0 };

    /// Performs the caller's next step to release the lock. A caller that doesn't have the object does nothing.
    fn release_step(&self, caller: Self::Caller) -> (Self::Caller, Option<Progress>)
        requires { is_caller_of self.now caller }
        ensures of { is_caller_of self.now result.0 }
        ensures caller { (state_of result.0).caller ≡ (state_of caller).caller }
        ensures step { IsReleaseStep O.SeqObject state_of (kind_of self.now) caller result.1 result.0 };

    /// Takes an idle caller, or one at a look, towards the lock, by one look at most. Any other does nothing.
    fn poll_acquire(&self, caller: Self::Caller) -> Polled<Self::Hold, Self::Caller>
        requires { is_caller_of self.now caller }
        ensures of { OfPolled (is_hold_of self.now) (is_caller_of self.now) result }
        ensures caller { (after_poll O.SeqObject hold_state state_of result).caller ≡ (state_of caller).caller }
        ensures polled { IsPolled O.SeqObject hold_state state_of (kind_of self.now) caller result };

    /// Acquires the lock if no one holds it or is in line for it, by one look at most. A caller that isn't idle does nothing.
    fn poll_try_acquire(&self, caller: Self::Caller) -> Tried<Self::Hold, Self::Caller>
        requires { is_caller_of self.now caller }
        ensures of { OfTried (is_hold_of self.now) (is_caller_of self.now) result }
        ensures caller { (after_try O.SeqObject hold_state state_of result).caller ≡ (state_of caller).caller }
        ensures tried { IsTried O.SeqObject hold_state state_of hold_view caller result };

    /// Releases the lock, unless a successor has to link itself first. Returns whether it has.
    fn poll_release(&self, hold: Self::Hold) -> (Self::Caller, bool)
        requires { is_hold_of self.now hold }
        ensures of { is_caller_of self.now result.0 }
        ensures caller { (state_of result.0).caller ≡ (hold_state hold).caller }
        ensures released { IsRelease O.SeqObject state_of (kind_of self.now) (hold_state hold) result.1 (state_of result.0) };
}
