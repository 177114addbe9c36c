//! The MCS lock for callers that keep their own state, and wait outside its functions.

ghost use Rattle.std.specs.Prelude.{◌≡◌};
ghost use Rattle.sound_run.specs.declared.lock_kind.LockKind.TheVariants.{Mcs};
ghost use Rattle.word_rule.specs.{Passes.{view_of_hold, state_of_hold}, Polls.{GoesTo, OfPolled, after_poll}};
ghost use Rattle.mcs_lock.specs.{Callers.{IsCallerOf, state_of_caller}, Passes.{IsBehindOf, IsHoldOf, IsWaitingOf, state_of_behind, state_of_waiting}};

use crate::caller::McsCaller;
use crate::cell::McsCell;
use crate::states::{Behind, Entered, Waiting};
use event_log::SeqObject;
use word_rule::{Hold, Polled, PolledCell, Progress, Tried};

impl<O: SeqObject> McsCell<O> {
    /// One look of a caller in the queue.
    #[inline]
    fn poll_look(&self, waiting: Waiting<O>) -> Polled<Hold<O>, McsCaller<O>>
        requires { IsWaitingOf self.now waiting }
        ensures of { OfPolled (IsHoldOf self.now) (IsCallerOf self.now) result }
        ensures caller { (after_poll O.SeqObject state_of_hold state_of_caller result).caller ≡ (state_of_waiting waiting).caller }
        ensures goes { GoesTo O.SeqObject state_of_hold state_of_caller Mcs (state_of_waiting waiting) result }
    {
        match self.look(waiting) {
            Ok(hold) => Polled::Held(hold, true),
            Err(waiting) => Polled::Waits(McsCaller::Waiting(waiting)),
        }
    }

    /// A caller with another before it in the queue arms itself, links itself, and looks once.
    #[inline]
    pub fn line_up(&self, behind: Behind<O>) -> Polled<Hold<O>, McsCaller<O>>
        requires { IsBehindOf self.now behind }
        ensures of { OfPolled (IsHoldOf self.now) (IsCallerOf self.now) result }
        ensures caller { (after_poll O.SeqObject state_of_hold state_of_caller result).caller ≡ (state_of_behind behind).caller }
        ensures goes { GoesTo O.SeqObject state_of_hold state_of_caller Mcs (state_of_behind behind) result }
    {
        self.poll_look(self.link(self.arm(behind)))
    }
}

impl<O: SeqObject> PolledCell<O> for McsCell<O> {
    type Hold = Hold<O>;

    type Caller = McsCaller<O>;

    ghost kind_of = { λ _. Mcs };

    ghost is_hold_of = { IsHoldOf };

    ghost is_caller_of = { IsCallerOf };

    ghost hold_view = { view_of_hold };

    ghost hold_state = { state_of_hold };

    ghost state_of = { state_of_caller };

    fn acquire_step(&self, caller: McsCaller<O>) -> (McsCaller<O>, Option<Progress>) {
        match caller {
            McsCaller::Idle(pass) => (McsCaller::Ready(self.clear(pass)), Some(Progress::Stepped)),
            McsCaller::Rested(rested) => (
                McsCaller::Ready(self.clear(self.wake(rested))),
                Some(Progress::Stepped),
            ),
            McsCaller::Ready(ready) => match self.enter(ready) {
                Entered::Hold(hold) => (McsCaller::Holding(hold), Some(Progress::Entered)),
                Entered::Behind(behind) => (McsCaller::Behind(behind), Some(Progress::Stepped)),
            },
            McsCaller::Behind(behind) => (
                McsCaller::Armed(self.arm(behind)),
                Some(Progress::Stepped),
            ),
            McsCaller::Armed(armed) => (
                McsCaller::Waiting(self.link(armed)),
                Some(Progress::Stepped),
            ),
            McsCaller::Waiting(waiting) => match self.look(waiting) {
                Ok(hold) => (McsCaller::Holding(hold), Some(Progress::Found)),
                Err(waiting) => (McsCaller::Waiting(waiting), Some(Progress::Looked)),
            },
            other => (other, None),
        }
    }

    fn release_step(&self, caller: McsCaller<O>) -> (McsCaller<O>, Option<Progress>) {
        match caller {
            McsCaller::Holding(hold) => match self.see(hold) {
                Ok(passing) => (McsCaller::Passing(passing), Some(Progress::Stepped)),
                Err(alone) => (McsCaller::Alone(alone), Some(Progress::Stepped)),
            },
            McsCaller::Alone(alone) => match self.empty(alone) {
                Ok(pass) => (McsCaller::Idle(pass), Some(Progress::Left)),
                Err(leaving) => (McsCaller::Leaving(leaving), Some(Progress::Stepped)),
            },
            McsCaller::Leaving(leaving) => match self.see_again(leaving) {
                Ok(passing) => (McsCaller::Passing(passing), Some(Progress::Stepped)),
                Err(leaving) => (McsCaller::Leaving(leaving), Some(Progress::Looked)),
            },
            McsCaller::Passing(passing) => (
                McsCaller::Idle(self.pass_on(passing)),
                Some(Progress::Left),
            ),
            other => (other, None),
        }
    }

    fn poll_acquire(&self, caller: McsCaller<O>) -> Polled<Hold<O>, McsCaller<O>> {
        match caller {
            McsCaller::Idle(pass) => match self.enter(self.clear(pass)) {
                Entered::Hold(hold) => Polled::Held(hold, false),
                Entered::Behind(behind) => self.line_up(behind),
            },
            McsCaller::Rested(rested) => match self.arrive(rested) {
                Entered::Hold(hold) => Polled::Held(hold, false),
                Entered::Behind(behind) => self.line_up(behind),
            },
            McsCaller::Waiting(waiting) => self.poll_look(waiting),
            other => Polled::Refused(other),
        }
    }

    fn poll_try_acquire(&self, caller: McsCaller<O>) -> Tried<Hold<O>, McsCaller<O>> {
        match caller {
            McsCaller::Idle(pass) => match self.try_enter(self.prepare(pass)) {
                Ok(hold) => Tried::Held(hold),
                Err(pass) => Tried::Busy(McsCaller::Idle(pass)),
            },
            McsCaller::Rested(rested) => match self.try_enter(self.ready(rested)) {
                Ok(hold) => Tried::Held(hold),
                Err(pass) => Tried::Busy(McsCaller::Idle(pass)),
            },
            other => Tried::Refused(other),
        }
    }

    fn poll_release(&self, hold: Hold<O>) -> (McsCaller<O>, bool) {
        match self.see(hold) {
            Ok(passing) => (McsCaller::Idle(self.pass_on(passing)), true),
            Err(alone) => match self.rest(alone) {
                Ok(rested) => (McsCaller::Rested(rested), true),
                Err(leaving) => (McsCaller::Leaving(leaving), false),
            },
        }
    }
}
