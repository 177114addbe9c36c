//! The MCS lock meets the interface of all locks.

ghost use Rattle.mcs_lock.specs.Passes.{IsPassOf, IsHoldOf};
ghost use Rattle.word_rule.specs.Passes.{view_of_pass, view_of_hold, run_of_pass, run_of_hold};

use crate::cell::McsCell;
use crate::states::Entered;
use event_log::{Logged, NoRoom, SeqObject, Steps};
use std::sync::Wait;
use word_rule::{Hold, LockCell, Pass};

impl<O: SeqObject> LockCell<O> for McsCell<O> {
    type Pass = Pass<O>;

    type Hold = Hold<O>;

    ghost is_pass_of = { IsPassOf };

    ghost is_hold_of = { IsHoldOf };

    ghost pass_view = { view_of_pass };

    ghost hold_view = { view_of_hold };

    ghost pass_run = { run_of_pass };

    ghost hold_run = { run_of_hold };

    /// Enters, and where another is before it looks until it gets the object.
    #[inline(always)]
    fn acquire<R: Wait>(&self, rt: &R, pass: Pass<O>) -> (Hold<O>, u64) {
        self.resting.stay_outside(rt);
        let ready = self.clear(pass);
        match self.enter(ready) {
            Entered::Hold(hold) => (hold, 0),
            Entered::Behind(behind) => self.wait_behind(rt, behind),
        }
    }

    /// Clears its `next`, and tries: one store and one compare-and-exchange.
    fn try_acquire(&self, pass: Pass<O>) -> Result<Hold<O>, Pass<O>> {
        let trying = self.prepare(pass);
        self.try_enter(trying)
    }

    #[inline]
    fn apply(hold: &mut Hold<O>, calls: &[O::Call]) -> Result<Steps<O>, NoRoom> {
        hold.apply(calls)
    }

    #[inline]
    fn apply_one(hold: &mut Hold<O>, call: &O::Call) -> Result<O::Reply, NoRoom> {
        hold.apply_one(call)
    }

    #[inline]
    fn logged(hold: &Hold<O>) -> &Logged<O> {
        &hold.inside.logged
    }

    /// Gives the object back: to the one behind it, or, where nobody is, with the tail empty.
    #[inline(always)]
    fn release<R: Wait>(&self, rt: &R, hold: Hold<O>) -> Pass<O> {
        let alone = match self.see(hold) {
            Ok(passing) => return self.pass_on(passing),
            Err(alone) => alone,
        };
        match self.empty(alone) {
            Ok(pass) => pass,
            Err(leaving) => {
                let passing = self.wait_follower(rt, leaving);
                self.pass_on(passing)
            }
        }
    }

    fn meet(&self, first: Pass<O>, second: Pass<O>) -> (Pass<O>, Pass<O>) {
        self.table.meet(first, second)
    }

    fn apart(&self, first: Hold<O>, second: Hold<O>) -> (Hold<O>, Hold<O>) {
        self.table.apart(first, second)
    }

    fn join(&self, first: Pass<O>, second: Pass<O>) -> Pass<O> {
        self.table.join(first, second)
    }

    fn close(self, pass: Pass<O>) -> Logged<O> {
        self.table.close(pass)
    }

    ghost pass_is_valid = { λ _ pass _. pass.idle.pass_view };

    ghost hold_is_valid = { λ _ hold _. hold.holds.hold_view };

    ghost pass_has_run = { λ _ pass _. pass.idle.ran };

    ghost hold_has_run = { λ _ hold _. record { log = hold.inside.outside.seat.me.0.main.seen; ran = hold.holds.ran; added = hold.holds.added.begins } };
}
