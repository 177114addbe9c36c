//! Whole calls of an MCS lock, and its end.

ghost use Rattle.std.specs.Prelude.{◌≡◌, true, []};
ghost use Rattle.word_rule.specs.{Cell.{Grows, OwnTogether}, LockRuns.Extends, Mcs.Steps.{IsWaitingLook, IsSeeAgain}, Queued.IsQueued, Passes.{view_of_pass, view_of_hold, run_of_pass, run_of_hold, state_of_hold}};
ghost use Rattle.mcs_lock.specs.{Seen.IsSeen, Passes.{IsPassOf, IsBehindOf, IsWaitingOf, IsHoldOf, IsLeavingOf, IsPassingOf, view_of_behind, view_of_waiting, view_of_leaving, view_of_passing, state_of_behind, state_of_waiting, state_of_leaving, state_of_passing}};

use crate::cell::McsCell;
use crate::rule::{Look, SeeAgain};
use crate::states::{Behind, Leaving, Passing, Waiting};
use crossbeam_utils::Backoff;
use event_log::SeqObject;
use std::sync::Wait;
use word_rule::{Hold, Inside, Pass, locked_index, next_index};

impl<O: SeqObject> McsCell<O> {
    // Lets itself be seen by the one before it, and looks until it gets the object, with a pause between two looks.
    #[cold]
    #[inline(never)]
    pub(crate) fn wait_behind<R: Wait>(&self, rt: &R, behind: Behind<O>) -> (Hold<O>, u64)
        requires { IsBehindOf self.now behind }
        ensures hold { IsHoldOf self.now result.0 }
        ensures caller { (view_of_hold result.0).caller ≡ (view_of_behind behind).caller }
        ensures grows { Grows (view_of_behind behind).caller.owned (view_of_behind behind).seen (view_of_hold result.0).history.log }
        ensures run { IsQueued (state_of_behind behind) [] result.1 (view_of_hold result.0).history.log (run_of_hold result.0) }
    {
        let armed = self.arm(behind);
        let mut waiting = self.link(armed);
        let mut looks = 0u64;
        let backoff = Backoff::new();
        for _ in rt.forever() {
            looks = looks.saturating_add(1);
            match self.look(waiting) {
                Ok(hold) => {
                    self.resting.rise(looks);
                    return (hold, looks);
                }
                Err(again) => waiting = again,
            }
            self.resting.rest(rt, &backoff, looks);
        }
        unreachable!()
    }

    // Looks who is behind it until it sees one, with a pause between two looks.
    #[cold]
    #[inline(never)]
    pub(crate) fn wait_follower<R: Wait>(&self, rt: &R, leaving: Leaving<O>) -> Passing<O>
        requires { IsLeavingOf self.now leaving }
        ensures passing { IsPassingOf self.now result }
        ensures held { view_of_passing result ≡ view_of_leaving leaving }
        ensures run { IsSeen (state_of_leaving leaving) (state_of_passing result) }
    {
        let mut leaving = leaving;
        let backoff = Backoff::new();
        for _ in rt.forever() {
            match self.see_again(leaving) {
                Ok(passing) => return passing,
                Err(again) => leaving = again,
            }
            backoff.snooze();
        }
        unreachable!()
    }

    /// One look by a caller that owns every number of the cell together with the pass. It gets the object, so no call
    /// is lost whose rivals are all idle.
    pub fn last_look(&self, waiting: Waiting<O>, pass: Pass<O>) -> (Hold<O>, Pass<O>)
        requires waiting { IsWaitingOf self.now waiting }
        requires pass { IsPassOf self.now pass }
        requires all { OwnTogether (view_of_waiting waiting).caller (view_of_pass pass).caller }
        ensures hold { IsHoldOf self.now result.0 }
        ensures look { IsWaitingLook O.SeqObject (state_of_waiting waiting) (state_of_hold result.0) true }
        ensures pass { IsPassOf self.now result.1 }
        ensures caller { (view_of_pass result.1).caller ≡ (view_of_pass pass).caller }
        ensures seen { (view_of_pass result.1).seen ≡ (view_of_hold result.0).history.log }
        ensures grows { Grows (view_of_pass pass).caller.owned (view_of_pass pass).seen (view_of_hold result.0).history.log }
        ensures one_run { run_of_pass result.1 ≡ run_of_hold result.0 }
        ensures run { Extends (view_of_pass pass).caller.owned (run_of_pass pass) [] (run_of_pass result.1) }
    {
        let Waiting { mut outside } = waiting;
        let mut other = pass.outside;
        self.table.join_seat(&mut outside.seat, other.seat);
        let locked = locked_index(self.cpus, outside.cpu.number);
        let found = self.table.load::<Look>(&mut outside.seat, locked);
        prove!(found == 0);
        let (logged, loan) = self.table.take(&mut outside.seat);
        other.seat = self.table.split_seat(&mut outside.seat);
        let inside = Inside {
            outside,
            logged,
            loan,
        };
        (Hold { inside, mark: 0 }, Pass { outside: other })
    }

    /// One look by a holder, that isn't the last, for who is behind it, where it owns every number of the cell together
    /// with one that waits. It sees that one.
    pub fn last_see(&self, leaving: Leaving<O>, waiting: Waiting<O>) -> (Passing<O>, Waiting<O>)
        requires leaving { IsLeavingOf self.now leaving }
        requires waiting { IsWaitingOf self.now waiting }
        requires all { OwnTogether (view_of_leaving leaving).caller (view_of_waiting waiting).caller }
        ensures passing { IsPassingOf self.now result.0 }
        ensures see { IsSeeAgain O.SeqObject (state_of_leaving leaving) (state_of_passing result.0) true }
        ensures held { view_of_passing result.0 ≡ view_of_leaving leaving }
        ensures waiting { IsWaitingOf self.now result.1 }
        ensures waits { state_of_waiting result.1 ≡ state_of_waiting waiting }
    {
        let Leaving { mut inside } = leaving;
        let Waiting { outside: mut other } = waiting;
        self.table.join_seat(&mut inside.outside.seat, other.seat);
        let next = next_index(inside.outside.cpu.number);
        let found = self.table.load::<SeeAgain>(&mut inside.outside.seat, next);
        prove!(found != 0);
        let follower = (found - 1) as u32;
        other.seat = self.table.split_seat(&mut inside.outside.seat);
        (Passing { inside, follower }, Waiting { outside: other })
    }
}
