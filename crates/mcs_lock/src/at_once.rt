//! Operations of MCS lock callers whose `next` is clear while they rest.

ghost use Rattle.std.specs.Prelude.{◌≡◌, [], true, false, IfOk, IfErr};
ghost use Rattle.word_rule.specs.{declared.lock_kind.Stage.TheVariants.Idle, CallerState.Moves, Mcs.Steps.{IsEmpty, IsEnter, IsReady}, Passes.{state_of_pass, state_of_hold}};
ghost use Rattle.mcs_lock.specs.{Arrivals.{AfterClear, IsRestedOf, state_of_rested}, Passes.{IsPassOf, IsBehindOf, IsHoldOf, IsAloneOf, IsLeavingOf, IsTryingOf, IfHold, IfBehind, state_of_behind, state_of_alone, state_of_leaving, state_of_trying}};

use crate::at_once_rule::{Arrive, Rest, Wake};
use crate::cell::McsCell;
use crate::rested::Rested;
use crate::states::{Alone, Behind, Entered, Leaving, Trying};
use event_log::SeqObject;
use word_rule::{Hold, Inside, Pass};

impl<O: SeqObject> Rested<O> {
    /// The CPU that it acts as.
    pub fn cpu(&self) -> u32
        ensures { result ≡ (state_of_rested self.now).caller.acting }
    {
        self.outside.cpu.number
    }
}

impl<O: SeqObject> McsCell<O> {
    /// Puts itself into the tail: one swap, which is a clear and an enter, since its `next` is clear already. If the queue was empty
    /// it gets the object. A caller that owns every number of the cell always gets it.
    pub fn arrive(&self, rested: Rested<O>) -> Entered<O>
        requires { IsRestedOf self.now rested }
        ensures got { IfHold result (λ h. IsHoldOf self.now h × AfterClear self.now rested (λ r. IsEnter O.SeqObject r (state_of_hold h) true)) }
        ensures queued { IfBehind result (λ b. IsBehindOf self.now b × AfterClear self.now rested (λ r. IsEnter O.SeqObject r (state_of_behind b) false)) }
    {
        let Rested { mut outside } = rested;
        let found = self
            .table
            .arrive_swapping::<Arrive>(&mut outside.seat, 0, outside.cpu.number as u64 + 1);
        if found == 0 {
            let (logged, loan) = self.table.take(&mut outside.seat);
            let inside = Inside {
                outside,
                logged,
                loan,
            };
            Entered::Hold(Hold { inside, mark: 0 })
        } else {
            let ahead = (found - 1) as u32;
            Entered::Behind(Behind { outside, ahead })
        }
    }

    /// Empties the tail if the caller is the last in the queue, and returns the object: one compare-and-exchange. Nobody has linked
    /// itself to the caller, so it rests with `next` clear. A caller that owns every number is the last.
    pub fn rest(&self, alone: Alone<O>) -> Result<Rested<O>, Leaving<O>>
        requires { IsAloneOf self.now alone }
        ensures home { IfOk result (λ t. IsRestedOf self.now t × IsEmpty O.SeqObject (state_of_alone alone) (state_of_rested t) true) }
        ensures missed { IfErr result (λ l. IsLeavingOf self.now l × IsEmpty O.SeqObject (state_of_alone alone) (state_of_leaving l) false) }
    {
        let Alone { inside } = alone;
        let Inside {
            mut outside,
            logged,
            loan,
        } = inside;
        self.table.put_back(&mut outside.seat, logged, loan);
        let last = outside.cpu.number as u64 + 1;
        let found = self
            .table
            .rest_exchanging::<Rest>(&mut outside.seat, 0, last, 0);
        if found == last {
            Ok(Rested { outside })
        } else {
            let (logged, loan) = self.table.take(&mut outside.seat);
            let inside = Inside {
                outside,
                logged,
                loan,
            };
            Err(Leaving { inside })
        }
    }

    /// Prepares a try, since its `next` is clear: no step of the lock.
    #[inline]
    pub fn ready(&self, rested: Rested<O>) -> Trying<O>
        requires { IsRestedOf self.now rested }
        ensures trying { IsTryingOf self.now result }
        ensures step { IsReady O.SeqObject (state_of_rested rested) (state_of_trying result) }
    {
        let Rested { outside } = rested;
        Trying { outside }
    }

    /// Makes the caller a pass again, which can be joined and can close the cell: one load, which is no step.
    pub fn wake(&self, rested: Rested<O>) -> Pass<O>
        requires { IsRestedOf self.now rested }
        ensures pass { IsPassOf self.now result }
        ensures step { Moves O.SeqObject Idle Idle [] (state_of_rested rested) (state_of_pass result) }
    {
        let Rested { mut outside } = rested;
        self.table.withdraw::<Wake>(&mut outside.seat, 0);
        Pass { outside }
    }
}
