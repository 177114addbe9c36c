//! Steps of an MCS lock that leave the object in its slot.

ghost use Rattle.std.specs.Prelude.{true, false, IfOk, IfErr};
ghost use Rattle.word_rule.specs.{Mcs.Steps.{IsEmpty, IsEnter, IsSee}};
ghost use Rattle.mcs_lock.specs.{Arrivals.{AfterClear, IsRestedOf, state_of_rested}, Passes.{IsBehindOf, IsLeavingOf, IsPassingOf, state_of_behind, state_of_leaving, state_of_passing}, KeptHolds.{IsKeptOf, IsKeptAloneOf, state_of_kept, state_of_kept_alone}};

use crate::at_once_rule::{Arrive, Rest};
use crate::cell::McsCell;
use crate::kept::{Kept, KeptAlone};
use crate::rested::Rested;
use crate::rule::See;
use crate::states::{Behind, Leaving, Passing};
use event_log::SeqObject;
use word_rule::{Inside, next_index};

impl<O: SeqObject> McsCell<O> {
    /// As `arrive`, but leaves the object in its slot.
    #[inline]
    pub fn arrive_kept(&self, rested: Rested<O>) -> Result<Kept<O>, Behind<O>>
        requires { IsRestedOf self.now rested }
        ensures got { IfOk result (λ k. IsKeptOf self.now k × AfterClear self.now rested (λ r. IsEnter O.SeqObject r (state_of_kept k) true)) }
        ensures queued { IfErr result (λ b. IsBehindOf self.now b × AfterClear self.now rested (λ r. IsEnter O.SeqObject r (state_of_behind b) false)) }
    {
        let Rested { mut outside } = rested;
        let found = self
            .table
            .arrive_swapping::<Arrive>(&mut outside.seat, 0, outside.cpu.number as u64 + 1);
        if found == 0 {
            Ok(Kept { outside })
        } else {
            let ahead = (found - 1) as u32;
            Err(Behind { outside, ahead })
        }
    }

    /// As `see`, with the object in its slot: one load. If it sees a follower, it takes the object out of the slot.
    #[inline]
    pub fn see_kept(&self, kept: Kept<O>) -> Result<Passing<O>, KeptAlone<O>>
        requires { IsKeptOf self.now kept }
        ensures found { IfOk result (λ p. IsPassingOf self.now p × IsSee O.SeqObject (state_of_kept kept) (state_of_passing p) true) }
        ensures none { IfErr result (λ a. IsKeptAloneOf self.now a × IsSee O.SeqObject (state_of_kept kept) (state_of_kept_alone a) false) }
    {
        let Kept { mut outside } = kept;
        let next = next_index(outside.cpu.number);
        let found = self.table.load::<See>(&mut outside.seat, next);
        if found == 0 {
            Err(KeptAlone { outside })
        } else {
            let follower = (found - 1) as u32;
            let (logged, loan) = self.table.take(&mut outside.seat);
            let inside = Inside {
                outside,
                logged,
                loan,
            };
            Ok(Passing { inside, follower })
        }
    }

    /// As `rest`, with the object already in its slot: one compare-and-exchange. If another CPU has entered, it takes the object out
    /// of the slot.
    #[inline]
    pub fn rest_kept(&self, alone: KeptAlone<O>) -> Result<Rested<O>, Leaving<O>>
        requires { IsKeptAloneOf self.now alone }
        ensures home { IfOk result (λ t. IsRestedOf self.now t × IsEmpty O.SeqObject (state_of_kept_alone alone) (state_of_rested t) true) }
        ensures missed { IfErr result (λ l. IsLeavingOf self.now l × IsEmpty O.SeqObject (state_of_kept_alone alone) (state_of_leaving l) false) }
    {
        let KeptAlone { mut outside } = alone;
        let last = outside.cpu.number as u64 + 1;
        let found = self
            .table
            .rest_exchanging::<Rest>(&mut outside.seat, 0, last, 0);
        if found == last {
            Ok(Rested { outside })
        } else {
            let (logged, loan) = self.table.take(&mut outside.seat);
            let inside = Inside {
                outside,
                logged,
                loan,
            };
            Err(Leaving { inside })
        }
    }
}
