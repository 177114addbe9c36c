//! The single steps of an MCS lock.

ghost use Rattle.std.specs.Prelude.{true, false, IfOk, IfErr};
ghost use Rattle.word_rule.specs.{Mcs.Steps.{IsClear, IsEnter, IsArm, IsLink, IsWaitingLook, IsSee, IsSeeAgain, IsEmpty, IsPass}, Passes.{state_of_pass, state_of_hold}};
ghost use Rattle.mcs_lock.specs.Passes.{IsPassOf, IsReadyOf, IsBehindOf, IsArmedOf, IsWaitingOf, IsHoldOf, IsAloneOf, IsLeavingOf, IsPassingOf, IfHold, IfBehind, state_of_ready, state_of_behind, state_of_armed, state_of_waiting, state_of_alone, state_of_leaving, state_of_passing};

use crate::cell::McsCell;
use crate::rule::{Arm, Clear, Empty, Enter, Link, Look, PassOn, See, SeeAgain};
use crate::states::{Alone, Armed, Behind, Entered, Leaving, Passing, Ready, Waiting};
use event_log::SeqObject;
use word_rule::{Hold, Inside, Pass, locked_index, next_index};

impl<O: SeqObject> McsCell<O> {
    /// Clears its `next`: one store.
    pub fn clear(&self, pass: Pass<O>) -> Ready<O>
        requires { IsPassOf self.now pass }
        ensures ready { IsReadyOf self.now result }
        ensures step { IsClear O.SeqObject (state_of_pass pass) (state_of_ready result) }
    {
        let mut outside = pass.outside;
        self.table
            .store::<Clear>(&mut outside.seat, next_index(outside.cpu.number), 0);
        Ready { outside }
    }

    /// Puts itself into the tail: one swap. The object comes where nobody was there; a caller that owns every number of
    /// the cell gets it.
    pub fn enter(&self, ready: Ready<O>) -> Entered<O>
        requires { IsReadyOf self.now ready }
        ensures got { IfHold result (λ h. IsHoldOf self.now h × IsEnter O.SeqObject (state_of_ready ready) (state_of_hold h) true) }
        ensures queued { IfBehind result (λ b. IsBehindOf self.now b × IsEnter O.SeqObject (state_of_ready ready) (state_of_behind b) false) }
    {
        let Ready { mut outside } = ready;
        let found = self
            .table
            .swap::<Enter>(&mut outside.seat, 0, outside.cpu.number as u64 + 1);
        if found == 0 {
            let (logged, loan) = self.table.take(&mut outside.seat);
            let inside = Inside {
                outside,
                logged,
                loan,
            };
            Entered::Hold(Hold { inside, mark: 0 })
        } else {
            let ahead = (found - 1) as u32;
            Entered::Behind(Behind { outside, ahead })
        }
    }

    /// Sets its `locked`: one store.
    pub fn arm(&self, behind: Behind<O>) -> Armed<O>
        requires { IsBehindOf self.now behind }
        ensures armed { IsArmedOf self.now result }
        ensures step { IsArm O.SeqObject (state_of_behind behind) (state_of_armed result) }
    {
        let Behind { mut outside, ahead } = behind;
        let locked = locked_index(self.cpus, outside.cpu.number);
        self.table.store::<Arm>(&mut outside.seat, locked, 1);
        Armed { outside, ahead }
    }

    /// Names itself in the `next` of the one before it: one store.
    pub fn link(&self, armed: Armed<O>) -> Waiting<O>
        requires { IsArmedOf self.now armed }
        ensures waiting { IsWaitingOf self.now result }
        ensures step { IsLink O.SeqObject (state_of_armed armed) (state_of_waiting result) }
    {
        let Armed { mut outside, ahead } = armed;
        let next = next_index(ahead);
        self.table
            .store::<Link>(&mut outside.seat, next, outside.cpu.number as u64 + 1);
        Waiting { outside }
    }

    /// Looks whether its `locked` is clear: one load. The object comes where it is.
    pub fn look(&self, waiting: Waiting<O>) -> Result<Hold<O>, Waiting<O>>
        requires { IsWaitingOf self.now waiting }
        ensures got { IfOk result (λ h. IsHoldOf self.now h × IsWaitingLook O.SeqObject (state_of_waiting waiting) (state_of_hold h) true) }
        ensures missed { IfErr result (λ w. IsWaitingOf self.now w × IsWaitingLook O.SeqObject (state_of_waiting waiting) (state_of_waiting w) false) }
    {
        let Waiting { mut outside } = waiting;
        let locked = locked_index(self.cpus, outside.cpu.number);
        let found = self.table.load::<Look>(&mut outside.seat, locked);
        if found == 0 {
            let (logged, loan) = self.table.take(&mut outside.seat);
            let inside = Inside {
                outside,
                logged,
                loan,
            };
            Ok(Hold { inside, mark: 0 })
        } else {
            Err(Waiting { outside })
        }
    }

    /// Looks who is behind it, by its own `next`: one load. A caller that owns every number sees nobody.
    pub fn see(&self, hold: Hold<O>) -> Result<Passing<O>, Alone<O>>
        requires { IsHoldOf self.now hold }
        ensures found { IfOk result (λ p. IsPassingOf self.now p × IsSee O.SeqObject (state_of_hold hold) (state_of_passing p) true) }
        ensures none { IfErr result (λ a. IsAloneOf self.now a × IsSee O.SeqObject (state_of_hold hold) (state_of_alone a) false) }
    {
        let Hold { inside, mark: _ } = hold;
        let mut inside = inside;
        let next = next_index(inside.outside.cpu.number);
        let found = self.table.load::<See>(&mut inside.outside.seat, next);
        if found == 0 {
            Err(Alone { inside })
        } else {
            let follower = (found - 1) as u32;
            Ok(Passing { inside, follower })
        }
    }

    /// Empties the tail, if it is the last there, and gives the object back: one compare-exchange. A caller that owns
    /// every number is the last.
    pub fn empty(&self, alone: Alone<O>) -> Result<Pass<O>, Leaving<O>>
        requires { IsAloneOf self.now alone }
        ensures home { IfOk result (λ p. IsPassOf self.now p × IsEmpty O.SeqObject (state_of_alone alone) (state_of_pass p) true) }
        ensures missed { IfErr result (λ l. IsLeavingOf self.now l × IsEmpty O.SeqObject (state_of_alone alone) (state_of_leaving l) false) }
    {
        let Alone { inside } = alone;
        let Inside {
            mut outside,
            logged,
            loan,
        } = inside;
        self.table.put_back(&mut outside.seat, logged, loan);
        let last = outside.cpu.number as u64 + 1;
        let found = self
            .table
            .compare_exchange::<Empty>(&mut outside.seat, 0, last, 0);
        if found == last {
            Ok(Pass { outside })
        } else {
            let (logged, loan) = self.table.take(&mut outside.seat);
            let inside = Inside {
                outside,
                logged,
                loan,
            };
            Err(Leaving { inside })
        }
    }

    /// Looks again who is behind it: one load.
    pub fn see_again(&self, leaving: Leaving<O>) -> Result<Passing<O>, Leaving<O>>
        requires { IsLeavingOf self.now leaving }
        ensures found { IfOk result (λ p. IsPassingOf self.now p × IsSeeAgain O.SeqObject (state_of_leaving leaving) (state_of_passing p) true) }
        ensures missed { IfErr result (λ l. IsLeavingOf self.now l × IsSeeAgain O.SeqObject (state_of_leaving leaving) (state_of_leaving l) false) }
    {
        let Leaving { mut inside } = leaving;
        let next = next_index(inside.outside.cpu.number);
        let found = self.table.load::<SeeAgain>(&mut inside.outside.seat, next);
        if found == 0 {
            Err(Leaving { inside })
        } else {
            let follower = (found - 1) as u32;
            Ok(Passing { inside, follower })
        }
    }

    /// Gives the object back, and clears the `locked` of the one behind it: one store. It wakes nobody: each nap
    /// ends by itself.
    pub fn pass_on(&self, passing: Passing<O>) -> Pass<O>
        requires { IsPassingOf self.now passing }
        ensures pass { IsPassOf self.now result }
        ensures step { IsPass O.SeqObject (state_of_passing passing) (state_of_pass result) }
    {
        let Passing { inside, follower } = passing;
        let Inside {
            mut outside,
            logged,
            loan,
        } = inside;
        self.table.put_back(&mut outside.seat, logged, loan);
        let locked = locked_index(self.cpus, follower);
        self.table.store::<PassOn>(&mut outside.seat, locked, 0);
        Pass { outside }
    }
}
