//! A try of an MCS lock: it gets the object where nobody is in the queue, and doesn't wait.

ghost use Rattle.std.specs.Prelude.{true, false, IfOk, IfErr};
ghost use Rattle.word_rule.specs.{Mcs.Steps.{IsReady, IsTryEnter}, Passes.{state_of_pass, state_of_hold}};
ghost use Rattle.mcs_lock.specs.Passes.{IsPassOf, IsTryingOf, IsHoldOf, state_of_trying};

use crate::cell::McsCell;
use crate::rule::{PrepareTry, Try};
use crate::states::Trying;
use event_log::SeqObject;
use word_rule::{Hold, Inside, Pass, next_index};

impl<O: SeqObject> McsCell<O> {
    /// Clears its `next` for a try: one store.
    pub fn prepare(&self, pass: Pass<O>) -> Trying<O>
        requires { IsPassOf self.now pass }
        ensures trying { IsTryingOf self.now result }
        ensures step { IsReady O.SeqObject (state_of_pass pass) (state_of_trying result) }
    {
        let mut outside = pass.outside;
        self.table
            .prepare::<PrepareTry>(&mut outside.seat, next_index(outside.cpu.number), 0);
        Trying { outside }
    }

    /// Puts itself into the tail if that names nobody: one compare-and-exchange. The object comes then; a caller that owns
    /// every number of the cell gets it.
    pub fn try_enter(&self, trying: Trying<O>) -> Result<Hold<O>, Pass<O>>
        requires { IsTryingOf self.now trying }
        ensures got { IfOk result (λ h. IsHoldOf self.now h × IsTryEnter O.SeqObject (state_of_trying trying) (state_of_hold h) true) }
        ensures busy { IfErr result (λ p. IsPassOf self.now p × IsTryEnter O.SeqObject (state_of_trying trying) (state_of_pass p) false) }
    {
        let Trying { mut outside } = trying;
        let found = self
            .table
            .try_exchange::<Try>(&mut outside.seat, 0, 0, outside.cpu.number as u64 + 1);
        if found == 0 {
            let (logged, loan) = self.table.take(&mut outside.seat);
            let inside = Inside {
                outside,
                logged,
                loan,
            };
            Ok(Hold { inside, mark: 0 })
        } else {
            Err(Pass { outside })
        }
    }
}
