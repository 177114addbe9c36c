//! A try of a ticket lock: it gets the object where nobody is in line, and doesn't wait.

ghost use Rattle.std.specs.Prelude.{◌≡◌, true, false, IfOk, IfErr};
ghost use Rattle.word_rule.specs.{Answered.IsBusy, Ticket.Steps.IsTry, Passes.{view_of_pass, run_of_pass, state_of_pass, state_of_hold}};
ghost use Rattle.ticket_lock.specs.Passes.{IsPassOf, IsTryingOf, IsHoldOf, view_of_trying, state_of_trying};

use crate::cell::TicketCell;
use crate::rule::{Read, Try};
use crate::states::Trying;
use event_log::SeqObject;
use word_rule::{Hold, Inside, Pass, TICKETS, next_ticket, served_ticket};

impl<O: SeqObject> TicketCell<O> {
    /// Reads the word: one load. Where its halves differ somebody is in line, and there is nothing to try.
    pub fn read(&self, pass: Pass<O>) -> Result<Trying<O>, Pass<O>>
        requires { IsPassOf self.now pass }
        ensures trying { IfOk result (λ t. IsTryingOf self.now t × (view_of_trying t ≡ view_of_pass pass) × ((state_of_trying t).run ≡ run_of_pass pass)) }
        ensures busy { IfErr result (λ p. IsPassOf self.now p × IsBusy (view_of_pass pass) (view_of_pass p) × (run_of_pass p ≡ run_of_pass pass)) }
    {
        let mut outside = pass.outside;
        let word = self.table.read::<Read>(&mut outside.seat, 0);
        if next_ticket(word) == served_ticket(word) {
            Ok(Trying { outside, word })
        } else {
            Err(Pass { outside })
        }
    }

    /// Takes the ticket that is served, if the word is still the one that was read: one compare-and-exchange. The object
    /// comes then; a caller that owns every number of the cell gets it.
    pub fn exchange(&self, trying: Trying<O>) -> Result<Hold<O>, Pass<O>>
        requires { IsTryingOf self.now trying }
        ensures got { IfOk result (λ h. IsHoldOf self.now h × IsTry O.SeqObject (state_of_trying trying) (state_of_hold h) true) }
        ensures busy { IfErr result (λ p. IsPassOf self.now p × IsTry O.SeqObject (state_of_trying trying) (state_of_pass p) false) }
    {
        let Trying { mut outside, word } = trying;
        let found = self
            .table
            .try_exchange::<Try>(&mut outside.seat, 0, word, word.wrapping_add(TICKETS));
        if found == word {
            let (logged, loan) = self.table.take(&mut outside.seat);
            let inside = Inside {
                outside,
                logged,
                loan,
            };
            let ticket = served_ticket(word);
            Ok(Hold {
                inside,
                mark: ticket,
            })
        } else {
            Err(Pass { outside })
        }
    }
}
