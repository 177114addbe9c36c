//! Arrivals at a ticket lock by one operation.

ghost use Rattle.std.specs.Prelude.{true, false, IfOk, IfErr};
ghost use Rattle.word_rule.specs.{Ticket.Steps.IsLook, Passes.state_of_hold};
ghost use Rattle.ticket_lock.specs.{Arrivals.AfterDraw, Passes.{IsPassOf, IsDrawnOf, IsHoldOf, state_of_drawn}};

use crate::at_once_rule::Arrive;
use crate::cell::TicketCell;
use crate::states::Drawn;
use event_log::SeqObject;
use word_rule::{Hold, Inside, Pass, TICKETS, next_ticket, served_ticket};

impl<O: SeqObject> TicketCell<O> {
    /// Takes the next ticket, and gets the object if that ticket is served: one fetch-and-add, which is a draw and a look. A caller
    /// that owns every number of the cell always gets it.
    pub fn arrive(&self, pass: Pass<O>) -> Result<Hold<O>, Drawn<O>>
        requires { IsPassOf self.now pass }
        ensures got { IfOk result (λ h. IsHoldOf self.now h × AfterDraw self.now pass (λ d. IsLook O.SeqObject d (state_of_hold h) true)) }
        ensures missed { IfErr result (λ d. IsDrawnOf self.now d × AfterDraw self.now pass (λ b. IsLook O.SeqObject b (state_of_drawn d) false)) }
    {
        let mut outside = pass.outside;
        let word = self
            .table
            .arrive_adding::<Arrive>(&mut outside.seat, 0, TICKETS);
        let ticket = next_ticket(word);
        if served_ticket(word) == ticket {
            let (logged, loan) = self.table.take(&mut outside.seat);
            let inside = Inside {
                outside,
                logged,
                loan,
            };
            Ok(Hold {
                inside,
                mark: ticket,
            })
        } else {
            Err(Drawn { outside, ticket })
        }
    }
}
