//! Steps of a ticket lock that leave the object in its slot.

ghost use Rattle.std.specs.Prelude.{true, false, IfOk, IfErr};
ghost use Rattle.word_rule.specs.{Ticket.Steps.{IsLook, IsServe}, Passes.state_of_pass};
ghost use Rattle.ticket_lock.specs.{Arrivals.AfterDraw, Passes.{IsPassOf, IsDrawnOf, state_of_drawn}, KeptHolds.{IsKeptOf, state_of_kept}};

use crate::at_once_rule::Arrive;
use crate::cell::TicketCell;
use crate::kept::Kept;
use crate::rule::{Look, Serve};
use crate::states::Drawn;
use event_log::SeqObject;
use word_rule::{LAST_TICKET, Pass, TICKETS, next_ticket, served_ticket};

impl<O: SeqObject> TicketCell<O> {
    /// As `arrive`, but leaves the object in its slot.
    #[inline]
    pub fn arrive_kept(&self, pass: Pass<O>) -> Result<Kept<O>, Drawn<O>>
        requires { IsPassOf self.now pass }
        ensures got { IfOk result (λ h. IsKeptOf self.now h × AfterDraw self.now pass (λ d. IsLook O.SeqObject d (state_of_kept h) true)) }
        ensures missed { IfErr result (λ d. IsDrawnOf self.now d × AfterDraw self.now pass (λ b. IsLook O.SeqObject b (state_of_drawn d) false)) }
    {
        let mut outside = pass.outside;
        let word = self
            .table
            .arrive_adding::<Arrive>(&mut outside.seat, 0, TICKETS);
        let ticket = next_ticket(word);
        if served_ticket(word) == ticket {
            Ok(Kept { outside, ticket })
        } else {
            Err(Drawn { outside, ticket })
        }
    }

    /// As `look`, but leaves the object in its slot: one load.
    #[inline]
    pub fn look_kept(&self, drawn: Drawn<O>) -> Result<Kept<O>, Drawn<O>>
        requires { IsDrawnOf self.now drawn }
        ensures got { IfOk result (λ h. IsKeptOf self.now h × IsLook O.SeqObject (state_of_drawn drawn) (state_of_kept h) true) }
        ensures missed { IfErr result (λ d. IsDrawnOf self.now d × IsLook O.SeqObject (state_of_drawn drawn) (state_of_drawn d) false) }
    {
        let Drawn { outside, ticket } = drawn;
        let mut outside = outside;
        let word = self.table.load::<Look>(&mut outside.seat, 0);
        if served_ticket(word) == ticket {
            Ok(Kept { outside, ticket })
        } else {
            Err(Drawn { outside, ticket })
        }
    }

    /// As `serve`, with the object already in its slot: one fetch-and-add, or after the greatest ticket one fetch-and-subtract.
    #[inline]
    pub fn serve_kept(&self, hold: Kept<O>) -> Pass<O>
        requires { IsKeptOf self.now hold }
        ensures pass { IsPassOf self.now result }
        ensures step { IsServe O.SeqObject (state_of_kept hold) (state_of_pass result) }
    {
        let Kept {
            mut outside,
            ticket,
        } = hold;
        if ticket == u32::MAX {
            self.table
                .fetch_sub::<Serve>(&mut outside.seat, 0, LAST_TICKET);
            return Pass { outside };
        }
        self.table.fetch_add::<Serve>(&mut outside.seat, 0, 1);
        Pass { outside }
    }
}
