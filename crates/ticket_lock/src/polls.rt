//! The ticket lock for callers that keep their own state, and wait outside its functions.

ghost use Rattle.sound_run.specs.declared.lock_kind.LockKind.TheVariants.{Ticket};
ghost use Rattle.word_rule.specs.Passes.{view_of_hold, state_of_hold};
ghost use Rattle.ticket_lock.specs.{Callers.{IsCallerOf, state_of_caller}, Passes.IsHoldOf};

use crate::caller::TicketCaller;
use crate::cell::TicketCell;
use event_log::SeqObject;
use word_rule::{Hold, LockCell, Polled, PolledCell, Progress, Tried};

impl<O: SeqObject> PolledCell<O> for TicketCell<O> {
    type Hold = Hold<O>;

    type Caller = TicketCaller<O>;

    ghost kind_of = { λ _. Ticket };

    ghost is_hold_of = { IsHoldOf };

    ghost is_caller_of = { IsCallerOf };

    ghost hold_view = { view_of_hold };

    ghost hold_state = { state_of_hold };

    ghost state_of = { state_of_caller };

    fn acquire_step(&self, caller: TicketCaller<O>) -> (TicketCaller<O>, Option<Progress>) {
        match caller {
            TicketCaller::Idle(pass) => (
                TicketCaller::Drawn(self.draw(pass)),
                Some(Progress::Stepped),
            ),
            TicketCaller::Drawn(drawn) => match self.look(drawn) {
                Ok(hold) => (TicketCaller::Holding(hold), Some(Progress::Found)),
                Err(drawn) => (TicketCaller::Drawn(drawn), Some(Progress::Looked)),
            },
            other => (other, None),
        }
    }

    fn release_step(&self, caller: TicketCaller<O>) -> (TicketCaller<O>, Option<Progress>) {
        match caller {
            TicketCaller::Holding(hold) => (
                TicketCaller::Idle(self.serve(hold)),
                Some(Progress::Left),
            ),
            other => (other, None),
        }
    }

    fn poll_acquire(&self, caller: TicketCaller<O>) -> Polled<Hold<O>, TicketCaller<O>> {
        match caller {
            TicketCaller::Idle(pass) => match self.arrive(pass) {
                Ok(hold) => Polled::Held(hold, true),
                Err(drawn) => Polled::Waits(TicketCaller::Drawn(drawn)),
            },
            TicketCaller::Drawn(drawn) => match self.look(drawn) {
                Ok(hold) => Polled::Held(hold, true),
                Err(drawn) => Polled::Waits(TicketCaller::Drawn(drawn)),
            },
            other => Polled::Refused(other),
        }
    }

    fn poll_try_acquire(&self, caller: TicketCaller<O>) -> Tried<Hold<O>, TicketCaller<O>> {
        match caller {
            TicketCaller::Idle(pass) => match self.try_acquire(pass) {
                Ok(hold) => Tried::Held(hold),
                Err(pass) => Tried::Busy(TicketCaller::Idle(pass)),
            },
            other => Tried::Refused(other),
        }
    }

    fn poll_release(&self, hold: Hold<O>) -> (TicketCaller<O>, bool) {
        (TicketCaller::Idle(self.serve(hold)), true)
    }
}
