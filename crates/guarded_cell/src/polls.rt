//! A cell of either kind for callers that keep their own state: it does what its lock does.

ghost use Rattle.word_rule.specs.Passes.{view_of_hold, state_of_hold};
ghost use Rattle.guarded_cell.specs.{AnyCallers.{IsCallerOf, state_of_caller}, Kinds.{IsHoldOf, kind_of}};

use crate::any_caller::{AnyCaller, polled_mcs, polled_ticket};
use crate::cell::AnyCell;
use event_log::SeqObject;
use word_rule::{Hold, Polled, PolledCell, Progress, Tried};

impl<O: SeqObject> PolledCell<O> for AnyCell<O> {
    type Hold = Hold<O>;

    type Caller = AnyCaller<O>;

    ghost kind_of = { kind_of };

    ghost is_hold_of = { IsHoldOf };

    ghost is_caller_of = { IsCallerOf };

    ghost hold_view = { view_of_hold };

    ghost hold_state = { state_of_hold };

    ghost state_of = { state_of_caller };

    fn acquire_step(&self, caller: AnyCaller<O>) -> (AnyCaller<O>, Option<Progress>) {
        match (self, caller) {
            (AnyCell::Ticket(cell), AnyCaller::Ticket(caller)) => {
                let (caller, report) = cell.acquire_step(caller);
                (AnyCaller::Ticket(caller), report)
            }
            (AnyCell::Mcs(cell), AnyCaller::Mcs(caller)) => {
                let (caller, report) = cell.acquire_step(caller);
                (AnyCaller::Mcs(caller), report)
            }
            _ => unreachable!(),
        }
    }

    fn release_step(&self, caller: AnyCaller<O>) -> (AnyCaller<O>, Option<Progress>) {
        match (self, caller) {
            (AnyCell::Ticket(cell), AnyCaller::Ticket(caller)) => {
                let (caller, report) = cell.release_step(caller);
                (AnyCaller::Ticket(caller), report)
            }
            (AnyCell::Mcs(cell), AnyCaller::Mcs(caller)) => {
                let (caller, report) = cell.release_step(caller);
                (AnyCaller::Mcs(caller), report)
            }
            _ => unreachable!(),
        }
    }

    fn poll_acquire(&self, caller: AnyCaller<O>) -> Polled<Hold<O>, AnyCaller<O>> {
        match (self, caller) {
            (AnyCell::Ticket(cell), AnyCaller::Ticket(caller)) => {
                polled_ticket(cell.poll_acquire(caller))
            }
            (AnyCell::Mcs(cell), AnyCaller::Mcs(caller)) => polled_mcs(cell.poll_acquire(caller)),
            _ => unreachable!(),
        }
    }

    fn poll_try_acquire(&self, caller: AnyCaller<O>) -> Tried<Hold<O>, AnyCaller<O>> {
        match (self, caller) {
            (AnyCell::Ticket(cell), AnyCaller::Ticket(caller)) => {
                match cell.poll_try_acquire(caller) {
                    Tried::Held(hold) => Tried::Held(hold),
                    Tried::Busy(caller) => Tried::Busy(AnyCaller::Ticket(caller)),
                    Tried::Refused(caller) => Tried::Refused(AnyCaller::Ticket(caller)),
                }
            }
            (AnyCell::Mcs(cell), AnyCaller::Mcs(caller)) => match cell.poll_try_acquire(caller) {
                Tried::Held(hold) => Tried::Held(hold),
                Tried::Busy(caller) => Tried::Busy(AnyCaller::Mcs(caller)),
                Tried::Refused(caller) => Tried::Refused(AnyCaller::Mcs(caller)),
            },
            _ => unreachable!(),
        }
    }

    fn poll_release(&self, hold: Hold<O>) -> (AnyCaller<O>, bool) {
        match self {
            AnyCell::Ticket(cell) => {
                let (caller, is_back) = cell.poll_release(hold);
                (AnyCaller::Ticket(caller), is_back)
            }
            AnyCell::Mcs(cell) => {
                let (caller, is_back) = cell.poll_release(hold);
                (AnyCaller::Mcs(caller), is_back)
            }
        }
    }
}
