//! A cell of either kind meets the interface of all locks: it does what its lock does. A caller of the other kind isn't of
//! the cell, since its key names its lock.

ghost use Rattle.word_rule.specs.Passes.{view_of_pass, view_of_hold, run_of_pass, run_of_hold};
ghost use Rattle.guarded_cell.specs.Kinds.{IsPassOf, IsHoldOf};

use crate::cell::AnyCell;
use event_log::{Logged, NoRoom, SeqObject, Steps};
use std::sync::Wait;
use word_rule::{Hold, LockCell, Pass};

impl<O: SeqObject> LockCell<O> for AnyCell<O> {
    type Pass = Pass<O>;

    type Hold = Hold<O>;

    ghost is_pass_of = { IsPassOf };

    ghost is_hold_of = { IsHoldOf };

    ghost pass_view = { view_of_pass };

    ghost hold_view = { view_of_hold };

    ghost pass_run = { run_of_pass };

    ghost hold_run = { run_of_hold };

    fn acquire<R: Wait>(&self, rt: &R, pass: Pass<O>) -> (Hold<O>, u64) {
        match self {
            AnyCell::Ticket(cell) => cell.acquire(rt, pass),
            AnyCell::Mcs(cell) => cell.acquire(rt, pass),
        }
    }

    fn try_acquire(&self, pass: Pass<O>) -> Result<Hold<O>, Pass<O>> {
        match self {
            AnyCell::Ticket(cell) => cell.try_acquire(pass),
            AnyCell::Mcs(cell) => cell.try_acquire(pass),
        }
    }

    #[inline]
    fn apply(hold: &mut Hold<O>, calls: &[O::Call]) -> Result<Steps<O>, NoRoom> {
        hold.apply(calls)
    }

    #[inline]
    fn apply_one(hold: &mut Hold<O>, call: &O::Call) -> Result<O::Reply, NoRoom> {
        hold.apply_one(call)
    }

    #[inline]
    fn logged(hold: &Hold<O>) -> &Logged<O> {
        &hold.inside.logged
    }

    #[inline]
    fn release<R: Wait>(&self, rt: &R, hold: Hold<O>) -> Pass<O> {
        match self {
            AnyCell::Ticket(cell) => cell.release(rt, hold),
            AnyCell::Mcs(cell) => cell.release(rt, hold),
        }
    }

    fn meet(&self, first: Pass<O>, second: Pass<O>) -> (Pass<O>, Pass<O>) {
        match self {
            AnyCell::Ticket(cell) => cell.meet(first, second),
            AnyCell::Mcs(cell) => cell.meet(first, second),
        }
    }

    fn apart(&self, first: Hold<O>, second: Hold<O>) -> (Hold<O>, Hold<O>) {
        match self {
            AnyCell::Ticket(cell) => cell.apart(first, second),
            AnyCell::Mcs(cell) => cell.apart(first, second),
        }
    }

    fn join(&self, first: Pass<O>, second: Pass<O>) -> Pass<O> {
        match self {
            AnyCell::Ticket(cell) => cell.join(first, second),
            AnyCell::Mcs(cell) => cell.join(first, second),
        }
    }

    fn close(self, pass: Pass<O>) -> Logged<O> {
        match self {
            AnyCell::Ticket(cell) => cell.close(pass),
            AnyCell::Mcs(cell) => cell.close(pass),
        }
    }

    ghost pass_is_valid = { λ _ pass _. pass.idle.pass_view };

    ghost hold_is_valid = { λ _ hold _. hold.holds.hold_view };

    ghost pass_has_run = { λ _ pass _. pass.idle.ran };

    ghost hold_has_run = { λ _ hold _. record { log = hold.inside.outside.seat.me.0.main.seen; ran = hold.holds.ran; added = hold.holds.added.begins } };
}
