//! Callers in line at an MCS lock.

ghost use Rattle.std.specs.Prelude.{IfSome};
ghost use Rattle.mcs_lock.specs.Passes.{IsPassOf, IsReadyOf, IsWaitingOf, IsHoldOf, IsAloneOf, IsLeavingOf, IsPassingOf};

use event_log::SeqObject;
use mcs_lock::{Alone, Entered, Leaving, McsCell, Passing, Ready, Waiting};
use std::sync::Wait;
use word_rule::{Hold, LockCell, Pass};

/// Enters the queue: it has its turn if nobody is there, or it waits, and comes back.
pub fn queue_up<O: SeqObject, R: Wait>(
    rt: &R,
    cell: &McsCell<O>,
    ready: Ready<O>,
) -> Option<Waiting<O>>
    requires { IsReadyOf cell.now ready }
    ensures { IfSome result (λ w. IsWaitingOf cell.now w) }
{
    match cell.enter(ready) {
        Entered::Hold(hold) => {
            let _pass = cell.release(rt, hold);
            None
        }
        Entered::Behind(behind) => {
            let armed = cell.arm(behind);
            Some(cell.link(armed))
        }
    }
}

/// Looks once: it has its turn, or it waits on, and comes back.
pub fn look_once<O: SeqObject, R: Wait>(
    rt: &R,
    cell: &McsCell<O>,
    waiting: Waiting<O>,
) -> Option<Waiting<O>>
    requires { IsWaitingOf cell.now waiting }
    ensures { IfSome result (λ w. IsWaitingOf cell.now w) }
{
    match cell.look(waiting) {
        Ok(hold) => {
            let _pass = cell.release(rt, hold);
            None
        }
        Err(again) => Some(again),
    }
}

/// Makes a call and leaves by single steps. One that must wait for the link of its follower comes back.
pub fn call_and_leave<O: SeqObject>(
    cell: &McsCell<O>,
    hold: Hold<O>,
    asked: &O::Call,
) -> Option<Leaving<O>>
    requires { IsHoldOf cell.now hold }
    ensures { IfSome result (λ l. IsLeavingOf cell.now l) }
{
    let mut hold = hold;
    let _done = McsCell::apply_one(&mut hold, asked);
    match cell.see(hold) {
        Ok(passing) => {
            let _pass = cell.pass_on(passing);
            None
        }
        Err(alone) => leave_alone(cell, alone),
    }
}

// Empties the queue, unless somebody has entered it since.
fn leave_alone<O: SeqObject>(cell: &McsCell<O>, alone: Alone<O>) -> Option<Leaving<O>>
    requires { IsAloneOf cell.now alone }
    ensures { IfSome result (λ l. IsLeavingOf cell.now l) }
{
    match cell.empty(alone) {
        Ok(_pass) => None,
        Err(leaving) => Some(leaving),
    }
}

/// Passes the objects of both cells on.
pub fn pass_on_both<O: SeqObject>(
    one: &McsCell<O>,
    other: &McsCell<O>,
    passings: (Passing<O>, Passing<O>),
) -> (Pass<O>, Pass<O>)
    requires first { IsPassingOf one.now passings.0 }
    requires second { IsPassingOf other.now passings.1 }
    ensures first { IsPassOf one.now result.0 }
{
    let first_after = one.pass_on(passings.0);
    let second_after = other.pass_on(passings.1);
    (first_after, second_after)
}
