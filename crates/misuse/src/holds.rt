//! Holds, each given back to the cell that it is of.

ghost use Rattle.std.specs.Prelude.{◌≡◌, IfSome, length};
ghost use Rattle.word_rule.specs.Passes.{view_of_pass};
ghost use Rattle.guarded_cell.specs.Kinds.{IsPassOf};

use crate::logs::count_events;
use event_log::SeqObject;
use guarded_cell::{AnyCell, AnyPass};
use std::sync::Wait;
use word_rule::LockCell;

/// Counts the events of a cell whose pass nobody needs again.
pub fn last_turn<O: SeqObject, R: Wait>(rt: &R, cell: &AnyCell<O>, pass: AnyPass<O>) -> usize
    requires { IsPassOf cell.now pass }
{
    let (hold, _looks) = cell.acquire(rt, pass);
    let count = AnyCell::logged(&hold).log().len();
    let _pass = cell.release(rt, hold);
    count
}

/// Has the objects of both cells at one time, and counts the events of those whose logs are kept.
pub fn turn_at_both<O: SeqObject, R: Wait>(
    rt: &R,
    one: &AnyCell<O>,
    other: &AnyCell<O>,
    passes: (AnyPass<O>, AnyPass<O>),
) -> ((AnyPass<O>, Option<usize>), (AnyPass<O>, Option<usize>))
    requires first { IsPassOf one.now passes.0 }
    requires second { IsPassOf other.now passes.1 }
    ensures first { IfSome result.0.1 (λ n. n ≡ length (view_of_pass result.0.0).seen) }
    ensures second { IfSome result.1.1 (λ n. n ≡ length (view_of_pass result.1.0).seen) }
{
    let (first, _looks) = one.acquire(rt, passes.0);
    let (second, _looks) = other.acquire(rt, passes.1);
    let first_count = count_events(AnyCell::logged(&first));
    let second_count = count_events(AnyCell::logged(&second));
    let first_after = one.release(rt, first);
    let second_after = other.release(rt, second);
    ((first_after, first_count), (second_after, second_count))
}

/// Has the object of the other cell, if it's free, while it has that of the one.
pub fn turn_if_free<O: SeqObject, R: Wait>(
    rt: &R,
    one: &AnyCell<O>,
    other: &AnyCell<O>,
    passes: (AnyPass<O>, AnyPass<O>),
) -> (AnyPass<O>, AnyPass<O>)
    requires first { IsPassOf one.now passes.0 }
    requires second { IsPassOf other.now passes.1 }
    ensures first { (view_of_pass result.0).caller ≡ (view_of_pass passes.0).caller }
    ensures second { (view_of_pass result.1).caller ≡ (view_of_pass passes.1).caller }
{
    let (first, _looks) = one.acquire(rt, passes.0);
    let second_after = match other.try_acquire(passes.1) {
        Ok(second) => other.release(rt, second),
        Err(busy) => busy,
    };
    (one.release(rt, first), second_after)
}
