//! Whole calls, each by a pass of the cell that is called.

ghost use Rattle.std.specs.Prelude.{◌≡◌};
ghost use Rattle.word_rule.specs.Passes.{view_of_pass};
ghost use Rattle.ticket_lock.specs.Passes.{IsPassOf as IsTicketPass};
ghost use Rattle.mcs_lock.specs.Passes.{IsPassOf as IsMcsPass};
ghost use Rattle.guarded_cell.specs.Kinds.{IsPassOf};

use event_log::SeqObject;
use guarded_cell::{AnyCell, AnyPass, call};
use mcs_lock::McsCell;
use std::sync::Wait;
use ticket_lock::TicketCell;
use word_rule::Pass;

/// Makes the call on both cells, on each by its own pass.
pub fn call_on_both<O: SeqObject, R: Wait>(
    rt: &R,
    one: &AnyCell<O>,
    other: &AnyCell<O>,
    passes: (AnyPass<O>, AnyPass<O>),
    asked: &O::Call,
) -> (AnyPass<O>, AnyPass<O>)
    requires first { IsPassOf one.now passes.0 }
    requires second { IsPassOf other.now passes.1 }
    ensures first { (view_of_pass result.0).caller ≡ (view_of_pass passes.0).caller }
    ensures second { (view_of_pass result.1).caller ≡ (view_of_pass passes.1).caller }
{
    let (first, second) = passes;
    let (first_after, _, _) = one.call(rt, first, asked);
    let (second_after, _, _) = other.call(rt, second, asked);
    (first_after, second_after)
}

/// The same behind a ticket lock and an MCS lock.
pub fn call_behind_both<O: SeqObject, R: Wait>(
    rt: &R,
    tickets: &TicketCell<O>,
    queue: &McsCell<O>,
    passes: (Pass<O>, Pass<O>),
    asked: &O::Call,
) -> (Pass<O>, Pass<O>)
    requires first { IsTicketPass tickets.now passes.0 }
    requires second { IsMcsPass queue.now passes.1 }
    ensures first { (view_of_pass result.0).caller ≡ (view_of_pass passes.0).caller }
    ensures second { (view_of_pass result.1).caller ≡ (view_of_pass passes.1).caller }
{
    let (first, second) = passes;
    let (first_after, _, _) = call(rt, tickets, first, asked);
    let (second_after, _, _) = call(rt, queue, second, asked);
    (first_after, second_after)
}

/// Does 8 calls at once, the most that there can be.
pub fn eight_calls<O: SeqObject, R: Wait>(rt: &R, cell: &AnyCell<O>, pass: AnyPass<O>) -> AnyPass<O>
    requires { IsPassOf cell.now pass }
    ensures pass { IsPassOf cell.now result }
    ensures caller { (view_of_pass result).caller ≡ (view_of_pass pass).caller }
{
    let calls = [<O::Call>::default(); 8];
    let (pass_after, _, _) = cell.batch(rt, pass, &calls);
    pass_after
}
