//! Whole calls on a cell: the object is acquired once and released once. They take no memory, and may wait.

ghost use Rattle.std.specs.{Prelude.{◌≡◌, ◌<◌, ◌≤◌, [], ◌∷◌, length, IfOk, OnOk, OnErr}, List.All};
ghost use Rattle.event_log.specs.Log.{one_step};
ghost use Rattle.word_rule.specs.{Answered.{IsAnswered, IsRefused, IsHeldThrough}, Passes.{view_of_pass, run_of_pass}};
ghost use Rattle.guarded_cell.specs.{Held.{HasCalled, HasBatched, HasDoneGroups}, Kinds.IsPassOf};

use crate::AnyPass;
use crate::cell::AnyCell;
use crate::groups::{MOST_GROUPS, do_groups};
use arrayvec::ArrayVec;
use event_log::{MOST_CALLS, NoRoom, SeqObject, Steps};
use std::sync::Wait;
use word_rule::LockCell;

/// Does 1 to 8 calls as one event of the acting CPU, up to and with the first that is refused. The number is that of the
/// looks.
pub fn batch<O: SeqObject, C: LockCell<O>, R: Wait>(
    rt: &R,
    cell: &C,
    pass: C::Pass,
    calls: &[O::Call],
) -> (C::Pass, Result<Steps<O>, NoRoom>, u64)
    requires pass { C.is_pass_of cell.now pass }
    requires some { 0 < length calls.now }
    requires few { length calls.now ≤ MOST_CALLS }
    ensures pass { C.is_pass_of cell.now result.0 }
    ensures caller { (C.pass_view result.0).caller ≡ (C.pass_view pass).caller }
    ensures answered { IfOk result.1 (λ s. IsAnswered O.SeqObject (C.pass_view pass) calls.now s (C.pass_view result.0)) }
    ensures refused { OnErr result.1 (IsRefused O.SeqObject (C.pass_view pass) (C.pass_view result.0)) }
    ensures run { HasBatched (C.pass_view pass).caller (C.pass_run pass) result.2 result.1 (C.pass_run result.0) }
{
    let (mut hold, looks) = cell.acquire(rt, pass);
    let done = C::apply(&mut hold, calls);
    let pass = cell.release(rt, hold);
    (pass, done, looks)
}

/// Does a call as one event of the acting CPU.
#[inline(always)]
pub fn call<O: SeqObject, C: LockCell<O>, R: Wait>(
    rt: &R,
    cell: &C,
    pass: C::Pass,
    call: &O::Call,
) -> (C::Pass, Result<O::Reply, NoRoom>, u64)
    requires { C.is_pass_of cell.now pass }
    ensures pass { C.is_pass_of cell.now result.0 }
    ensures caller { (C.pass_view result.0).caller ≡ (C.pass_view pass).caller }
    ensures answered { IfOk result.1 (λ r. IsAnswered O.SeqObject (C.pass_view pass) (call.now ∷ []) (one_step call.now r) (C.pass_view result.0)) }
    ensures refused { OnErr result.1 (IsRefused O.SeqObject (C.pass_view pass) (C.pass_view result.0)) }
    ensures run { HasCalled (C.pass_view pass).caller (C.pass_run pass) result.2 call.now result.1 (C.pass_run result.0) }
{
    let (mut hold, looks) = cell.acquire(rt, pass);
    let done = C::apply_one(&mut hold, call);
    let pass = cell.release(rt, hold);
    (pass, done, looks)
}

/// Does 1 to 8 groups of 1 to 8 calls each under one hold: one event for each group, and nobody's event between them. At
/// the first group without room it stops; `done` gets the steps of the groups that were done.
pub fn with_hold<O: SeqObject, C: LockCell<O>, R: Wait>(
    rt: &R,
    cell: &C,
    pass: C::Pass,
    groups: &[ArrayVec<O::Call, MOST_CALLS>],
    done: &mut ArrayVec<Steps<O>, MOST_GROUPS>,
) -> (C::Pass, Result<(), NoRoom>, u64)
    requires pass { C.is_pass_of cell.now pass }
    requires some { 0 < length groups.now }
    requires few { length groups.now ≤ MOST_GROUPS }
    requires each { All (λ g. 0 < length g.items) groups.now }
    requires empty { done.old.items ≡ [] }
    ensures pass { C.is_pass_of cell.now result.0 }
    ensures caller { (C.pass_view result.0).caller ≡ (C.pass_view pass).caller }
    ensures held { IsHeldThrough O.SeqObject (C.pass_view pass) groups.now done.new.items (C.pass_view result.0) }
    ensures whole { OnOk result.1 (length done.new.items ≡ length groups.now) }
    ensures left { OnErr result.1 (length done.new.items < length groups.now) }
    ensures full { OnErr result.1 (length (C.pass_view result.0).seen ≡ (C.pass_view pass).caller.cell.limit) }
    ensures run { HasDoneGroups (C.pass_view pass).caller (C.pass_run pass) result.2 done.new.items (C.pass_run result.0) }
{
    let (mut hold, looks) = cell.acquire(rt, pass);
    let outcome = do_groups::<O, C>(&mut hold, groups, done);
    let pass = cell.release(rt, hold);
    (pass, outcome, looks)
}

impl<O: SeqObject> AnyCell<O> {
    /// Does a call as one event of the acting CPU. The number is that of the looks.
    pub fn call<R: Wait>(
        &self,
        rt: &R,
        pass: AnyPass<O>,
        asked: &O::Call,
    ) -> (AnyPass<O>, Result<O::Reply, NoRoom>, u64)
        requires { IsPassOf self.now pass }
        ensures pass { IsPassOf self.now result.0 }
        ensures caller { (view_of_pass result.0).caller ≡ (view_of_pass pass).caller }
        ensures answered { IfOk result.1 (λ r. IsAnswered O.SeqObject (view_of_pass pass) (asked.now ∷ []) (one_step asked.now r) (view_of_pass result.0)) }
        ensures refused { OnErr result.1 (IsRefused O.SeqObject (view_of_pass pass) (view_of_pass result.0)) }
        ensures run { HasCalled (view_of_pass pass).caller (run_of_pass pass) result.2 asked.now result.1 (run_of_pass result.0) }
    {
        match self {
            AnyCell::Ticket(cell) => call(rt, cell, pass, asked),
            AnyCell::Mcs(cell) => call(rt, cell, pass, asked),
        }
    }

    /// Does 1 to 8 calls as one event of the acting CPU, up to and with the first that is refused.
    pub fn batch<R: Wait>(
        &self,
        rt: &R,
        pass: AnyPass<O>,
        calls: &[O::Call],
    ) -> (AnyPass<O>, Result<Steps<O>, NoRoom>, u64)
        requires pass { IsPassOf self.now pass }
        requires some { 0 < length calls.now }
        requires few { length calls.now ≤ MOST_CALLS }
        ensures pass { IsPassOf self.now result.0 }
        ensures caller { (view_of_pass result.0).caller ≡ (view_of_pass pass).caller }
        ensures answered { IfOk result.1 (λ s. IsAnswered O.SeqObject (view_of_pass pass) calls.now s (view_of_pass result.0)) }
        ensures refused { OnErr result.1 (IsRefused O.SeqObject (view_of_pass pass) (view_of_pass result.0)) }
        ensures run { HasBatched (view_of_pass pass).caller (run_of_pass pass) result.2 result.1 (run_of_pass result.0) }
    {
        match self {
            AnyCell::Ticket(cell) => batch(rt, cell, pass, calls),
            AnyCell::Mcs(cell) => batch(rt, cell, pass, calls),
        }
    }

    /// Does 1 to 8 groups of 1 to 8 calls each under one hold: one event for each group, and nobody's event between them.
    /// At the first group without room it stops; `done` gets the steps of the groups that were done.
    pub fn with_hold<R: Wait>(
        &self,
        rt: &R,
        pass: AnyPass<O>,
        groups: &[ArrayVec<O::Call, MOST_CALLS>],
        done: &mut ArrayVec<Steps<O>, MOST_GROUPS>,
    ) -> (AnyPass<O>, Result<(), NoRoom>, u64)
        requires pass { IsPassOf self.now pass }
        requires some { 0 < length groups.now }
        requires few { length groups.now ≤ MOST_GROUPS }
        requires each { All (λ g. 0 < length g.items) groups.now }
        requires empty { done.old.items ≡ [] }
        ensures pass { IsPassOf self.now result.0 }
        ensures caller { (view_of_pass result.0).caller ≡ (view_of_pass pass).caller }
        ensures held { IsHeldThrough O.SeqObject (view_of_pass pass) groups.now done.new.items (view_of_pass result.0) }
        ensures whole { OnOk result.1 (length done.new.items ≡ length groups.now) }
        ensures left { OnErr result.1 (length done.new.items < length groups.now) }
        ensures full { OnErr result.1 (length (view_of_pass result.0).seen ≡ (view_of_pass pass).caller.cell.limit) }
        ensures run { HasDoneGroups (view_of_pass pass).caller (run_of_pass pass) result.2 done.new.items (run_of_pass result.0) }
    {
        match self {
            AnyCell::Ticket(cell) => with_hold(rt, cell, pass, groups, done),
            AnyCell::Mcs(cell) => with_hold(rt, cell, pass, groups, done),
        }
    }
}
