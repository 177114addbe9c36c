//! Whole calls that don't wait for the object: each is done as by `call` and `batch`, or the object is busy and nothing is
//! done. They look at most once, and take no memory.

ghost use Rattle.std.specs.Prelude.{◌≡◌, ◌<◌, ◌≤◌, [], ◌∷◌, length, IfOk, IfErr};
ghost use Rattle.event_log.specs.Log.{one_step};
ghost use Rattle.word_rule.specs.{Answered.IsAnswered, Passes.{view_of_pass, run_of_pass}};
ghost use Rattle.guarded_cell.specs.{Held.{HasDeclined, HasTried}, Kinds.IsPassOf, Tries.IsDeclined};

use crate::AnyPass;
use crate::cell::AnyCell;
use event_log::{MOST_CALLS, NoRoom, SeqObject, Steps};
use std::sync::Wait;
use word_rule::LockCell;

/// Why a try did nothing.
#[derive(Clone, Copy, Debug, PartialEq, Eq, Drop)]
pub enum Declined {
    /// Another had the object, or was in line for it.
    Busy,
    /// The log has as many events as its limit.
    NoRoom,
}

/// Does 1 to 8 calls as one event of the acting CPU, up to and with the first that is refused, if nobody has the object or is
/// in line for it. It doesn't wait for the object; giving an MCS lock back may wait until a caller that has just come has
/// linked itself.
pub fn try_batch<O: SeqObject, C: LockCell<O>, R: Wait>(
    rt: &R,
    cell: &C,
    pass: C::Pass,
    calls: &[O::Call],
) -> (C::Pass, Result<Steps<O>, Declined>)
    requires pass { C.is_pass_of cell.now pass }
    requires some { 0 < length calls.now }
    requires few { length calls.now ≤ MOST_CALLS }
    ensures pass { C.is_pass_of cell.now result.0 }
    ensures caller { (C.pass_view result.0).caller ≡ (C.pass_view pass).caller }
    ensures answered { IfOk result.1 (λ s. IsAnswered O.SeqObject (C.pass_view pass) calls.now s (C.pass_view result.0)) }
    ensures declined { IfErr result.1 (λ why. IsDeclined O.SeqObject why (C.pass_view pass) (C.pass_view result.0)) }
    ensures run { IfOk result.1 (λ s. HasTried (C.pass_view pass).caller (C.pass_run pass) s (C.pass_run result.0)) }
    ensures declined_run { IfErr result.1 (λ why. HasDeclined why (C.pass_view pass).caller (C.pass_run pass) (C.pass_run result.0)) }
{
    match cell.try_acquire(pass) {
        Ok(mut hold) => {
            let done = C::apply(&mut hold, calls);
            let pass = cell.release(rt, hold);
            match done {
                Ok(steps) => (pass, Ok(steps)),
                Err(NoRoom) => (pass, Err(Declined::NoRoom)),
            }
        }
        Err(pass) => (pass, Err(Declined::Busy)),
    }
}

/// Does a call as one event of the acting CPU, if nobody has the object or is in line for it.
pub fn try_call<O: SeqObject, C: LockCell<O>, R: Wait>(
    rt: &R,
    cell: &C,
    pass: C::Pass,
    call: &O::Call,
) -> (C::Pass, Result<O::Reply, Declined>)
    requires { C.is_pass_of cell.now pass }
    ensures pass { C.is_pass_of cell.now result.0 }
    ensures caller { (C.pass_view result.0).caller ≡ (C.pass_view pass).caller }
    ensures answered { IfOk result.1 (λ r. IsAnswered O.SeqObject (C.pass_view pass) (call.now ∷ []) (one_step call.now r) (C.pass_view result.0)) }
    ensures declined { IfErr result.1 (λ why. IsDeclined O.SeqObject why (C.pass_view pass) (C.pass_view result.0)) }
    ensures run { IfOk result.1 (λ r. HasTried (C.pass_view pass).caller (C.pass_run pass) (one_step call.now r) (C.pass_run result.0)) }
    ensures declined_run { IfErr result.1 (λ why. HasDeclined why (C.pass_view pass).caller (C.pass_run pass) (C.pass_run result.0)) }
{
    match cell.try_acquire(pass) {
        Ok(mut hold) => {
            let done = C::apply_one(&mut hold, call);
            let pass = cell.release(rt, hold);
            match done {
                Ok(reply) => (pass, Ok(reply)),
                Err(NoRoom) => (pass, Err(Declined::NoRoom)),
            }
        }
        Err(pass) => (pass, Err(Declined::Busy)),
    }
}

impl<O: SeqObject> AnyCell<O> {
    /// Does a call as one event of the acting CPU, if nobody has the object or is in line for it.
    pub fn try_call<R: Wait>(
        &self,
        rt: &R,
        pass: AnyPass<O>,
        asked: &O::Call,
    ) -> (AnyPass<O>, Result<O::Reply, Declined>)
        requires { IsPassOf self.now pass }
        ensures pass { IsPassOf self.now result.0 }
        ensures caller { (view_of_pass result.0).caller ≡ (view_of_pass pass).caller }
        ensures answered { IfOk result.1 (λ r. IsAnswered O.SeqObject (view_of_pass pass) (asked.now ∷ []) (one_step asked.now r) (view_of_pass result.0)) }
        ensures declined { IfErr result.1 (λ why. IsDeclined O.SeqObject why (view_of_pass pass) (view_of_pass result.0)) }
        ensures run { IfOk result.1 (λ r. HasTried (view_of_pass pass).caller (run_of_pass pass) (one_step asked.now r) (run_of_pass result.0)) }
        ensures declined_run { IfErr result.1 (λ why. HasDeclined why (view_of_pass pass).caller (run_of_pass pass) (run_of_pass result.0)) }
    {
        try_call(rt, self, pass, asked)
    }

    /// Does 1 to 8 calls as one event of the acting CPU, up to and with the first that is refused, if nobody has the object
    /// or is in line for it.
    pub fn try_batch<R: Wait>(
        &self,
        rt: &R,
        pass: AnyPass<O>,
        calls: &[O::Call],
    ) -> (AnyPass<O>, Result<Steps<O>, Declined>)
        requires pass { IsPassOf self.now pass }
        requires some { 0 < length calls.now }
        requires few { length calls.now ≤ MOST_CALLS }
        ensures pass { IsPassOf self.now result.0 }
        ensures caller { (view_of_pass result.0).caller ≡ (view_of_pass pass).caller }
        ensures answered { IfOk result.1 (λ s. IsAnswered O.SeqObject (view_of_pass pass) calls.now s (view_of_pass result.0)) }
        ensures declined { IfErr result.1 (λ why. IsDeclined O.SeqObject why (view_of_pass pass) (view_of_pass result.0)) }
        ensures run { IfOk result.1 (λ s. HasTried (view_of_pass pass).caller (run_of_pass pass) s (run_of_pass result.0)) }
        ensures declined_run { IfErr result.1 (λ why. HasDeclined why (view_of_pass pass).caller (run_of_pass pass) (run_of_pass result.0)) }
    {
        try_batch(rt, self, pass, calls)
    }
}
