//! The exports that take a caller: single steps of the lock, tries and whole calls.

ghost use Rattle.std.specs.Prelude.{◌<◌, ◌≤◌, length};
ghost use Rattle.event_log.specs.declared.event.TheConstants.{MOST_CALLS};
ghost use Rattle.cell_callers.specs.{BatchReports.ReportsBatchIn, CallReports.ReportsCallOf, CallerContents.{IsAcquireStepIn, IsReleaseStepIn, IsTryIn, IsApplyIn, IsTryCallIn}};
ghost use Rattle.cells.specs.Exports.{caller_of, ReportsAcquireStep, ReportsReleaseStep, ReportsTry, ReportsApply, ReportsCall, ReportsBatch, ReportsTryCall};

use arrayvec::ArrayVec;
use c_handle::{at_content, at_content_with};
use cell_callers::{
    Answered, Asked, BUSY, Batch, CallerContent, CallerHandle, DONE, DONE_HELD, LOG_FULL,
    LOG_FULL_HELD, NOT_FOUND, REFUSED, Replies, TriedCall, answer_code, batch_in_place,
    call_straight, called_of, progress_code, try_code, write_calls,
};
use event_log::MOST_CALLS;
use kernel_object::KCall;

/// Performs the caller's next step towards the lock: one atomic operation on one word of it.
/// Returns STEPPED: call again at once; AGAIN: pause first; ACQUIRED, ACQUIRED_BY_LOOK; REFUSED: it already holds the lock, or
/// isn't a caller.
#[unsafe(no_mangle)]
pub extern "C" fn mc2_acquire_step(caller: &mut CallerHandle) -> u32
    ensures { ReportsAcquireStep (caller_of caller.old) result (caller_of caller.new) }
{
    progress_code(at_content(
        caller,
        (),
        |content, ()|
            ensures { IsAcquireStepIn content.old result content.new }
        {
            match content {
                CallerContent::Caller(caller) => caller.acquire_step(),
                CallerContent::Empty => None,
            }
        },
    ))
}

/// Performs the caller's next step to release the lock.
/// Returns STEPPED; AGAIN: a successor has entered an MCS queue and hasn't linked itself yet; RELEASED; REFUSED: it doesn't hold
/// the lock, or isn't a caller.
#[unsafe(no_mangle)]
pub extern "C" fn mc2_release_step(caller: &mut CallerHandle) -> u32
    ensures { ReportsReleaseStep (caller_of caller.old) result (caller_of caller.new) }
{
    progress_code(at_content(
        caller,
        (),
        |content, ()|
            ensures { IsReleaseStepIn content.old result content.new }
        {
            match content {
                CallerContent::Caller(caller) => caller.release_step(),
                CallerContent::Empty => None,
            }
        },
    ))
}

/// Acquires the lock if no one holds it or is in line, by one look at most.
/// Returns ACQUIRED_BY_LOOK; BUSY: nothing was done; REFUSED: the caller isn't idle, or isn't a caller.
#[unsafe(no_mangle)]
pub extern "C" fn mc2_poll_try_acquire(caller: &mut CallerHandle) -> u32
    ensures { ReportsTry (caller_of caller.old) result (caller_of caller.new) }
{
    try_code(at_content(
        caller,
        (),
        |content, ()|
            ensures { IsTryIn content.old result content.new }
        {
            match content {
                CallerContent::Caller(caller) => caller.try_hold(),
                CallerContent::Empty => None,
            }
        },
    ))
}

/// Performs one call as one event of the log. The caller must hold the lock.
/// Returns DONE: the reply is written; LOG_FULL, NOT_FOUND: nothing was done; REFUSED: it doesn't hold the lock.
#[unsafe(no_mangle)]
pub extern "C" fn mc2_handle_apply(
    caller: &mut CallerHandle,
    asked: &Asked,
    answered: &mut Answered,
) -> u32
    ensures { ReportsApply (caller_of caller.old) asked.now answered.old result (caller_of caller.new) answered.new }
{
    let Some(call) = called_of(asked) else {
        return NOT_FOUND;
    };
    match at_content(
        caller,
        &call,
        |content, call|
            ensures { IsApplyIn call.now content.old result content.new }
        {
            match content {
                CallerContent::Caller(caller) => caller.apply(call),
                CallerContent::Empty => None,
            }
        },
    ) {
        Some(done) => answer_code(done, DONE, LOG_FULL, answered),
        None => REFUSED,
    }
}

/// Performs that call, as `mc2_poll_call` does.
#[inline]
pub fn call_of(
    caller: &mut CallerHandle,
    call: KCall,
    answered: &mut Answered,
    looks: &mut u64,
) -> u32
    ensures { ReportsCallOf call (caller_of caller.old) (answered.old, looks.old) result (caller_of caller.new) (answered.new, looks.new) }
{
    at_content_with(
        caller,
        call,
        answered,
        looks,
        |content, call, answered, looks|
            ensures { ReportsCallOf call content.old (answered.old, looks.old) result content.new (answered.new, looks.new) }
        {
            match content {
                CallerContent::Caller(caller) => call_straight(caller, call, answered, looks),
                CallerContent::Empty => REFUSED,
            }
        },
    )
}

/// Acquires the lock, performs the call as one event, and releases the lock, as far as this needs no waiting. A look adds 1 to
/// `looks`; there is at most one.
/// Returns DONE: the reply is written; LOG_FULL: the call wasn't performed; AGAIN: the caller is in line, and the object is
/// untouched; DONE_HELD, LOG_FULL_HELD: the same as without HELD, but the caller still holds the lock, as a successor hasn't linked
/// itself yet; NOT_FOUND: there is no such call; REFUSED: the caller isn't idle or at a look.
#[unsafe(no_mangle)]
pub extern "C" fn mc2_poll_call(
    caller: &mut CallerHandle,
    asked: &Asked,
    answered: &mut Answered,
    looks: &mut u64,
) -> u32
    ensures { ReportsCall (caller_of caller.old) asked.now (answered.old, looks.old) result (caller_of caller.new) (answered.new, looks.new) }
{
    let Some(call) = called_of(asked) else {
        return NOT_FOUND;
    };
    call_of(caller, call, answered, looks)
}

/// Performs 1 to 8 calls as one event, as far as this needs no waiting. The event ends with the first call whose reply refuses it.
/// Returns as `mc2_poll_call`. REFUSED also for 0 or more than 8 calls; NOT_FOUND: one of the calls doesn't exist, and nothing was
/// done. The replies are written if the event was performed.
#[unsafe(no_mangle)]
pub extern "C" fn mc2_poll_batch(
    caller: &mut CallerHandle,
    batch: &Batch,
    replies: &mut Replies,
    looks: &mut u64,
) -> u32
    ensures { ReportsBatch (caller_of caller.old) batch.now (replies.old, looks.old) result (caller_of caller.new) (replies.new, looks.new) }
{
    if batch.count == 0 || batch.count > MOST_CALLS as u32 {
        return REFUSED;
    }
    let mut calls = ArrayVec::new();
    if !write_calls(batch, &mut calls) {
        return NOT_FOUND;
    }
    at_content_with(
        caller,
        calls.as_slice(),
        replies,
        looks,
        |content, calls, replies, looks|
            requires some { 0 < length calls.now }
            requires few { length calls.now ≤ MOST_CALLS }
            ensures { ReportsBatchIn calls.now content.old (replies.old, looks.old) result content.new (replies.new, looks.new) }
        {
            match content {
                CallerContent::Caller(caller) => batch_in_place(caller, calls, replies, looks),
                CallerContent::Empty => REFUSED,
            }
        },
    )
}

/// Performs a whole call if no one holds the lock or is in line. It never joins the line.
/// Returns as `mc2_poll_call`, with BUSY in place of AGAIN: nothing was done. REFUSED: the caller isn't idle, or isn't a caller.
#[unsafe(no_mangle)]
pub extern "C" fn mc2_poll_try_call(
    caller: &mut CallerHandle,
    asked: &Asked,
    answered: &mut Answered,
) -> u32
    ensures { ReportsTryCall (caller_of caller.old) asked.now answered.old result (caller_of caller.new) answered.new }
{
    let Some(call) = called_of(asked) else {
        return NOT_FOUND;
    };
    match at_content(
        caller,
        &call,
        |content, call|
            ensures { IsTryCallIn call.now content.old result content.new }
        {
            match content {
                CallerContent::Caller(caller) => caller.try_call(call),
                CallerContent::Empty => TriedCall::Refused,
            }
        },
    ) {
        TriedCall::Done(done) => answer_code(done, DONE, LOG_FULL, answered),
        TriedCall::Kept(done) => answer_code(done, DONE_HELD, LOG_FULL_HELD, answered),
        TriedCall::Busy => BUSY,
        TriedCall::Refused => REFUSED,
    }
}
