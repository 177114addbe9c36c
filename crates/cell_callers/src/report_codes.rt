//! The results of calls, as the numbers that C gets.

ghost use Rattle.std.specs.Prelude.{◌≡◌};
ghost use Rattle.cell_callers.specs.{Codes.{progress_code, try_code, answer_code, kept_code, call_code, looks_after, has_looked, opening_code}, BatchCodes.ReportsAll};

use crate::Whole;
use crate::batching::{Replies, write_replies};
use crate::call_numbers::{Answered, reply_code};
use crate::opening::NotOpened;
use event_log::{NoRoom, Steps};
use kernel_object::{KReply, KernelObject};
use word_rule::Progress;

/// Success.
pub const DONE: u32 = 0;

/// The caller is in line, and its turn hasn't come.
pub const AGAIN: u32 = 1;

/// The caller holds the lock: without a look, or by a look.
pub const ACQUIRED: u32 = 2;

pub const ACQUIRED_BY_LOOK: u32 = 3;

/// The lock is released, and the caller is idle.
pub const RELEASED: u32 = 4;

/// The handle isn't in a state that allows the call. Nothing was changed.
pub const REFUSED: u32 = 5;

/// Of a try: another caller holds the lock, or is in line for it.
pub const BUSY: u32 = 6;

/// One step of the lock is done.
pub const STEPPED: u32 = 7;

/// The log is full, and nothing was done; there is no such call, or no such step.
pub const LOG_FULL: u32 = 8;

pub const NOT_FOUND: u32 = 9;

/// Of an opening: memory was refused, or an argument is out of range.
pub const NO_MEMORY: u32 = 10;

pub const BAD_PARAM: u32 = 11;

/// It was done, or the log was full, but the caller still holds the lock.
pub const DONE_HELD: u32 = 12;

pub const LOG_FULL_HELD: u32 = 13;

/// The result of a step.
pub fn progress_code(reported: Option<Progress>) -> u32
    ensures { result ≡ progress_code reported }
{
    match reported {
        Some(Progress::Stepped) => STEPPED,
        Some(Progress::Looked) => AGAIN,
        Some(Progress::Entered) => ACQUIRED,
        Some(Progress::Found) => ACQUIRED_BY_LOOK,
        Some(Progress::Left) => RELEASED,
        None => REFUSED,
    }
}

/// The result of a try.
pub fn try_code(reported: Option<bool>) -> u32
    ensures { result ≡ try_code reported }
{
    match reported {
        Some(true) => ACQUIRED_BY_LOOK,
        Some(false) => BUSY,
        None => REFUSED,
    }
}

/// The result of an answer, which is written if the call was done.
#[inline]
pub fn answer_code(
    done: Result<KReply, NoRoom>,
    done_as: u32,
    full_as: u32,
    answered: &mut Answered,
) -> u32
    ensures { (result, answered.new) ≡ answer_code done_as full_as answered.old done }
{
    match done {
        Ok(reply) => {
            *answered = reply_code(reply);
            done_as
        }
        Err(NoRoom) => full_as,
    }
}

/// The result of a call whose lock isn't released yet, from its result otherwise.
pub fn kept_code(reported: u32) -> u32
    ensures { result ≡ kept_code reported }
{
    if reported == DONE {
        DONE_HELD
    } else {
        LOG_FULL_HELD
    }
}

/// Adds one to the looks, if there was a look.
#[inline]
pub fn count_look(looked: bool, looks: &mut u64)
    ensures { looks.new ≡ looks_after looked looks.old }
{
    if looked {
        *looks = looks.wrapping_add(1);
    }
}

/// The result of a whole call. The reply is written if it was done, and the look is counted.
#[inline]
pub fn call_code(
    whole: Whole<Result<KReply, NoRoom>>,
    answered: &mut Answered,
    looks: &mut u64,
) -> u32
    ensures code { (result, answered.new) ≡ call_code answered.old whole }
    ensures looks { looks.new ≡ looks_after (has_looked whole) looks.old }
{
    let (done, looked, done_as, full_as) = match whole {
        Whole::Done(done, looked) => (done, looked, DONE, LOG_FULL),
        Whole::Kept(done, looked) => (done, looked, DONE_HELD, LOG_FULL_HELD),
        Whole::Waits => {
            count_look(true, looks);
            return AGAIN;
        }
        Whole::Refused => return REFUSED,
    };
    count_look(looked, looks);
    answer_code(done, done_as, full_as, answered)
}

/// The result of the steps that were done, whose replies are written.
pub fn steps_code(
    done: Result<Steps<KernelObject>, NoRoom>,
    done_as: u32,
    full_as: u32,
    replies: &mut Replies,
) -> u32
    ensures { ReportsAll done_as full_as done result replies.old replies.new }
{
    match done {
        Ok(steps) => {
            write_replies(steps.list.as_slice(), replies);
            done_as
        }
        Err(NoRoom) => full_as,
    }
}

/// The result of an opening.
pub fn opening_code(reported: Result<(), NotOpened>) -> u32
    ensures { result ≡ opening_code reported }
{
    match reported {
        Ok(()) => DONE,
        Err(NotOpened::NotEmpty) => REFUSED,
        Err(NotOpened::OutOfMemory) => NO_MEMORY,
        Err(NotOpened::BadOpening) => BAD_PARAM,
    }
}
