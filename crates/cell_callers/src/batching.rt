//! Batches of calls, by the numbers that C has for them.

ghost use Rattle.std.specs.Prelude.{◌≡◌, ◌≤◌, true, false, Some, None, length};
ghost use Rattle.event_log.specs.declared.event.TheConstants.{MOST_CALLS};
ghost use Rattle.cell_callers.specs.BatchCodes.{batch_calls, AreRepliesTo};

use crate::call_numbers::{Answered, Asked, called_of, reply_code};
use arrayvec::ArrayVec;
use event_log::{MOST_CALLS, Step};
use kernel_object::{KCall, KernelObject};

/// Up to 8 calls: the first `count` of the array. The others are ignored.
#[derive(Clone, Copy, Debug, PartialEq, Eq, Drop)]
#[repr(C)]
pub struct Batch {
    pub count: u32,
    pub calls: [Asked; MOST_CALLS],
}

/// Up to 8 replies: the first `count` of the array.
#[derive(Clone, Copy, Debug, PartialEq, Eq, Drop)]
#[repr(C)]
pub struct Replies {
    pub count: u32,
    pub list: [Answered; MOST_CALLS],
}

/// Writes the calls of these numbers, if each exists. Returns whether each does.
#[inline(never)]
pub fn write_calls(batch: &Batch, calls: &mut ArrayVec<KCall, MOST_CALLS>) -> bool
    requires { batch.now.count ≤ MOST_CALLS }
    ensures there { result ≡ true → batch_calls batch.now ≡ Some calls.new.items }
    ensures count { result ≡ true → length calls.new.items ≡ batch.now.count }
    ensures not_there { result ≡ false → batch_calls batch.now ≡ None }
{
    *calls = ArrayVec::new();
    for asked in &batch.calls[..batch.count as usize] {
        let Some(call) = called_of(asked) else {
            return false;
        };
        calls.push(call);
    }
    true
}

/// Writes the replies of the steps.
#[inline(never)]
pub fn write_replies(steps: &[Step<KernelObject>], replies: &mut Replies)
    requires { length steps.now ≤ MOST_CALLS }
    ensures { AreRepliesTo steps.now replies.new }
{
    let mut count = 0usize;
    for step in steps {
        replies.list[count] = reply_code(step.reply);
        count += 1;
    }
    replies.count = count as u32;
}
