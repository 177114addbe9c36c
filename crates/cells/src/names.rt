//! The calls by name that C has on a caller, for those that are made most. Each performs a whole call and returns as
//! `mc2_poll_call` does. The call is known when the library is compiled, so no code for other calls is executed. At an object of
//! another kind it is an event too, with the reply `badcall`.

ghost use Rattle.cells.specs.Exports.{caller_of};
ghost use Rattle.cell_callers.specs.CallReports.{ReportsCallOf};
ghost use Rattle.kernel_object.specs.declared.call.KCall.TheVariants.{Queue, Sched};
ghost use Rattle.shared_queue.specs.declared.call.QueueCall.TheVariants as queue;
ghost use Rattle.wake_list.specs.declared.call.SchedCall.TheVariants as sched;

use crate::exports::call_of;
use cell_callers::{Answered, CallerHandle};
use kernel_object::KCall;
use shared_queue::QueueCall;
use wake_list::SchedCall;

/// Puts the thread at the end of a queue.
#[unsafe(no_mangle)]
pub extern "C" fn mc2_poll_enq(
    caller: &mut CallerHandle,
    thread: u32,
    answered: &mut Answered,
    looks: &mut u64,
) -> u32
    ensures { ReportsCallOf (Queue (queue.Enq thread)) (caller_of caller.old) (answered.old, looks.old) result (caller_of caller.new) (answered.new, looks.new) }
{
    call_of(
        caller,
        KCall::Queue(QueueCall::Enq(thread)),
        answered,
        looks,
    )
}

/// Takes the first thread of a queue.
#[unsafe(no_mangle)]
pub extern "C" fn mc2_poll_deq(
    caller: &mut CallerHandle,
    answered: &mut Answered,
    looks: &mut u64,
) -> u32
    ensures { ReportsCallOf (Queue queue.Deq) (caller_of caller.old) (answered.old, looks.old) result (caller_of caller.new) (answered.new, looks.new) }
{
    call_of(caller, KCall::Queue(QueueCall::Deq), answered, looks)
}

/// Puts the thread at the end of the ready list.
#[unsafe(no_mangle)]
pub extern "C" fn mc2_poll_ready(
    caller: &mut CallerHandle,
    thread: u32,
    answered: &mut Answered,
    looks: &mut u64,
) -> u32
    ensures { ReportsCallOf (Sched (sched.Ready thread)) (caller_of caller.old) (answered.old, looks.old) result (caller_of caller.new) (answered.new, looks.new) }
{
    call_of(
        caller,
        KCall::Sched(SchedCall::Ready(thread)),
        answered,
        looks,
    )
}

/// Takes the first ready thread.
#[unsafe(no_mangle)]
pub extern "C" fn mc2_poll_next(
    caller: &mut CallerHandle,
    answered: &mut Answered,
    looks: &mut u64,
) -> u32
    ensures { ReportsCallOf (Sched sched.Next) (caller_of caller.old) (answered.old, looks.old) result (caller_of caller.new) (answered.new, looks.new) }
{
    call_of(caller, KCall::Sched(SchedCall::Next), answered, looks)
}
