//! Any object of the kernel, as a sequential object.

use crate::{KCall, KParams, KReply};
use console_ring::Console;
use event_log::{OpenFault, SeqObject};
use page_pool::PagePool;
use shared_queue::ThreadQueue;
use std::alloc::Global;
use wake_list::Sched;

/// An object of one of the four kinds.
#[derive(Drop)]
pub enum KernelObject {
    Queue(ThreadQueue),
    Pool(PagePool),
    Console(Console),
    Sched(Sched),
}

impl SeqObject for KernelObject {
    ghost use Rattle.kernel_object.specs.Kernel.{kernel_in_range, kernel_opening, kernel_answer, kernel_refusing};
    ghost use Rattle.std.proofs.Common.{lit<, rules};

    type Params = KParams;

    type Call = KCall;

    type Reply = KReply;

    ghost in_range = { kernel_in_range };

    ghost opening = { kernel_opening };

    ghost answer = { kernel_answer };

    ghost refusing = { kernel_refusing };

    ghost stays = { Prim.search rules };

    ghost call_equality = { Prim.search rules };

    ghost reply_equality = { Prim.search rules };

    ghost call_fits = { lit< tt };

    ghost todo_fits = { lit< tt };

    ghost steps_fit = { lit< tt };

    ghost event_fits = { lit< tt };

    ghost entry_fits = { lit< tt };

    fn open(alloc: Global, params: &KParams) -> Result<KernelObject, OpenFault> {
        Ok(match params {
            KParams::Queue(threads) => KernelObject::Queue(ThreadQueue::open(alloc, threads)?),
            KParams::Pool(params) => KernelObject::Pool(PagePool::open(alloc, params)?),
            KParams::Console(bytes) => KernelObject::Console(Console::open(alloc, bytes)?),
            KParams::Sched(params) => KernelObject::Sched(Sched::open(alloc, params)?),
        })
    }

    #[inline]
    fn apply(&mut self, call: &KCall) -> KReply {
        match (self, call) {
            (KernelObject::Queue(queue), KCall::Queue(call)) => {
                KReply::of_queue(queue.apply(call))
            }
            (KernelObject::Pool(pool), KCall::Pool(call)) => KReply::of_pool(pool.apply(call)),
            (KernelObject::Console(console), KCall::Console(call)) => {
                KReply::of_console(console.apply(call))
            }
            (KernelObject::Sched(sched), KCall::Sched(call)) => KReply::of_sched(sched.apply(call)),
            _ => KReply::BadCall,
        }
    }

    fn refuses(reply: &KReply) -> bool {
        match *reply {
            KReply::Already
            | KReply::BadThread
            | KReply::Empty
            | KReply::Absent
            | KReply::NoPage
            | KReply::OverQuota
            | KReply::BadOwner
            | KReply::NotYours
            | KReply::NotTaken
            | KReply::BadPage
            | KReply::BadChannel
            | KReply::BadCall => true,
            KReply::Ok
            | KReply::Thread(_)
            | KReply::Count(_)
            | KReply::Page(_)
            | KReply::Dropped(_)
            | KReply::Byte(_) => false,
        }
    }
}
