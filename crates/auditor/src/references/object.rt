//! Any object of the kernel, once more.

use crate::ReferenceObject;
use crate::references::{ReferenceConsole, ReferencePool, ReferenceQueue, ReferenceSched};
use event_log::OutOfMemory;
use kernel_object::{KCall, KParams, KReply, KernelObject};
use std::alloc::Global;

/// A second object of one of the four kinds.
#[derive(Drop)]
pub enum ReferenceKernelObject {
    Queue(ReferenceQueue),
    Pool(ReferencePool),
    Console(ReferenceConsole),
    Sched(ReferenceSched),
}

impl ReferenceObject<KernelObject> for ReferenceKernelObject {
    ghost use Rattle.auditor.specs.References.{shown};

    ghost shows = { shown };

    fn open(alloc: Global, params: &KParams) -> Result<ReferenceKernelObject, OutOfMemory> {
        Ok(match params {
            KParams::Queue(threads) => ReferenceKernelObject::Queue(ReferenceQueue::open(
                alloc, threads,
            )?),
            KParams::Pool(params) => ReferenceKernelObject::Pool(ReferencePool::open(
                alloc, params,
            )?),
            KParams::Console(bytes) => ReferenceKernelObject::Console(ReferenceConsole::open(
                alloc, bytes,
            )?),
            KParams::Sched(params) => ReferenceKernelObject::Sched(ReferenceSched::open(
                alloc, params,
            )?),
        })
    }

    fn apply(&mut self, call: &KCall) -> KReply {
        match (self, call) {
            (ReferenceKernelObject::Queue(queue), KCall::Queue(call)) => KReply::of_queue(
                queue.apply(call),
            ),
            (ReferenceKernelObject::Pool(pool), KCall::Pool(call)) => KReply::of_pool(pool.apply(
                call,
            )),
            (ReferenceKernelObject::Console(console), KCall::Console(call)) => {
                KReply::of_console(console.apply(call))
            }
            (ReferenceKernelObject::Sched(sched), KCall::Sched(call)) => KReply::of_sched(
                sched.apply(call),
            ),
            _ => KReply::BadCall,
        }
    }
}
