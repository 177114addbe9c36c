//! A queue of threads, once more.

ghost use Rattle.std.specs.Prelude.{◌≡◌, true, length};
ghost use Rattle.event_log.specs.Distinct.{has, without};
ghost use Rattle.shared_queue.specs.Answer.{enq_answer, deq_answer, remove_answer};

use crate::ReferenceObject;
use event_log::OutOfMemory;
use shared_queue::{QueueCall, QueueReply, ThreadQueue};
use std::alloc::Global;
use std::marker::Model;

/// The waiting threads in a row between two gates, a table that says of each thread whether it waits, and how many do. Each
/// place has a cell that names the place behind it, and one that names the place before it. The front gate's place is the
/// number of threads, and the back gate's is one more. So each thread stands between two places, and the first and the
/// last are no special cases.
#[derive(Drop)]
pub struct ReferenceQueue {
    next: Vec<u32>,
    previous: Vec<u32>,
    waits: Vec<bool>,
    count: u32,
}

impl Model for ReferenceQueue {
    ghost use Rattle.std.specs.Prelude.{◌+◌, ◌<◌, ◌^◌, length};
    ghost use Rattle.shared_queue.specs.State.{QueueState};
    ghost use Rattle.auditor.specs.Row.{row_of, IsRow};

    ghost Value = { QueueState };

    ghost view = { λ q. record { threads = length q.waits.items; list = row_of q.next.items (length q.waits.items) q.count } };

    ghost invariant = { λ q. IsRow q.waits.items q.next.items q.previous.items (row_of q.next.items (length q.waits.items) q.count) ×
        (length q.waits.items + 1 < 2 ^ 32) };
}

impl ReferenceQueue {
    fn enq(&mut self, thread: u32) -> QueueReply
        ensures { (self.new, result) ≡ enq_answer self.old thread }
    {
        let place = thread as usize;
        if place >= self.waits.len() {
            return QueueReply::BadThread;
        }
        if self.waits[place] {
            return QueueReply::Already;
        }
        let back = self.waits.len() + 1;
        let last = self.previous[back];
        self.next[last as usize] = thread;
        self.previous[place] = last;
        self.next[place] = back as u32;
        self.previous[back] = thread;
        self.waits[place] = true;
        self.count += 1;
        QueueReply::Ok
    }

    fn deq(&mut self) -> QueueReply
        ensures { (self.new, result) ≡ deq_answer self.old }
    {
        if self.count == 0 {
            return QueueReply::Empty;
        }
        let first = self.next[self.waits.len()];
        self.unlink(first);
        QueueReply::Thread(first)
    }

    fn take_out(&mut self, thread: u32) -> QueueReply
        ensures { (self.new, result) ≡ remove_answer self.old thread }
    {
        let place = thread as usize;
        if place >= self.waits.len() {
            return QueueReply::BadThread;
        }
        if !self.waits[place] {
            return QueueReply::Absent;
        }
        self.unlink(thread);
        QueueReply::Ok
    }

    /// Links the place before a thread that waits and the place behind it.
    fn unlink(&mut self, thread: u32)
        requires { has thread self.old.list ≡ true }
        ensures { self.new ≡ record self.old { list = without thread self.old.list } }
    {
        let place = thread as usize;
        let before = self.previous[place];
        let behind = self.next[place];
        self.next[before as usize] = behind;
        self.previous[behind as usize] = before;
        self.waits[place] = false;
        self.count -= 1;
    }

    fn count(&self) -> u32
        ensures { result ≡ length self.now.list }
    {
        self.count
    }
}

impl ReferenceObject<ThreadQueue> for ReferenceQueue {
    ghost shows = { λ q. q };

    fn open(alloc: Global, params: &u32) -> Result<ReferenceQueue, OutOfMemory> {
        let threads = *params as usize;
        let mut next = vec![in alloc; 0; threads + 2]?;
        let mut previous = vec![in alloc; 0; threads + 2]?;
        next[threads] = *params + 1;
        previous[threads + 1] = *params;
        let waits = vec![in alloc; false; threads]?;
        Ok(ReferenceQueue {
            next,
            previous,
            waits,
            count: 0,
        })
    }

    fn apply(&mut self, call: &QueueCall) -> QueueReply {
        match *call {
            QueueCall::Enq(thread) => self.enq(thread),
            QueueCall::Deq => self.deq(),
            QueueCall::Remove(thread) => self.take_out(thread),
            QueueCall::Len => QueueReply::Count(self.count()),
        }
    }
}
