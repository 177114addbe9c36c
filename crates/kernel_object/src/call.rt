//! What an object of the kernel is opened with, what it is asked, and what it answers.

use console_ring::ConsoleCall;
use page_pool::{PoolCall, PoolParams};
use shared_queue::QueueCall;
use wake_list::{SchedCall, SchedParams};

/// What an object is opened with, by its kind.
#[derive(Clone, Copy, Debug, PartialEq, Eq, Drop)]
pub enum KParams {
    /// The number of threads.
    Queue(u32),
    /// The number of pages, and the quota of each owner.
    Pool(PoolParams),
    /// The number of bytes.
    Console(u32),
    Sched(SchedParams),
}

/// A call on an object of that kind.
#[derive(Clone, Copy, Debug, PartialEq, Eq, Drop)]
pub enum KCall {
    Queue(QueueCall),
    Pool(PoolCall),
    Console(ConsoleCall),
    Sched(SchedCall),
}

impl Default for KCall {
    fn default() -> KCall {
        KCall::Queue(QueueCall::Deq)
    }
}

/// The reply to a call, one for each text: what two kinds of objects answer in the same words is one reply.
#[derive(Clone, Copy, Debug, Default, PartialEq, Eq, Drop)]
pub enum KReply {
    #[default]
    Ok,
    Already,
    BadThread,
    Thread(u32),
    Empty,
    Absent,
    Count(u32),
    Page(u32),
    NoPage,
    OverQuota,
    BadOwner,
    NotYours,
    NotTaken,
    BadPage,
    Dropped(u8),
    Byte(u8),
    BadChannel,
    /// Refused: the call is of another kind of object.
    BadCall,
}
