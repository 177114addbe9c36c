//! What each kind of object answers, as the reply with the same text.

ghost use Rattle.std.specs.Prelude.{◌≡◌};
ghost use Rattle.kernel_object.specs.{Kinds.Console.of_console, Kinds.Pool.of_pool, Kinds.Queue.of_queue, Kinds.Sched.of_sched};

use crate::KReply;
use console_ring::ConsoleReply;
use page_pool::PoolReply;
use shared_queue::QueueReply;
use wake_list::SchedReply;

impl KReply {
    /// A queue's reply, as the reply with its text.
    #[inline]
    pub fn of_queue(reply: QueueReply) -> KReply
        ensures { result ≡ of_queue reply }
    {
        match reply {
            QueueReply::Ok => KReply::Ok,
            QueueReply::BadThread => KReply::BadThread,
            QueueReply::Already => KReply::Already,
            QueueReply::Empty => KReply::Empty,
            QueueReply::Absent => KReply::Absent,
            QueueReply::Thread(thread) => KReply::Thread(thread),
            QueueReply::Count(count) => KReply::Count(count),
        }
    }

    /// A page pool's reply, as the reply with its text.
    #[inline]
    pub fn of_pool(reply: PoolReply) -> KReply
        ensures { result ≡ of_pool reply }
    {
        match reply {
            PoolReply::Ok => KReply::Ok,
            PoolReply::Page(page) => KReply::Page(page),
            PoolReply::NoPage => KReply::NoPage,
            PoolReply::OverQuota => KReply::OverQuota,
            PoolReply::BadOwner => KReply::BadOwner,
            PoolReply::NotYours => KReply::NotYours,
            PoolReply::NotTaken => KReply::NotTaken,
            PoolReply::BadPage => KReply::BadPage,
            PoolReply::Count(count) => KReply::Count(count),
        }
    }

    /// A console's reply, as the reply with its text.
    #[inline]
    pub fn of_console(reply: ConsoleReply) -> KReply
        ensures { result ≡ of_console reply }
    {
        match reply {
            ConsoleReply::Ok => KReply::Ok,
            ConsoleReply::Dropped(byte) => KReply::Dropped(byte),
            ConsoleReply::Empty => KReply::Empty,
            ConsoleReply::Byte(byte) => KReply::Byte(byte),
            ConsoleReply::Count(count) => KReply::Count(count),
        }
    }

    /// A scheduler's reply, as the reply with its text.
    #[inline]
    pub fn of_sched(reply: SchedReply) -> KReply
        ensures { result ≡ of_sched reply }
    {
        match reply {
            SchedReply::Ok => KReply::Ok,
            SchedReply::BadThread => KReply::BadThread,
            SchedReply::BadChannel => KReply::BadChannel,
            SchedReply::Already => KReply::Already,
            SchedReply::Empty => KReply::Empty,
            SchedReply::Thread(thread) => KReply::Thread(thread),
            SchedReply::Count(count) => KReply::Count(count),
        }
    }
}
