//! Values that are found fast.

use crate::Spelled;
use crate::tables::read::value_of;
use console_ring::ConsoleCall;
use kernel_object::{KCall, KReply};
use page_pool::PoolCall;
use record_lines::Words;
use shared_queue::QueueCall;
use wake_list::SchedCall;

/// Values whose words a few bytes distinguish.
pub trait FastRead: Spelled {
    ghost use Rattle.std.specs.Prelude.{◌≡◌, Some, IfSome};
    ghost use Rattle.record_lines.specs.Reading.{left};
    ghost use Rattle.kernel_words.specs.Row.{value_at};

    /// The value that is next and the words behind it, without going through the table. Where none is found, one may be
    /// there.
    fn read_fast(at: Words<'_>) -> Option<(Self, Words<'_>)>
        ensures { IfSome result (λ x. value_at Self.row_of Self.table Self.filled (left at.entry) ≡ Some (x.0, left x.1)) };
}

impl FastRead for KCall {
    #[inline(always)]
    fn read_fast(at: Words<'_>) -> Option<(KCall, Words<'_>)> {
        match at? {
            [b'a', ..] => value_of(KCall::Pool(PoolCall::Alloc(0)), at),
            [b'd', ..] => value_of(KCall::Queue(QueueCall::Deq), at),
            [b'e', ..] => value_of(KCall::Queue(QueueCall::Enq(0)), at),
            [b'f', ..] => value_of(KCall::Pool(PoolCall::Free { owner: 0, page: 0 }), at),
            [b'g', ..] => value_of(KCall::Console(ConsoleCall::Get), at),
            [b'l', b'e', b'n', ..] => value_of(KCall::Queue(QueueCall::Len), at),
            [b'l', b'e', b'f', ..] => value_of(KCall::Pool(PoolCall::Left), at),
            [b'l', ..] => value_of(KCall::Console(ConsoleCall::Level), at),
            [b'n', ..] => value_of(KCall::Sched(SchedCall::Next), at),
            [b'p', ..] => value_of(KCall::Console(ConsoleCall::Put(0)), at),
            [b'r', b'e', b'm', ..] => value_of(KCall::Queue(QueueCall::Remove(0)), at),
            [b'r', ..] => value_of(KCall::Sched(SchedCall::Ready(0)), at),
            [b's', ..] => value_of(
                KCall::Sched(SchedCall::Sleep {
                    channel: 0,
                    thread: 0,
                }),
                at,
            ),
            [b'w', _, _, _, b' ', ..] => value_of(KCall::Sched(SchedCall::Wake(0)), at),
            [b'w', ..] => value_of(KCall::Sched(SchedCall::WakeAll(0)), at),
            _ => None,
        }
    }
}

impl FastRead for KReply {
    #[inline(always)]
    fn read_fast(at: Words<'_>) -> Option<(KReply, Words<'_>)> {
        match at? {
            [b'o', b'k', ..] => value_of(KReply::Ok, at),
            [b'o', ..] => value_of(KReply::OverQuota, at),
            [b'a', b'l', ..] => value_of(KReply::Already, at),
            [b'a', ..] => value_of(KReply::Absent, at),
            [b'c', ..] => value_of(KReply::Count(0), at),
            [b'd', ..] => value_of(KReply::Dropped(0), at),
            [b'e', ..] => value_of(KReply::Empty, at),
            [b'n', b'o', b'n', ..] => value_of(KReply::NoPage, at),
            [b'n', b'o', b't', b'y', ..] => value_of(KReply::NotYours, at),
            [b'n', ..] => value_of(KReply::NotTaken, at),
            [b'p', ..] => value_of(KReply::Page(0), at),
            [b't', ..] => value_of(KReply::Thread(0), at),
            [b'b', b'y', ..] => value_of(KReply::Byte(0), at),
            [b'b', _, _, b'p', ..] => value_of(KReply::BadPage, at),
            [b'b', _, _, b'o', ..] => value_of(KReply::BadOwner, at),
            [b'b', _, _, b't', ..] => value_of(KReply::BadThread, at),
            [b'b', _, _, b'c', b'a', ..] => value_of(KReply::BadCall, at),
            [b'b', ..] => value_of(KReply::BadChannel, at),
            _ => None,
        }
    }
}
