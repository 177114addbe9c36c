//! Calls and replies by the numbers that C has for them.

ghost use Rattle.std.specs.Prelude.{◌≡◌};
ghost use Rattle.cell_callers.specs.Coding.{called_of, reply_code};

use console_ring::ConsoleCall;
use kernel_object::{KCall, KReply};
use page_pool::PoolCall;
use shared_queue::QueueCall;
use wake_list::SchedCall;

/// A call: which it is, and its numbers. A number that the call doesn't have is ignored.
#[derive(Clone, Copy, Debug, PartialEq, Eq, Drop)]
#[repr(C)]
pub struct Asked {
    pub word: u32,
    pub first: u32,
    pub second: u32,
}

/// A reply: which it is, and its number, or 0 if it has none.
#[derive(Clone, Copy, Debug, PartialEq, Eq, Drop)]
#[repr(C)]
pub struct Answered {
    pub word: u32,
    pub number: u32,
}

/// The call of these numbers.
#[inline(never)]
pub fn called_of(asked: &Asked) -> Option<KCall>
    ensures { result ≡ called_of asked.now }
{
    let Asked {
        word,
        first,
        second,
    } = *asked;
    let call = match word {
        0 => KCall::Queue(QueueCall::Enq(first)),
        1 => KCall::Queue(QueueCall::Deq),
        2 => KCall::Queue(QueueCall::Remove(first)),
        3 => KCall::Queue(QueueCall::Len),
        4 => KCall::Pool(PoolCall::Alloc(first)),
        5 => KCall::Pool(PoolCall::Free {
            owner: first,
            page: second,
        }),
        6 => KCall::Pool(PoolCall::Left),
        7 => {
            if first > 255 {
                return None;
            }
            KCall::Console(ConsoleCall::Put(first as u8))
        }
        8 => KCall::Console(ConsoleCall::Get),
        9 => KCall::Console(ConsoleCall::Level),
        10 => KCall::Sched(SchedCall::Ready(first)),
        11 => KCall::Sched(SchedCall::Next),
        12 => KCall::Sched(SchedCall::Sleep {
            channel: first,
            thread: second,
        }),
        13 => KCall::Sched(SchedCall::Wake(first)),
        14 => KCall::Sched(SchedCall::WakeAll(first)),
        _ => return None,
    };
    Some(call)
}

/// The numbers of the reply.
#[inline]
pub fn reply_code(reply: KReply) -> Answered
    ensures { result ≡ reply_code reply }
{
    let (word, number) = match reply {
        KReply::Ok => (0, 0),
        KReply::Thread(number) => (1, number),
        KReply::Count(number) => (2, number),
        KReply::Page(number) => (3, number),
        KReply::Dropped(byte) => (4, u32::from(byte)),
        KReply::Byte(byte) => (5, u32::from(byte)),
        KReply::BadThread => (6, 0),
        KReply::Already => (7, 0),
        KReply::Empty => (8, 0),
        KReply::Absent => (9, 0),
        KReply::BadOwner => (10, 0),
        KReply::NoPage => (11, 0),
        KReply::OverQuota => (12, 0),
        KReply::BadPage => (13, 0),
        KReply::NotTaken => (14, 0),
        KReply::NotYours => (15, 0),
        KReply::BadChannel => (16, 0),
        KReply::BadCall => (17, 0),
    };
    Answered { word, number }
}
