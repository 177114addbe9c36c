//! The tables of calls and replies.

use crate::kinds::{console, pool, queue, sched};
use crate::tables::spelling::first;
use crate::{Field, Spelled, Spelling};
use console_ring::ConsoleCall;
use kernel_object::{KCall, KReply};
use page_pool::PoolCall;
use shared_queue::QueueCall;
use wake_list::SchedCall;

impl Spelled for KCall {
    ghost use Rattle.kernel_words.specs.{Rows.{call_row, call_samples, call_filled}, Tables.call_table};

    ghost row_of = { call_row };

    ghost table = { call_samples };

    ghost filled = { call_filled };

    ghost right = { call_table };

    #[inline(always)]
    fn spelling(&self) -> Spelling {
        match *self {
            KCall::Queue(call) => queue::spelling(call),
            KCall::Pool(call) => pool::spelling(call),
            KCall::Console(call) => console::spelling(call),
            KCall::Sched(call) => sched::spelling(call),
        }
    }

    fn samples() -> &'static [KCall] {
        &[
            KCall::Queue(QueueCall::Enq(0)),
            KCall::Queue(QueueCall::Deq),
            KCall::Queue(QueueCall::Remove(0)),
            KCall::Queue(QueueCall::Len),
            KCall::Pool(PoolCall::Alloc(0)),
            KCall::Pool(PoolCall::Free { owner: 0, page: 0 }),
            KCall::Pool(PoolCall::Left),
            KCall::Console(ConsoleCall::Put(0)),
            KCall::Console(ConsoleCall::Get),
            KCall::Console(ConsoleCall::Level),
            KCall::Sched(SchedCall::Ready(0)),
            KCall::Sched(SchedCall::Next),
            KCall::Sched(SchedCall::Sleep {
                channel: 0,
                thread: 0,
            }),
            KCall::Sched(SchedCall::Wake(0)),
            KCall::Sched(SchedCall::WakeAll(0)),
        ]
    }

    #[inline(always)]
    fn with_numbers(&self, numbers: &[u32]) -> KCall {
        match *self {
            KCall::Queue(call) => KCall::Queue(queue::with_numbers(call, numbers)),
            KCall::Pool(call) => KCall::Pool(pool::with_numbers(call, numbers)),
            KCall::Console(call) => KCall::Console(console::with_numbers(call, numbers)),
            KCall::Sched(call) => KCall::Sched(sched::with_numbers(call, numbers)),
        }
    }
}

impl Spelled for KReply {
    ghost use Rattle.kernel_words.specs.{Rows.{reply_row, reply_samples, reply_filled}, Tables.reply_table};

    ghost row_of = { reply_row };

    ghost table = { reply_samples };

    ghost filled = { reply_filled };

    ghost right = { reply_table };

    #[inline(always)]
    fn spelling(&self) -> Spelling {
        match *self {
            KReply::Ok => Spelling::word(b"ok"),
            KReply::Already => Spelling::word(b"already"),
            KReply::BadThread => Spelling::word(b"badthread"),
            KReply::Thread(thread) => Spelling::one(b"thread", Field::wide(thread)),
            KReply::Empty => Spelling::word(b"empty"),
            KReply::Absent => Spelling::word(b"absent"),
            KReply::Count(count) => Spelling::one(b"count", Field::wide(count)),
            KReply::Page(page) => Spelling::one(b"page", Field::wide(page)),
            KReply::NoPage => Spelling::word(b"none"),
            KReply::OverQuota => Spelling::word(b"overquota"),
            KReply::BadOwner => Spelling::word(b"badowner"),
            KReply::NotYours => Spelling::word(b"notyours"),
            KReply::NotTaken => Spelling::word(b"nottaken"),
            KReply::BadPage => Spelling::word(b"badpage"),
            KReply::Dropped(byte) => Spelling::one(b"dropped", Field::byte(byte)),
            KReply::Byte(byte) => Spelling::one(b"byte", Field::byte(byte)),
            KReply::BadChannel => Spelling::word(b"badchannel"),
            KReply::BadCall => Spelling::word(b"badcall"),
        }
    }

    fn samples() -> &'static [KReply] {
        &[
            KReply::Ok,
            KReply::Already,
            KReply::BadThread,
            KReply::Thread(0),
            KReply::Empty,
            KReply::Absent,
            KReply::Count(0),
            KReply::Page(0),
            KReply::NoPage,
            KReply::OverQuota,
            KReply::BadOwner,
            KReply::NotYours,
            KReply::NotTaken,
            KReply::BadPage,
            KReply::Dropped(0),
            KReply::Byte(0),
            KReply::BadChannel,
            KReply::BadCall,
        ]
    }

    #[inline(always)]
    fn with_numbers(&self, numbers: &[u32]) -> KReply {
        match *self {
            KReply::Thread(_) => KReply::Thread(first(numbers)),
            KReply::Count(_) => KReply::Count(first(numbers)),
            KReply::Page(_) => KReply::Page(first(numbers)),
            KReply::Dropped(_) => KReply::Dropped(first(numbers) as u8),
            KReply::Byte(_) => KReply::Byte(first(numbers) as u8),
            reply => reply,
        }
    }
}
