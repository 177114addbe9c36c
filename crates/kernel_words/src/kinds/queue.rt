//! A queue of threads, as one kind of object.

ghost use Rattle.std.specs.{Prelude.◌≡◌, Option.option_map};
ghost use Rattle.kernel_words.specs.{Kinds.Queue.{queue_text, queue_row, queue_filled}, Row.{limit, field_at}, declared.form.TheConstants.WRITTEN};
ghost use Rattle.record_lines.specs.{Output.PutsWords, Reading.left};

use crate::tables::read::limited;
use crate::tables::spelling::first;
use crate::{Field, Spelling};
use event_log::Sink;
use record_lines::{Buffered, Words, put_number};
use shared_queue::{MOST_THREADS, QueueCall};

/// How a call is spelled.
#[inline(always)]
pub fn spelling(call: QueueCall) -> Spelling
    ensures word { result.word.now ≡ (queue_row call).word }
    ensures fields { result.fields.items ≡ (queue_row call).fields }
{
    match call {
        QueueCall::Enq(thread) => Spelling::one(b"enq", Field::wide(thread)),
        QueueCall::Deq => Spelling::word(b"deq"),
        QueueCall::Remove(thread) => Spelling::one(b"remove", Field::wide(thread)),
        QueueCall::Len => Spelling::word(b"len"),
    }
}

/// The call of the same word with these numbers.
#[inline(always)]
pub fn with_numbers(call: QueueCall, numbers: &[u32]) -> QueueCall
    ensures { result ≡ queue_filled call numbers.now }
{
    match call {
        QueueCall::Enq(_) => QueueCall::Enq(first(numbers)),
        QueueCall::Deq => QueueCall::Deq,
        QueueCall::Remove(_) => QueueCall::Remove(first(numbers)),
        QueueCall::Len => QueueCall::Len,
    }
}

/// The number of threads that is next.
pub fn params(at: Words<'_>) -> Option<(u32, Words<'_>)>
    ensures { option_map (λ x. (x.0, left x.1)) result ≡ field_at (limit MOST_THREADS 0) (left at.entry) }
{
    limited(MOST_THREADS, at)
}

/// Puts the number of threads.
pub fn put_params<W: Sink>(text: &mut Buffered<W>, threads: u32)
    ensures { PutsWords W.Sink text.old text.new (queue_text.params_words WRITTEN threads) }
{
    put_number(text, u64::from(threads));
}
