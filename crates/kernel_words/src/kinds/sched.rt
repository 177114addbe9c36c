//! A scheduler, as one kind of object.

ghost use Rattle.std.specs.{Prelude.◌≡◌, Option.option_map};
ghost use Rattle.kernel_object.specs.declared.kind.Kind.TheVariants.{Sched};
ghost use Rattle.kernel_words.specs.{Kinds.Sched.{sched_text, sched_row, sched_filled, sched_params_at}, declared.form.TheConstants.WRITTEN};
ghost use Rattle.record_lines.specs.{Output.PutsWords, Reading.left};

use crate::tables::read::limited;
use crate::tables::spelling::{first, second};
use crate::{Field, Spelling};
use event_log::Sink;
use record_lines::{Buffered, Words, put_number};
use wake_list::{MOST_CHANNELS, MOST_THREADS, SchedCall, SchedParams};

/// How a call is spelled.
#[inline(always)]
pub fn spelling(call: SchedCall) -> Spelling
    ensures word { result.word.now ≡ (sched_row call).word }
    ensures fields { result.fields.items ≡ (sched_row call).fields }
{
    match call {
        SchedCall::Ready(thread) => Spelling::one(b"ready", Field::wide(thread)),
        SchedCall::Next => Spelling::word(b"next"),
        SchedCall::Sleep { channel, thread } => {
            Spelling::two(b"sleep", Field::wide(channel), Field::wide(thread))
        }
        SchedCall::Wake(channel) => Spelling::one(b"wake", Field::wide(channel)),
        SchedCall::WakeAll(channel) => Spelling::one(b"wakeall", Field::wide(channel)),
    }
}

/// The call of the same word with these numbers.
#[inline(always)]
pub fn with_numbers(call: SchedCall, numbers: &[u32]) -> SchedCall
    ensures { result ≡ sched_filled call numbers.now }
{
    match call {
        SchedCall::Ready(_) => SchedCall::Ready(first(numbers)),
        SchedCall::Next => SchedCall::Next,
        SchedCall::Sleep {
            channel: _,
            thread: _,
        } => SchedCall::Sleep {
            channel: first(numbers),
            thread: second(numbers),
        },
        SchedCall::Wake(_) => SchedCall::Wake(first(numbers)),
        SchedCall::WakeAll(_) => SchedCall::WakeAll(first(numbers)),
    }
}

/// The numbers of threads and channels that are next.
#[tactic(auto, unfolding(crate::specs::Kinds::Sched::sched_params_at))]
pub fn params(at: Words<'_>) -> Option<(SchedParams, Words<'_>)>
    ensures { option_map (λ x. (x.0, left x.1)) result ≡ sched_params_at (left at.entry) }
{
    let (threads, rest) = limited(MOST_THREADS, at)?;
    let (channels, rest) = limited(MOST_CHANNELS, rest)?;
    Some((SchedParams { threads, channels }, rest))
}

/// Puts the numbers of threads and channels.
pub fn put_params<W: Sink>(text: &mut Buffered<W>, params: &SchedParams)
    ensures { PutsWords W.Sink text.old text.new (sched_text.params_words WRITTEN params.now) }
{
    put_number(text, u64::from(params.threads));
    put_number(text, u64::from(params.channels));
}
