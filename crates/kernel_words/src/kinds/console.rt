//! A console, as one kind of object.

ghost use Rattle.std.specs.{Prelude.{◌≡◌, true}, Option.option_map};
ghost use Rattle.kernel_words.specs.{Kinds.Console.{console_text, console_row, console_filled}, Row.{limit, field_at, row_fits, refilled_row}, declared.form.TheConstants.WRITTEN};
ghost use Rattle.record_lines.specs.{Output.PutsWords, Reading.left};

use crate::tables::read::limited;
use crate::tables::spelling::first;
use crate::{Field, Spelling};
use console_ring::{ConsoleCall, MOST_BYTES};
use event_log::Sink;
use record_lines::{Buffered, Words, put_number};

/// How a call is spelled.
#[inline(always)]
pub fn spelling(call: ConsoleCall) -> Spelling
    ensures word { result.word.now ≡ (console_row call).word }
    ensures fields { result.fields.items ≡ (console_row call).fields }
{
    match call {
        ConsoleCall::Put(byte) => Spelling::one(b"put", Field::byte(byte)),
        ConsoleCall::Get => Spelling::word(b"get"),
        ConsoleCall::Level => Spelling::word(b"level"),
    }
}

/// The call of the same word with these numbers.
#[inline(always)]
pub fn with_numbers(call: ConsoleCall, numbers: &[u32]) -> ConsoleCall
    requires { row_fits (refilled_row (console_row call) numbers.now) ≡ true }
    ensures { result ≡ console_filled call numbers.now }
{
    match call {
        ConsoleCall::Put(_) => ConsoleCall::Put(first(numbers) as u8),
        ConsoleCall::Get => ConsoleCall::Get,
        ConsoleCall::Level => ConsoleCall::Level,
    }
}

/// The number of bytes that is next.
pub fn params(at: Words<'_>) -> Option<(u32, Words<'_>)>
    ensures { option_map (λ x. (x.0, left x.1)) result ≡ field_at (limit MOST_BYTES 0) (left at.entry) }
{
    limited(MOST_BYTES, at)
}

/// Puts the number of bytes.
pub fn put_params<W: Sink>(text: &mut Buffered<W>, bytes: u32)
    ensures { PutsWords W.Sink text.old text.new (console_text.params_words WRITTEN bytes) }
{
    put_number(text, u64::from(bytes));
}
