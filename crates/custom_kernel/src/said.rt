//! Calls and replies of the kernel as they are said.

ghost use Rattle.std.specs.{Prelude.{◌≡◌, ◌≤◌, length, map, if◌then◌else◌, Some, None}, Option.option_map, Str.bytes_eq};
ghost use Rattle.custom_kernel.specs.KernelModel.{are_in_ranges, with_numbers, call_of, said_of, is_said};
ghost use Rattle.kernel_words.specs.{Row.sample_at, Rows.{call_row, call_samples}};

use arrayvec::ArrayVec;
use custom_records::Spoken;
use kernel_object::{KCall, KReply};
use kernel_words::{Field, Spelled};

/// The sample of that word.
#[tactic(auto, unfolding(kernel_words::specs::Row::sample_at))]
fn sample(word: &[u8]) -> Option<KCall>
    ensures { result ≡ sample_at call_row call_samples word.now }
{
    for sample in KCall::samples() {
        if sample.spelling().word == word {
            return Some(*sample);
        }
    }
    None
}

/// The numbers, if there are as many as fields and each is in its field's range.
fn in_ranges(fields: &[Field], numbers: &[u64]) -> Option<ArrayVec<u32, 2>>
    requires { length fields.now ≤ 2 }
    ensures { option_map (λ x. x.items) result ≡ (if are_in_ranges fields.now numbers.now then Some numbers.now else None) }
{
    if numbers.len() != fields.len() {
        return None;
    }
    let mut given = ArrayVec::new();
    for i in 0..fields.len() {
        let number = numbers[i];
        if number < u64::from(fields[i].low) || u64::from(fields[i].high) < number {
            return None;
        }
        given.push(number as u32);
    }
    Some(given)
}

/// The call of the sample's word with these numbers, if they are those of such a call.
fn call_with(sample: KCall, numbers: &[u64]) -> Option<KCall>
    ensures { result ≡ with_numbers sample numbers.now }
{
    let fields = sample.spelling().fields;
    let given = in_ranges(fields.as_slice(), numbers)?;
    Some(sample.with_numbers(given.as_slice()))
}

/// The call that is said, if it is one.
#[tactic(auto, unfolding(crate::specs::KernelModel::call_of))]
pub(crate) fn call_of(said: &Spoken) -> Option<KCall>
    ensures { result ≡ call_of said.now }
{
    call_with(sample(said.word())?, said.numbers())
}

/// Whether the fields have these numbers.
fn have_values(fields: &[Field], numbers: &[u64]) -> bool
    ensures { result ≡ bytes_eq (map (λ f. f.value) fields.now) numbers.now }
{
    if fields.len() != numbers.len() {
        return false;
    }
    for i in 0..fields.len() {
        if u64::from(fields[i].value) != numbers[i] {
            return false;
        }
    }
    true
}

/// Whether the reply is said so.
pub(crate) fn says(reply: KReply, said: &Spoken) -> bool
    ensures { result ≡ is_said (said_of reply) said.now }
{
    let spelling = reply.spelling();
    spelling.word == said.word() && have_values(spelling.fields.as_slice(), said.numbers())
}
