//! Reading what is said: a word, and the numbers behind it.

ghost use Rattle.std.specs.{Prelude.{◌≡◌, ◌||◌, [], IfSome}, Option.option_map};
ghost use Rattle.custom_records.specs.{LineReading.{number_next, sizes_at, said_at}, declared.spoken.TheConstants.MOST_NUMBERS};
ghost use Rattle.record_lines.specs.{Reading.{left, words}, LineParts.name_word_at, Names.{is_digit, is_letter}};

use crate::{CustomName, MOST_NUMBERS, Spoken};
use record_lines::{Words, name_in, number, word};

/// Whether the byte is a digit.
fn is_digit(byte: u8) -> bool
    ensures { result ≡ is_digit byte }
{
    b'0' <= byte && byte <= b'9'
}

/// Whether the next word begins with a digit.
pub fn is_number_next(at: Words<'_>) -> bool
    ensures { result ≡ number_next (left at.entry) }
{
    let Some(bytes) = at else {
        return false;
    };
    match bytes.split_first() {
        Some((first, _)) => is_digit(*first),
        None => false,
    }
}

/// The next word, if it is a name.
#[tactic(auto, unfolding(record_lines::specs::LineParts::name_word_at))]
pub(crate) fn name(at: Words<'_>) -> Option<(CustomName, Words<'_>)>
    ensures { option_map (λ x. (x.0.bytes, left x.1)) result ≡ name_word_at (left at.entry) }
{
    let (word, rest) = word(at)?;
    let name = name_in(word)?;
    Some((name, rest))
}

/// Whether the byte is a lower-case letter.
fn is_letter(byte: u8) -> bool
    ensures { result ≡ is_letter byte }
{
    b'a' <= byte && byte <= b'z'
}

/// Whether the byte is a lower-case letter or a digit.
fn is_plain(byte: u8) -> bool
    ensures { result ≡ (is_letter byte || is_digit byte) }
{
    is_letter(byte) || is_digit(byte)
}

/// What the word at the front of the bytes says, without numbers, if it is a name. Its letters are taken one at a time.
#[inline(always)]
fn word_in_front(bytes: &[u8]) -> Option<(Spoken, Words<'_>)>
    ensures read { option_map (λ x. (x.0.word, left x.1)) result ≡ name_word_at (words bytes.now) }
    ensures none { IfSome result (λ x. x.0.numbers ≡ []) }
{
    let (first, rest) = bytes.split_first()?;
    if !is_letter(*first) {
        return None;
    }
    let mut said = Spoken::of_letter(*first);
    let mut left = rest;
    while let [byte, more @ ..] = left {
        if *byte == b' ' {
            return Some((said, Some(more)));
        }
        if said.is_full() {
            return None;
        }
        if !is_plain(*byte) {
            return None;
        }
        said.push_letter(*byte);
        left = more;
    }
    Some((said, None))
}

/// What the next word says, without numbers, if it is a name.
#[tactic(auto, unfolding(record_lines::specs::LineParts::name_word_at, record_lines::specs::Reading::word_at))]
fn spoken_word(at: Words<'_>) -> Option<(Spoken, Words<'_>)>
    ensures read { option_map (λ x. (x.0.word, left x.1)) result ≡ name_word_at (left at.entry) }
    ensures none { IfSome result (λ x. x.0.numbers ≡ []) }
{
    word_in_front(at?)
}

/// Adds up to 6 numbers, as long as a word that begins with a digit is next, and answers the words behind them.
fn add_numbers<'a>(said: &mut Spoken, at: Words<'a>) -> Option<Words<'a>>
    requires { said.old.numbers ≡ [] }
    ensures numbers { option_map (λ rest. (said.new.numbers, left rest)) result ≡ sizes_at MOST_NUMBERS (left at.entry) }
    ensures word { said.new.word ≡ said.old.word }
{
    let mut left = at;
    for _ in 0..MOST_NUMBERS {
        if !is_number_next(left) {
            break;
        }
        let (number, rest) = number(u64::MAX, left)?;
        said.push(number);
        left = rest;
    }
    Some(left)
}

/// The word with up to 6 numbers that is next, and the words behind it.
#[tactic(auto, unfolding(crate::specs::LineReading::said_at))]
pub(crate) fn said(at: Words<'_>) -> Option<(Spoken, Words<'_>)>
    ensures { option_map (λ x. (x.0, left x.1)) result ≡ said_at (left at.entry) }
{
    let Some((mut said, rest)) = spoken_word(at) else {
        return None;
    };
    let rest = add_numbers(&mut said, rest)?;
    Some((said, rest))
}
