//! The words whose replies refuse.

ghost use Rattle.std.specs.{Prelude.{◌≡◌, [], map, IfOk}, List.list_any, Option.option_map, Str.bytes_eq};
ghost use Rattle.custom_records.specs.{LineReading.{refuses_at, new_name_in, new_words_at}, declared.settings.TheConstants.MOST_WORDS, Settings.refuses_word};
ghost use Rattle.record_lines.specs.Reading.{left, words};

use crate::{CustomName, MOST_WORDS};
use event_log::OutOfMemory;
use record_lines::{Words, key, name_in, word};
use std::alloc::Global;

/// Whether the word is among those.
fn is_among(words: &[CustomName], word: &[u8]) -> bool
    ensures { result ≡ list_any (λ w. bytes_eq w.bytes word.now) words.now }
{
    words.iter().any(|each| each.as_str().as_bytes() == word)
}

/// Whether a reply with that word refuses its call, where those words refuse.
pub fn is_refusing(refusing: &[CustomName], word: &[u8]) -> bool
    ensures { result ≡ refuses_word (map (λ w. w.bytes) refusing.now) word.now }
{
    is_among(refusing, word)
}

/// The word, if it is a name and none of the earlier words.
#[tactic(auto, unfolding(crate::specs::LineReading::new_name_in))]
fn new_name(earlier: &[CustomName], word: &[u8]) -> Option<CustomName>
    ensures { option_map (λ x. x.bytes) result ≡ new_name_in (map (λ w. w.bytes) earlier.now) word.now }
{
    if is_refusing(earlier, word) {
        None
    } else {
        name_in(word)
    }
}

/// All words that are left, if they are up to 32 different names.
fn names(alloc: Global, at: Words<'_>) -> Result<Option<Vec<CustomName>>, OutOfMemory>
    ensures { IfOk result (λ found. option_map (λ v. map (λ w. w.bytes) v.items) found ≡ new_words_at [] MOST_WORDS (left at.entry)) }
{
    let mut refusing = Vec::new(alloc);
    let mut left = at;
    for _ in 0..MOST_WORDS {
        let Some((word, rest)) = word(left) else {
            break;
        };
        let Some(name) = new_name(&refusing, word) else {
            return Ok(None);
        };
        refusing.push(name)?;
        left = rest;
    }
    if left.is_none() {
        Ok(Some(refusing))
    } else {
        Ok(None)
    }
}

/// `refuses WORDS`: up to 32 different words.
#[tactic(auto, unfolding(crate::specs::LineReading::refuses_at))]
pub fn refuses_line(alloc: Global, line: &[u8]) -> Result<Option<Vec<CustomName>>, OutOfMemory>
    ensures { IfOk result (λ found. option_map (λ v. map (λ w. w.bytes) v.items) found ≡ refuses_at (words line.now)) }
{
    match key(b"refuses", Some(line)) {
        Some(rest) => names(alloc, rest),
        None => Ok(None),
    }
}
