//! Reading the line of an object.

ghost use Rattle.std.specs.{Prelude.◌≡◌, Option.option_map};
ghost use Rattle.custom_records.specs.{LineReading.{sizes_at, custom_events_at, custom_object_at}, declared.settings.TheConstants.MOST_SIZES};
ghost use Rattle.record_lines.specs.Reading.{left, words};

use crate::said::{is_number_next, name as next_name};
use crate::{CustomSettings, MOST_SIZES};
use arrayvec::ArrayVec;
use record_lines::{Words, key, number};

/// The most events of a log that are next: 1 to 4,294,967,295.
#[tactic(auto, unfolding(crate::specs::LineReading::custom_events_at))]
fn most_events(at: Words<'_>) -> Option<(u32, Words<'_>)>
    ensures { option_map (λ x. (x.0, left x.1)) result ≡ custom_events_at (left at.entry) }
{
    let (events, rest) = number(u64::from(u32::MAX), at)?;
    if 1 <= events {
        Some((events as u32, rest))
    } else {
        None
    }
}

/// Up to 32 numbers, as long as a word that begins with a digit is next, and the words behind them.
fn sizes(at: Words<'_>) -> Option<(ArrayVec<u64, MOST_SIZES>, Words<'_>)>
    ensures { option_map (λ x. (x.0.items, left x.1)) result ≡ sizes_at MOST_SIZES (left at.entry) }
{
    let mut sizes = ArrayVec::new();
    let mut left = at;
    for _ in 0..MOST_SIZES {
        if !is_number_next(left) {
            break;
        }
        let (number, rest) = number(u64::MAX, left)?;
        sizes.push(number);
        left = rest;
    }
    Some((sizes, left))
}

/// `object NAME LOCK EVENTS KIND NUMBERS`
#[tactic(auto, using(record_lines::proofs::Sentences::words_some), unfolding(crate::specs::LineReading::custom_object_at))]
pub fn object_line(line: &[u8]) -> Option<CustomSettings>
    ensures { result ≡ custom_object_at (words line.now) }
{
    let rest = key(b"object", Some(line))?;
    let Some((name, rest)) = next_name(rest) else {
        return None;
    };
    let Some((lock, rest)) = next_name(rest) else {
        return None;
    };
    let (events, rest) = most_events(rest)?;
    let Some((kind, rest)) = next_name(rest) else {
        return None;
    };
    let (numbers, rest) = sizes(rest)?;
    if rest.is_none() {
        Some(CustomSettings {
            name,
            lock,
            events,
            kind,
            numbers,
        })
    } else {
        None
    }
}
