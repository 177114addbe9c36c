//! Reading a value by its table.

ghost use Rattle.std.specs.{Prelude.{◌≡◌, ◌∷◌, ◌≤◌, ◌++◌, ℕ, List, Some, length, true, IfSome}, Option.option_map};
ghost use Rattle.record_lines.specs.Reading.{left};
ghost use Rattle.kernel_words.specs.Row.{wide, byte, limit, up_to, field_at, numbers_at, sample_at, value_at, spelled, row_fits};

use crate::{FastRead, Field, Spelled, Spelling};
use arrayvec::ArrayVec;
use page_pool::MOST_PAGES;
use record_lines::{Words, after, number, word};

/// The number of the field's range that is next.
#[tactic(auto, unfolding(crate::specs::Row::field_at))]
#[inline(always)]
pub fn field<'a>(field: &Field, at: Words<'a>) -> Option<(u32, Words<'a>)>
    ensures value { option_map (λ x. (x.0, left x.1)) result ≡ field_at field.now (left at.entry) }
    ensures bound { IfSome result (λ x. x.0 ≤ field.now.high) }
{
    let (number, rest) = number(u64::from(field.high), at)?;
    if u64::from(field.low) <= number {
        Some((number as u32, rest))
    } else {
        None
    }
}

/// The number of 32 bits that is next.
#[inline(always)]
pub fn wide(at: Words<'_>) -> Option<(u32, Words<'_>)>
    ensures { option_map (λ x. (x.0, left x.1)) result ≡ field_at (wide 0) (left at.entry) }
{
    field(&Field::wide(0), at)
}

/// The byte that is next.
#[inline(always)]
pub fn byte(at: Words<'_>) -> Option<(u8, Words<'_>)>
    ensures { option_map (λ x. (x.0, left x.1)) result ≡ field_at (byte 0) (left at.entry) }
{
    let (number, rest) = field(&Field::byte(0), at)?;
    Some((number as u8, rest))
}

/// The number from 1 to that limit that is next.
#[inline(always)]
pub fn limited(high: u32, at: Words<'_>) -> Option<(u32, Words<'_>)>
    ensures { option_map (λ x. (x.0, left x.1)) result ≡ field_at (limit high 0) (left at.entry) }
{
    field(&Field::limit(high, 0), at)
}

/// A quota that is next.
#[inline(always)]
pub fn quota(at: Words<'_>) -> Option<(u32, Words<'_>)>
    ensures { option_map (λ x. (x.0, left x.1)) result ≡ field_at (up_to MOST_PAGES 0) (left at.entry) }
{
    field(&Field::up_to(MOST_PAGES, 0), at)
}

/// The numbers of the fields, one behind the other.
#[inline(always)]
fn numbers<'a>(fields: &[Field], at: Words<'a>) -> Option<(ArrayVec<u32, 2>, Words<'a>)>
    requires { length fields.now ≤ 2 }
    ensures { option_map (λ x. (x.0.items, left x.1)) result ≡ numbers_at fields.now (left at.entry) }
{
    let mut numbers = ArrayVec::new();
    let mut left = at;
    for each in fields {
        let (number, rest) = field(each, left)?;
        numbers.push(number);
        left = rest;
    }
    Some((numbers, left))
}

/// The sample of that word.
#[tactic(auto, unfolding(crate::specs::Row::sample_at))]
fn sample<T: Spelled>(word: &[u8]) -> Option<T>
    ensures { result ≡ sample_at T.row_of T.table word.now }
{
    for sample in T::samples() {
        if sample.spelling().word == word {
            return Some(*sample);
        }
    }
    None
}

/// The value that is next, by going through the table.
#[tactic(auto, unfolding(crate::specs::Row::value_at))]
fn by_table<T: Spelled>(at: Words<'_>) -> Option<(T, Words<'_>)>
    ensures { option_map (λ x. (x.0, left x.1)) result ≡ value_at T.row_of T.table T.filled (left at.entry) }
{
    let (name, rest) = word(at)?;
    let sample = sample::<T>(name)?;
    let (numbers, rest) = numbers(sample.spelling().fields.as_slice(), rest)?;
    Some((sample.with_numbers(numbers.as_slice()), rest))
}

/// The value of the sample's word with the numbers behind it, if that word is next.
#[inline(always)]
pub fn value_of<T: Spelled>(sample: T, at: Words<'_>) -> Option<(T, Words<'_>)>
    ensures { IfSome result (λ x. value_at T.row_of T.table T.filled (left at.entry) ≡ Some (x.0, left x.1)) }
{
    let Spelling { word, fields } = sample.spelling();
    let rest = after(word, at)?;
    let (numbers, rest) = numbers(fields.as_slice(), rest)?;
    Some((sample.with_numbers(numbers.as_slice()), rest))
}

/// The value that is next, read from left to right.
#[inline(always)]
fn next_value<T: FastRead>(at: Words<'_>) -> Option<(T, Words<'_>)>
    ensures { option_map (λ x. (x.0, left x.1)) result ≡ value_at T.row_of T.table T.filled (left at.entry) }
{
    match T::read_fast(at) {
        Some(found) => Some(found),
        None => by_table(at),
    }
}

/// The value whose words, each number in its range, are next, and the words behind it.
pub fn value<T: FastRead>(at: Words<'_>) -> Option<(T, Words<'_>)>
    ensures reading { option_map (λ x. (x.0, left x.1)) result ≡ value_at T.row_of T.table T.filled (left at.entry) }
    ensures found { IfSome result (λ r. (left at.entry ≡ spelled (T.row_of r.0) ++ left r.1) × (row_fits (T.row_of r.0) ≡ true)) }
    ensures only { (x : T) (rest : List (List ℕ)) → row_fits (T.row_of x) ≡ true → left at.entry ≡ spelled (T.row_of x) ++ rest →
        option_map {U = T × List (List ℕ)} (λ r. (r.0, left r.1)) result ≡ Some (x, rest) }
{
    next_value(at)
}
