//! The words of a line, from left to right.

ghost use Rattle.std.specs.{Prelude.{◌≡◌, ◌∷◌, ◌++◌, [], ◌≤◌, ◌<◌, ◌+◌, ℕ, Some, IfSome, IfNone, decimal}, Int.IsInRange, Option.option_map, Str.Parse.digits_value};
ghost use Rattle.record_lines.specs.{Reading.{AreDigits, left, word_at, behind_at, key_at, number_in, number_at, words}, Words.IsPlain};

use crate::text::split::split_once;

/// The words that are left of a line: those of the bytes, or none.
pub type Words<'a> = Option<&'a [u8]>;

/// The next word.
#[tactic(auto, unfolding(crate::specs::Reading::word_at))]
#[inline(always)]
pub fn word<'a>(at: Words<'a>) -> Option<(&'a [u8], Words<'a>)>
    ensures { option_map (λ x. (x.0.now, left x.1)) result ≡ word_at (left at.entry) }
{
    let bytes = at?;
    match split_once(bytes, b' ') {
        Some((word, rest)) => Some((word, Some(rest))),
        None => Some((bytes, None)),
    }
}

/// What follows the word, if it is next.
#[tactic(auto, unfolding(crate::specs::Reading::key_at))]
#[inline(always)]
pub fn key<'a>(key: &[u8], at: Words<'a>) -> Option<Words<'a>>
    ensures { option_map left result ≡ key_at key.now (left at.entry) }
{
    let (word, rest) = word(at)?;
    if word == key { Some(rest) } else { None }
}

/// The words behind a word that ends where the bytes begin.
#[inline(always)]
fn behind(bytes: &[u8]) -> Option<Words<'_>>
    ensures { option_map left result ≡ behind_at bytes.now }
{
    match bytes {
        [] => Some(None),
        [b' ', rest @ ..] => Some(Some(rest)),
        _ => None,
    }
}

/// What follows the byte, if a word of it alone is next.
#[inline(always)]
pub fn mark(mark: u8, at: Words<'_>) -> Option<Words<'_>>
    ensures { option_map left result ≡ key_at (mark ∷ []) (left at.entry) }
{
    let (first, rest) = at?.split_first()?;
    if *first != mark {
        return None;
    }
    if mark == b' ' {
        return None;
    }
    behind(rest)
}

/// What stands behind the front, if the bytes begin with it.
#[inline(always)]
fn strip<'a>(front: &[u8], bytes: &'a [u8]) -> Option<&'a [u8]>
    ensures { IfSome result (λ rest. bytes.now ≡ front.now ++ rest.now) }
{
    let mut left = bytes;
    for byte in front {
        match left {
            [first, rest @ ..] if first == byte => left = rest,
            _ => return None,
        }
    }
    Some(left)
}

/// What follows the word, in which there is no space, if it is next.
#[inline(always)]
pub fn after<'a>(word: &[u8], at: Words<'a>) -> Option<Words<'a>>
    ensures { IsPlain word.now → IfSome result (λ rest. left at.entry ≡ word.now ∷ left rest) }
{
    behind(strip(word, at?)?)
}

/// The value of a digit.
#[inline(always)]
fn digit(byte: u8) -> Option<u64>
    ensures found { IfSome result (λ d. (byte ≡ 48 + d) × (d < 10)) }
    ensures none { IfNone result (IsInRange 48 57 byte → ⊥) }
{
    if b'0' <= byte && byte <= b'9' {
        Some(u64::from(byte - b'0'))
    } else {
        None
    }
}

/// The value of digits, if it is at most `high`.
#[inline(always)]
fn digits(word: &[u8], high: u64) -> Option<u64>
    ensures digits { IfSome result (λ _. AreDigits word.now) }
    ensures value { IfSome result (λ n. n ≡ digits_value 10 word.now) }
    ensures bound { IfSome result (λ n. n ≤ high) }
    ensures none { IfNone result (AreDigits word.now → high < digits_value 10 word.now) }
{
    let mut number: u64 = 0;
    for byte in word {
        let digit = digit(*byte)?;
        number = number.checked_mul(10)?.checked_add(digit)?;
        if number > high {
            return None;
        }
    }
    Some(number)
}

/// The number of at most `high` whose decimal text the word is.
#[inline(always)]
pub fn number_of(word: &[u8], high: u64) -> Option<u64>
    ensures value { result ≡ number_in high word.now }
    ensures bound { IfSome result (λ n. n ≤ high) }
    ensures found { IfSome result (λ n. word.now ≡ decimal n) }
    ensures only { (n : ℕ) → n ≤ high → word.now ≡ decimal n → result ≡ Some n }
{
    let first = word.first()?;
    if *first == b'0' && word.len() > 1 {
        return None;
    }
    digits(word, high)
}

/// The number of one digit that is next: most have no more.
#[inline(always)]
fn one_digit<'a>(high: u64, at: Words<'a>) -> Option<(u64, Words<'a>)>
    ensures { IfSome result (λ x. (x.0 ≤ high) × (number_at high (left at.entry) ≡ Some (x.0, left x.1))) }
{
    let (first, rest) = at?.split_first()?;
    let number = digit(*first)?;
    let rest = behind(rest)?;
    if number <= high {
        Some((number, rest))
    } else {
        None
    }
}

/// The number of at most `high` whose decimal text is at the front of the bytes, a digit at a time.
#[inline(never)]
fn long_number(high: u64, bytes: &[u8]) -> Option<(u64, Words<'_>)>
    ensures value { option_map (λ x. (x.0, left x.1)) result ≡ number_at high (words bytes.now) }
    ensures bound { IfSome result (λ x. x.0 ≤ high) }
{
    let (first, rest) = bytes.split_first()?;
    let mut number = digit(*first)?;
    let mut left = rest;
    while let [byte, more @ ..] = left {
        if *byte == b' ' {
            break;
        }
        if number == 0 {
            return None;
        }
        number = number.checked_mul(10)?.checked_add(digit(*byte)?)?;
        left = more;
    }
    if number > high {
        return None;
    }
    Some((number, behind(left)?))
}

/// The number of at most `high` that is next.
#[tactic(auto, unfolding(crate::specs::Reading::number_at, crate::specs::Reading::word_at))]
#[inline(always)]
pub fn number<'a>(high: u64, at: Words<'a>) -> Option<(u64, Words<'a>)>
    ensures value { option_map (λ x. (x.0, left x.1)) result ≡ number_at high (left at.entry) }
    ensures bound { IfSome result (λ x. x.0 ≤ high) }
{
    if let Some(found) = one_digit(high, at) {
        return Some(found);
    }
    long_number(high, at?)
}
