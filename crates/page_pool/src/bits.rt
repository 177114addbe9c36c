//! A word as a set of numbers below 64: k is in it where its bit k is 1.

ghost use Rattle.std.specs.Prelude.{◌≡◌, ℕ, ◌<◌, ◌≤◌, true, false, None, nat_lt, IfSome};
ghost use Rattle.page_pool.specs.Bits.{has_bit, Puts, IsLeastIn};

/// The word with the number as well.
pub fn with(word: u64, number: u32) -> u64
    requires { number < 64 }
    ensures { Puts word result number true }
{
    word | (1 << number)
}

/// The word without the number.
pub fn without(word: u64, number: u32) -> u64
    requires { number < 64 }
    ensures { Puts word result number false }
{
    word & !(1 << number)
}

/// The least number of the word, if it has one.
pub fn least(word: u64) -> Option<u32>
    ensures some { IfSome result (λ k. IsLeastIn word k) }
    ensures none { result ≡ None → word ≡ 0 }
{
    if word == 0 {
        None
    } else {
        Some(word.trailing_zeros())
    }
}

/// The word of the numbers below the count.
pub fn below(count: u32) -> u64
    requires { count ≤ 64 }
    ensures { (i : ℕ) → has_bit result i ≡ nat_lt i count }
{
    if count == 64 {
        u64::MAX
    } else {
        (1 << count) - 1
    }
}
