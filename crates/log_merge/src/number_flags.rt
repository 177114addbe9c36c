//! Flags of the numbers from 0 on.

ghost use Rattle.std.specs.Prelude.{◌≡◌, ◌≢◌, ◌<◌, ◌≤◌, ◌↔◌, ℕ, IfOk, MatchOption};
ghost use Rattle.log_merge.specs.Flags.{capacity, HasFlag};

use event_log::OutOfMemory;
use std::alloc::Global;
use std::marker::Model;

/// Flags of the numbers from 0 on, 64 in a word.
#[derive(Drop)]
pub(crate) struct Flags {
    words: Vec<u64>,
}

impl Model for Flags {
    ghost use Rattle.std.specs.Prelude.{◌≤◌, ◌^◌, ℕ, List, length};

    ghost Value = { List ℕ };

    ghost view = { λ flags. flags.words.items };

    ghost invariant = { λ flags. length flags.words.items ≤ 2 ^ 58 };
}

impl Flags {
    /// Room for the flags of so many numbers, with none set.
    pub(crate) fn new(alloc: Global, count: usize) -> Result<Flags, OutOfMemory>
        ensures room { IfOk result (λ flags. count ≤ capacity flags) }
        ensures none { IfOk result (λ flags. (number : ℕ) → HasFlag flags number → ⊥) }
    {
        let words = vec![in alloc; 0; count / 64 + 1]?;
        Ok(Flags { words })
    }

    /// Sets the number's flag.
    pub(crate) fn set(&mut self, number: usize)
        requires { number < capacity self.old }
        ensures room { capacity self.new ≡ capacity self.old }
        ensures set { HasFlag self.new number }
        ensures others { (other : ℕ) → other ≢ number → HasFlag self.new other ↔ HasFlag self.old other }
    {
        let word = number / 64;
        self.words[word] |= 1 << (number % 64);
    }

    /// Takes the number's flag away.
    pub(crate) fn clear(&mut self, number: usize)
        requires { number < capacity self.old }
        ensures room { capacity self.new ≡ capacity self.old }
        ensures cleared { HasFlag self.new number → ⊥ }
        ensures others { (other : ℕ) → other ≢ number → HasFlag self.new other ↔ HasFlag self.old other }
    {
        let word = number / 64;
        self.words[word] &= !(1 << (number % 64));
    }

    /// The least number whose flag is set.
    pub(crate) fn least(&self) -> Option<usize>
        ensures { MatchOption result ((number : ℕ) → HasFlag self.now number → ⊥)
            (λ least. HasFlag self.now least × ((number : ℕ) → number < least → HasFlag self.now number → ⊥)) }
    {
        let words = self.words.as_slice();
        for (i, word) in words.iter().enumerate() {
            if *word != 0 {
                return Some(64 * i + word.trailing_zeros() as usize);
            }
        }
        None
    }
}
