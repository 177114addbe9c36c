//! What is said: a word, and the numbers behind it.

ghost use Rattle.std.specs.Prelude.{◌≡◌, ◌≤◌, ◌<◌, ◌↔◌, ◌++◌, ◌∷◌, [], length, IsTrue};
ghost use Rattle.custom_records.specs.Said.{padded};

use std::marker::Model;

/// The most letters and digits of a word.
pub const MOST_LETTERS: usize = 16;

/// The most numbers behind a word.
pub const MOST_NUMBERS: usize = 6;

/// A call or a reply: a word of at most 16 bytes, and up to 6 numbers. It takes no memory.
#[derive(Clone, Copy, Debug, Default, PartialEq, Eq, Drop)]
pub struct Spoken {
    letters: [u8; MOST_LETTERS],
    values: [u64; MOST_NUMBERS],
    letter_count: u8,
    value_count: u8,
}

impl Model for Spoken {
    ghost use Rattle.std.specs.Prelude.{take, length};
    ghost use Rattle.custom_records.specs.Said.{Said, padded, IsPadded};

    ghost Value = { Said };

    ghost view = { λ s. record { word = take s.letter_count s.letters; numbers = take s.value_count s.values } };

    ghost invariant = { λ s. IsPadded 16 s.letter_count s.letters × IsPadded 6 s.value_count s.values };

    ghost inverse = { λ d. record { letters = padded 16 d.word; values = padded 6 d.numbers; letter_count = length d.word; value_count = length d.numbers } };

    ghost inverse_ok = { λ s h i. record { letters = h.0.rest i; values = h.1.rest i; letter_count = h.0.front i; value_count = h.1.front i } };
}

impl Spoken {
    /// The word alone.
    pub fn of_word(word: &[u8]) -> Spoken
        requires { length word.now ≤ MOST_LETTERS }
        ensures { result ≡ record { word = word.now; numbers = [] } }
    {
        let mut letters = [0; MOST_LETTERS];
        letters[..word.len()].copy_from_slice(word);
        Spoken {
            letters,
            values: [0; MOST_NUMBERS],
            letter_count: word.len() as u8,
            value_count: 0,
        }
    }

    /// The word of one letter alone.
    pub(crate) fn of_letter(letter: u8) -> Spoken
        ensures { result ≡ record { word = letter ∷ []; numbers = [] } }
    {
        let mut letters = [0; MOST_LETTERS];
        letters[0] = letter;
        Spoken {
            letters,
            values: [0; MOST_NUMBERS],
            letter_count: 1,
            value_count: 0,
        }
    }

    /// Whether no letter more has room.
    #[inline(always)]
    pub(crate) fn is_full(&self) -> bool
        ensures { IsTrue result ↔ (length self.now.word ≡ MOST_LETTERS) }
    {
        self.letter_count as usize == MOST_LETTERS
    }

    /// A letter or a digit of the word more.
    #[inline(always)]
    pub(crate) fn push_letter(&mut self, letter: u8)
        requires { length self.old.word < MOST_LETTERS }
        ensures { self.new ≡ record self.old { word = self.old.word ++ letter ∷ [] } }
    {
        self.letters[self.letter_count as usize] = letter;
        self.letter_count += 1;
    }

    /// A number more.
    pub fn push(&mut self, number: u64)
        requires { length self.old.numbers < MOST_NUMBERS }
        ensures { self.new ≡ record self.old { numbers = self.old.numbers ++ number ∷ [] } }
    {
        self.values[self.value_count as usize] = number;
        self.value_count += 1;
    }

    /// The word.
    pub fn word(&self) -> &[u8]
        ensures { result.now ≡ self.now.word }
    {
        &self.letters[..self.letter_count as usize]
    }

    /// The numbers behind it.
    pub fn numbers(&self) -> &[u64]
        ensures { result.now ≡ self.now.numbers }
    {
        &self.values[..self.value_count as usize]
    }

    /// The word, with zeros behind it.
    pub fn letters(&self) -> [u8; MOST_LETTERS]
        ensures { result ≡ padded MOST_LETTERS self.now.word }
    {
        self.letters
    }

    /// The numbers, with zeros behind them.
    pub fn values(&self) -> [u64; MOST_NUMBERS]
        ensures { result ≡ padded MOST_NUMBERS self.now.numbers }
    {
        self.values
    }
}
