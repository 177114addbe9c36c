//! Values that are spelled as rows of a table.

ghost use Rattle.std.specs.Prelude.{◌≡◌, true, [], ◌∷◌};
ghost use Rattle.kernel_words.specs.Row.{row_fits, refilled_row, first, others};

use crate::Field;
use arrayvec::ArrayVec;

/// A word, and then its numbers.
#[derive(Drop)]
pub struct Spelling {
    pub word: &'static [u8],
    pub fields: ArrayVec<Field, 2>,
}

/// Values that are spelled as a word and its numbers. Each type has one table: reading, writing and the test of ranges
/// follow from it.
pub trait Spelled: Copy + 'static {
    ghost use Rattle.std.specs.Prelude.{ℕ, List};
    ghost use Rattle.kernel_words.specs.Row.{Row, IsTable};

    /// The row of a value.
    ghost row_of: { Self → Row };

    /// A value of each word.
    ghost table: { List Self };

    /// The value of the same word with these numbers.
    ghost filled: { Self → List ℕ → Self };

    /// Its word and its numbers.
    fn spelling(&self) -> Spelling
        ensures word { result.word.now ≡ (row_of self.now).word }
        ensures fields { result.fields.items ≡ (row_of self.now).fields };

    /// A value of each word, with the numbers 0.
    fn samples() -> &'static [Self]
        ensures { result.now ≡ table };

    /// The value of the same word with these numbers, and with 0 where there are too few.
    fn with_numbers(&self, numbers: &[u32]) -> Self
        requires { row_fits (refilled_row (row_of self.now) numbers.now) ≡ true }
        ensures { result ≡ filled self.now numbers.now };

    /// A value is found again by its word and its numbers.
    ghost right: { IsTable row_of table filled };
}

impl Spelling {
    /// A word alone.
    pub fn word(word: &'static [u8]) -> Spelling
        ensures word { result.word.now ≡ word.now }
        ensures fields { result.fields.items ≡ [] }
    {
        Spelling {
            word,
            fields: ArrayVec::new(),
        }
    }

    /// A word and a number.
    pub fn one(word: &'static [u8], field: Field) -> Spelling
        ensures word { result.word.now ≡ word.now }
        ensures fields { result.fields.items ≡ field ∷ [] }
    {
        let mut fields = ArrayVec::new();
        fields.push(field);
        Spelling { word, fields }
    }

    /// A word and two numbers.
    pub fn two(word: &'static [u8], first: Field, second: Field) -> Spelling
        ensures word { result.word.now ≡ word.now }
        ensures fields { result.fields.items ≡ first ∷ second ∷ [] }
    {
        let mut fields = ArrayVec::new();
        fields.push(first);
        fields.push(second);
        Spelling { word, fields }
    }
}

/// The first number, or 0.
pub fn first(numbers: &[u32]) -> u32
    ensures { result ≡ first numbers.now }
{
    match numbers {
        [] => 0,
        [number, ..] => *number,
    }
}

/// The second number, or 0.
pub fn second(numbers: &[u32]) -> u32
    ensures { result ≡ first (others numbers.now) }
{
    match numbers {
        [] | [_] => 0,
        [_, number, ..] => *number,
    }
}
