//! Values in their ranges.

ghost use Rattle.std.specs.Prelude.{◌≡◌, ◌++◌, ℕ, List, true};
ghost use Rattle.kernel_words.specs.Row.{row_fits, spelled};

use crate::Spelled;

/// Whether each number of the value is in its range.
pub fn fits<T: Spelled>(value: &T) -> bool
    ensures { result ≡ row_fits (T.row_of value.now) }
{
    value.spelling().fields.as_slice().iter().all(|field| field.low <= field.value
        && field.value <= field.high)
}

/// A law of every table, without effect: no two values in their ranges are spelled alike, whatever follows them.
pub fn spelled_once<T: Spelled>()
    ensures { (x y : T) (a b : List (List ℕ)) → row_fits (T.row_of x) ≡ true → row_fits (T.row_of y) ≡ true →
        spelled (T.row_of x) ++ a ≡ spelled (T.row_of y) ++ b → (x ≡ y) × (a ≡ b) }
{}
