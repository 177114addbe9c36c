//! The limits of records are the numbers that `specs/Limits.antt` has.

ghost use Rattle.std.specs.Prelude.{◌≡◌};
ghost use Rattle.custom_records.specs.Limits.{most_custom_cpus, most_custom_objects, most_sizes, most_words, most_letters, most_numbers, most_steps};

use crate::{
    MOST_CUSTOM_CPUS, MOST_CUSTOM_OBJECTS, MOST_LETTERS, MOST_NUMBERS, MOST_SIZES, MOST_WORDS,
};
use event_log::MOST_CALLS;

/// The constants are these numbers. It does nothing.
pub fn shows_limits()
    ensures cpus { MOST_CUSTOM_CPUS ≡ most_custom_cpus }
    ensures objects { MOST_CUSTOM_OBJECTS ≡ most_custom_objects }
    ensures sizes { MOST_SIZES ≡ most_sizes }
    ensures words { MOST_WORDS ≡ most_words }
    ensures letters { MOST_LETTERS ≡ most_letters }
    ensures numbers { MOST_NUMBERS ≡ most_numbers }
    ensures steps { MOST_CALLS ≡ most_steps }
{}
