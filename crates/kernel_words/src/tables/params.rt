//! Reading what objects are opened with.

ghost use Rattle.std.specs.{Prelude.◌≡◌, Option.option_map};
ghost use Rattle.record_lines.specs.Reading.{left};
ghost use Rattle.kernel_words.specs.ParameterReading.{params_at};

use crate::Form;
use crate::kinds::params_of;
use kernel_object::{KParams, Kind};
use record_lines::{Words, word};

/// What an object is opened with, and the words behind it.
#[tactic(auto, unfolding(crate::specs::ParameterReading::params_at))]
pub fn params(form: Form, at: Words<'_>) -> Option<(KParams, Words<'_>)>
    ensures { option_map (λ x. (x.0, left x.1)) result ≡ params_at form (left at.entry) }
{
    let (name, rest) = word(at)?;
    let kind = Kind::of_word(name)?;
    params_of(form, kind, rest)
}
