//! What all else takes of a kind: one line of each.

ghost use Rattle.std.specs.{Prelude.◌≡◌, Option.option_map};
ghost use Rattle.record_lines.specs.{Output.PutsWords, Reading.left};
ghost use Rattle.kernel_words.specs.{Parameters.params_words, ParameterReading.params_behind, declared.form.TheConstants.WRITTEN};

pub mod console;
pub mod pool;
pub mod queue;
pub mod sched;

use crate::Form;
use event_log::Sink;
use kernel_object::{KParams, Kind};
use record_lines::{Buffered, Words, put_word};

/// What an object of that kind is opened with, behind the kind's word.
#[tactic(auto, unfolding(crate::specs::ParameterReading::params_behind))]
pub fn params_of(form: Form, kind: Kind, at: Words<'_>) -> Option<(KParams, Words<'_>)>
    ensures { option_map (λ x. (x.0, left x.1)) result ≡ params_behind form kind (left at.entry) }
{
    match kind {
        Kind::Queue => {
            let (threads, rest) = queue::params(at)?;
            Some((KParams::Queue(threads), rest))
        }
        Kind::Pool => {
            let (params, rest) = pool::params(form, at)?;
            Some((KParams::Pool(params), rest))
        }
        Kind::Console => {
            let (bytes, rest) = console::params(at)?;
            Some((KParams::Console(bytes), rest))
        }
        Kind::Sched => {
            let (params, rest) = sched::params(at)?;
            Some((KParams::Sched(params), rest))
        }
    }
}

/// Puts what an object is opened with, in the form that is written, each word behind a space.
pub fn put_params<W: Sink>(text: &mut Buffered<W>, params: &KParams)
    ensures { PutsWords W.Sink text.old text.new (params_words WRITTEN params.now) }
{
    match params {
        KParams::Queue(threads) => {
            put_word(text, Kind::Queue.word());
            queue::put_params(text, *threads);
        }
        KParams::Pool(params) => {
            put_word(text, Kind::Pool.word());
            pool::put_params(text, params);
        }
        KParams::Console(bytes) => {
            put_word(text, Kind::Console.word());
            console::put_params(text, *bytes);
        }
        KParams::Sched(params) => {
            put_word(text, Kind::Sched.word());
            sched::put_params(text, params);
        }
    }
}
