//! Writing a value by its table.

ghost use Rattle.record_lines.specs.{Output.PutsWords, Reading.words};
ghost use Rattle.kernel_words.specs.Row.{spelled};

use crate::Spelled;
use event_log::Sink;
use record_lines::{Buffered, put_number, put_word};

/// Puts the words of a value, each behind a space.
pub fn put_value<T: Spelled, W: Sink>(text: &mut Buffered<W>, value: &T)
    ensures { PutsWords W.Sink text.old text.new (spelled (T.row_of value.now)) }
{
    let spelling = value.spelling();
    put_word(text, spelling.word);
    match spelling.fields.as_slice() {
        [] => {}
        [field] => put_number(text, u64::from(field.value)),
        [first, second, ..] => {
            put_number(text, u64::from(first.value));
            put_number(text, u64::from(second.value));
        }
    }
}
