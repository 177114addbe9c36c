//! Lines of text and the words in them: read piece by piece from sources, and put to sinks.
#![tactic(auto)]

mod forms;
mod streams;
mod text;

pub use forms::form::RecordForm;
pub use forms::lists::RecordLists;
pub use forms::place::Next;
pub use forms::sink::RecordSink;
pub use forms::state::RecordState;
pub use forms::step_texts::{Ending, StepTexts, StepWords, with_row};
pub use streams::buffer::Buffered;
pub use streams::feeding::{SourceFault, TakesPieces, feed_all};
pub use streams::front_reader::read_up_to;
pub use streams::source_reader::read_all;
pub use streams::text_writer::{WriteFailed, write_text};
pub use text::fault::{LineFault, LinesFault, TextFault};
pub use text::line_machine::{MOST_BYTES, Pieces, TakesLines};
pub use text::line_writer::{begin_line, end_line, put_number, put_word, put_words};
pub use text::name::{is_name, name_in, name_of};
pub use text::split::{split_line, split_once};
pub use text::words::{Words, after, key, mark, number, number_of, word};
