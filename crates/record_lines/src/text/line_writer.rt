//! Putting words and lines.

ghost use Rattle.std.specs.Prelude.{[], ◌∷◌, decimal};
ghost use Rattle.record_lines.specs.{Output.{Puts, PutsWords}, Reading.words};

use crate::Buffered;
use event_log::Sink;
use itoa::Buffer;

/// Puts a word behind a space.
#[inline(always)]
pub fn put_word<W: Sink>(text: &mut Buffered<W>, word: &[u8])
    ensures { PutsWords W.Sink text.old text.new (word.now ∷ []) }
{
    text.put(b" ");
    text.put(word);
}

/// Puts words, which have single spaces between them, behind a space.
pub fn put_words<W: Sink>(text: &mut Buffered<W>, line: &[u8])
    ensures { PutsWords W.Sink text.old text.new (words line.now) }
{
    text.put(b" ");
    text.put(line);
}

/// Puts a number behind a space.
#[inline]
pub fn put_number<W: Sink>(text: &mut Buffered<W>, number: u64)
    ensures { PutsWords W.Sink text.old text.new (decimal number ∷ []) }
{
    text.put(b" ");
    begin_line(text, number);
}

/// Puts the end of a line.
#[inline(always)]
pub fn end_line<W: Sink>(text: &mut Buffered<W>)
    ensures { Puts W.Sink text.old text.new (10 ∷ []) }
{
    text.put(b"\n");
}

/// Puts a number at the front of a line.
#[inline]
pub fn begin_line<W: Sink>(text: &mut Buffered<W>, number: u64)
    ensures { Puts W.Sink text.old text.new (decimal number) }
{
    if number < 10 {
        text.put(&[b'0' + number as u8]);
    } else {
        text.put(Buffer::new().format(number).as_bytes());
    }
}
