//! A sink behind a buffer of fixed size.

ghost use Rattle.std.specs.Prelude.{◌≡◌, false, true, [], ◌∷◌, OnOk, OnErr};
ghost use Rattle.record_lines.specs.Output.{Puts};

use crate::{WriteFailed, write_text};
use arrayvec::ArrayVec;
use event_log::Sink;
use std::fmt;

/// How many bytes wait at the most.
const ROOM: usize = 16384;

/// Collects small pieces of a text, and writes them in large ones. After a failed write nothing more is
/// written, and `finish` reports it.
#[derive(Drop)]
pub struct Buffered<'a, W: Sink> {
    sink: &'a mut W,
    waiting: ArrayVec<u8, 16384>,
    failed: bool,
}

impl<'a, W: Sink> Buffered<'a, W> {
    pub fn new(sink: &'a mut W) -> Buffered<'a, W>
        ensures same_reference { result.sink.ghost_name ≡ sink.entry.ghost_name }
        ensures sink { result.sink.now ≡ sink.old }
        ensures waiting { result.waiting.items ≡ [] }
        ensures failed { result.failed ≡ false }
    {
        Buffered {
            sink,
            waiting: ArrayVec::new(),
            failed: false,
        }
    }

    fn put_byte(&mut self, byte: u8)
        ensures { Puts W.Sink self.old self.new (byte ∷ []) }
    {
        if self.waiting.is_full() {
            self.flush();
        }
        self.waiting.push(byte);
    }

    fn flush(&mut self)
        ensures puts { Puts W.Sink self.old self.new [] }
        ensures waiting { self.new.waiting.items ≡ [] }
    {
        if !self.failed && write_text(self.waiting.as_slice(), self.sink).is_err() {
            self.failed = true;
        }
        self.waiting.clear();
    }

    /// Puts the bytes one by one.
    #[cold]
    #[inline(never)]
    fn put_each(&mut self, bytes: &[u8])
        ensures { Puts W.Sink self.old self.new bytes.now }
    {
        for byte in bytes {
            self.put_byte(*byte);
        }
    }

    /// Puts the bytes. After a failed write they wait too, and are never written.
    #[inline(always)]
    pub fn put(&mut self, bytes: &[u8])
        ensures { Puts W.Sink self.old self.new bytes.now }
    {
        if self.waiting.try_extend_from_slice(bytes).is_err() {
            self.put_each(bytes);
        }
    }

    /// Writes what waits, and answers whether every write went well.
    pub fn finish(&mut self) -> Result<(), WriteFailed>
        ensures puts { Puts W.Sink self.old self.new [] }
        ensures waiting { self.new.waiting.items ≡ [] }
        ensures ok { OnOk result (self.new.failed ≡ false) }
        ensures err { OnErr result (self.new.failed ≡ true) }
    {
        self.flush();
        if self.failed {
            Err(WriteFailed)
        } else {
            Ok(())
        }
    }
}

impl<W: Sink> fmt::Write for Buffered<'_, W> {
    ghost write_str_gives = { λ old text new. Puts W.Sink old new text };

    fn write_str(&mut self, text: &str) -> fmt::Result {
        self.put(text.as_bytes());
        Ok(())
    }
}
