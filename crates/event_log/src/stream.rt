//! The streams of all engines: where their bytes come from, and where they go.

ghost use Rattle.std.specs.{Prelude.{◌≡◌, ◌≤◌, ℕ, List, Option, None, IfOk, length}, Io.KnownBytes.{ReadConsumes, WriteAppends}};
ghost use Rattle.event_log.specs.Stream.{counted, is_failed_read, is_failed_write};

/// A call on a stream failed.
#[derive(Clone, Copy, Debug, PartialEq, Eq, Drop)]
pub struct StreamFailed;

/// Where bytes come from.
pub trait Source {
    /// The bytes that are left, where the source shows them.
    ghost remaining: { Self → Option (List ℕ) } = { λ _. None };

    /// How many calls have failed, counted to 2^64 - 1.
    ghost failed: { Self → ℕ };

    /// Reads some bytes to the front of the buffer, and answers how many: none only at the end, or where the
    /// buffer has no room.
    fn read(&mut self, buffer: &mut [u8]) -> Result<usize, StreamFailed>
        ensures bound { IfOk result (λ n. n ≤ length buffer.new) }
        ensures bytes { ReadConsumes (remaining self.old) (remaining self.new) result buffer.new }
        ensures failures { failed self.new ≡ counted (is_failed_read result) (failed self.old) };
}

/// Where bytes go.
pub trait Sink {
    /// The bytes that were taken so far, where the sink shows them.
    ghost contents: { Self → Option (List ℕ) } = { λ _. None };

    /// How many calls have failed, counted to 2^64 - 1. A write that takes none of some bytes has failed too.
    ghost failed: { Self → ℕ };

    /// Takes some bytes from the front, and answers how many.
    fn write(&mut self, bytes: &[u8]) -> Result<usize, StreamFailed>
        ensures bound { IfOk result (λ n. n ≤ length bytes.now) }
        ensures bytes { WriteAppends (contents self.old) (contents self.new) result bytes.now }
        ensures failures { failed self.new ≡ counted (is_failed_write result bytes.now) (failed self.old) };
}
