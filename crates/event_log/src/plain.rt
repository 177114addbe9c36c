//! Streams over the readers and writers of std.

ghost use Rattle.std.specs.Prelude.{◌≡◌};
ghost use Rattle.event_log.specs.Stream.{failed_calls};

use crate::{Sink, Source, StreamFailed};
use std::io::{Read, Write};

/// A reader or a writer of std, with the number of its calls that have failed. An interrupted call has failed too: none
/// is tried again.
#[derive(Debug, Drop)]
pub struct Plain<T> {
    pub inner: T,
    failed: u64,
}

impl<T> Plain<T> {
    /// A stream on which no call has failed yet.
    pub fn new(inner: T) -> Plain<T>
        ensures inner { result.inner ≡ inner }
        ensures none_failed { failed_calls result ≡ 0 }
    {
        Plain { inner, failed: 0 }
    }

    /// How many of its calls have failed.
    pub fn failed_calls(&self) -> u64
        ensures { result ≡ failed_calls self.now }
    {
        self.failed
    }
}

impl<T: Read> Source for Plain<T> {
    ghost remaining = { λ s. T.remaining s.inner };

    ghost failed = { failed_calls };

    fn read(&mut self, buffer: &mut [u8]) -> Result<usize, StreamFailed> {
        match self.inner.read(buffer) {
            Ok(count) => Ok(count),
            Err(_) => {
                self.failed = self.failed.saturating_add(1);
                Err(StreamFailed)
            }
        }
    }
}

impl<T: Write> Sink for Plain<T> {
    ghost contents = { λ s. T.contents s.inner };

    ghost failed = { failed_calls };

    fn write(&mut self, bytes: &[u8]) -> Result<usize, StreamFailed> {
        match self.inner.write(bytes) {
            Ok(count) => {
                if count == 0 && !bytes.is_empty() {
                    self.failed = self.failed.saturating_add(1);
                }
                Ok(count)
            }
            Err(_) => {
                self.failed = self.failed.saturating_add(1);
                Err(StreamFailed)
            }
        }
    }
}
