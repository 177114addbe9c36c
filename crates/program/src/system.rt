//! The files and the standard input of the system.

use crate::Inputs;
use event_log::{Plain, StreamFailed};
use std::fs::{File, Files};
use std::io;
use std::io::{Input, Read};

/// An open file, or standard input.
#[derive(Drop)]
pub enum Opened<F, S> {
    File(F),
    Standard(S),
}

impl<F: Read, S: Read> Read for Opened<F, S> {
    fn read(&mut self, buffer: &mut [u8]) -> io::Result<usize> {
        match self {
            Opened::File(file) => file.read(buffer),
            Opened::Standard(input) => input.read(buffer),
        }
    }
}

/// The files and the standard input of the system, which say nothing of what they hold, with the number of openings and
/// reads that have failed.
#[derive(Drop)]
pub struct System<'a, R> {
    rt: &'a R,
    failed: u64,
}

impl<'a, R> System<'a, R> {
    /// Of them none has failed yet.
    pub fn new(rt: &'a R) -> System<'a, R> {
        System { rt, failed: 0 }
    }
}

impl<R: Files + Input> Inputs for System<'_, R> {
    type Input = Plain<Opened<R::File, R::Reader>>;

    ghost failed = { λ s. s.failed };

    fn input(&mut self, name: Option<&str>) -> Result<Self::Input, StreamFailed> {
        match name {
            Some(name) => match File::open(self.rt, name) {
                Ok(file) => Ok(Plain::new(Opened::File(file))),
                Err(_) => {
                    self.failed = self.failed.saturating_add(1);
                    Err(StreamFailed)
                }
            },
            None => Ok(Plain::new(Opened::Standard(self.rt.reader()))),
        }
    }

    fn close(&mut self, input: Self::Input) {
        self.failed = self.failed.saturating_add(input.failed_calls());
    }
}
