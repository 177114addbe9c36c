//! The words that the program was started with.

ghost use Rattle.std.specs.Prelude.{IfErr};
ghost use Rattle.program.specs.Shell.{IsOfWords};

use crate::refusal::Refusal;
use std::alloc::Global;
use std::env::FillError;
use std::rt::Env;
use std::{env, io};

/// What the program was started with, but for the first word: that is its own path, which need not be text.
#[derive(Drop)]
struct AfterPath<'a, E> {
    env: &'a E,
}

impl<E: Env> Env for AfterPath<'_, E> {
    fn arg(&self, i: usize, buf: &mut [u8]) -> Result<usize, FillError> {
        match i.checked_add(1) {
            Some(next) => self.env.arg(next, buf),
            None => Err(FillError::NotPresent),
        }
    }

    fn var(&self, name: &str, buf: &mut [u8]) -> Result<usize, FillError> {
        self.env.var(name, buf)
    }

    fn var_at(&self, i: usize, buf: &mut [u8]) -> Result<usize, FillError> {
        self.env.var_at(i, buf)
    }
}

/// The words after the program's path. One that isn't UTF-8 is refused.
pub fn words_given<E: Env>(env: &E, alloc: Global) -> Result<Vec<String>, Refusal>
    ensures refused { IfErr result IsOfWords }
{
    let mut words = Vec::new(alloc);
    match env::args(&(AfterPath { env }, alloc)) {
        Ok(all) => {
            for word in all {
                if words.push(word).is_err() {
                    return Err(Refusal::OutOfMemory);
                }
            }
            Ok(words)
        }
        Err(error) if error.kind() == io::ErrorKind::OutOfMemory => Err(Refusal::OutOfMemory),
        Err(_) => Err(Refusal::BadWords),
    }
}
