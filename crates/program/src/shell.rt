//! The shell of a program: it takes the words, has a command do what they ask for, and gives the status.

ghost use Rattle.std.specs.Prelude.{◌⊎◌};
ghost use Rattle.program.specs.Shell.{ByCommand, ByRefusal};

use crate::refusal::Refusal;
use crate::system::System;
use crate::words::words_given;
use event_log::Plain;
use std::fs::Files;
use std::io::{Input, Write};
use std::rt::Env;

/// Has `command` do what the words ask for, with the system's files and these streams for output and for refusals, and
/// answers its status. Words that aren't known go to `refuse`.
pub fn start<
    'a,
    R: Env + Files + Input + AllocGlobal,
    W: Write + Drop,
    F: Write + Drop,
    C: FnOnce(&[String], &mut System<'a, R>, &mut Plain<W>, &mut Plain<F>) -> u8,
    D: FnOnce(Refusal, &mut Plain<F>) -> u8,
>(rt: &'a R, streams: (W, F), command: C, refuse: D) -> u8
    requires command { C.IsAlwaysCallable command }
    requires refuse { D.IsAlwaysCallable refuse }
    ensures { ByCommand C.FnOnce command result ⊎ ByRefusal D.FnOnce refuse result }
{
    let (mut out, mut faults) = (Plain::new(streams.0), Plain::new(streams.1));
    match words_given(rt, rt.alloc()) {
        Ok(words) => command(
            words.as_slice(),
            &mut System::new(rt),
            &mut out,
            &mut faults,
        ),
        Err(fault) => refuse(fault, &mut faults),
    }
}
