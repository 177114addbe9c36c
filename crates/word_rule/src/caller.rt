//! A caller of a cell, whichever lock the cell has: it has the object, or hasn't.

use crate::{Cpu, Key, LoanToken, Seat};
use event_log::{Logged, SeqObject};
use std::snapshot::Snapshot;

/// A caller without the object. It can be dropped, but what has it as a field can't unless it says so itself. Its fields are for
/// the crates of the locks.
#[derive(Drop)]
pub struct Outside<O: SeqObject> {
    pub cpu: Cpu,
    pub key: Snapshot<Key<O>>,
    pub seat: Seat<O>,
}

/// A caller with the object. It can't be dropped: it ends where its lock takes the object back. Its fields are for the crates of
/// the locks.
pub struct Inside<O: SeqObject> {
    pub outside: Outside<O>,
    pub logged: Logged<O>,
    pub loan: LoanToken,
}
