//! What a cell of the step machine is made of.

use event_log::{Logged, SeqObject};
use sound_run::LockKind;

/// A cell for the step machine: its lock, the first ticket (modulo 2^32; 0 for a lock without tickets), and the object with its log.
#[derive(Drop)]
pub struct CellSpec<O: SeqObject> {
    pub kind: LockKind,
    pub first: u64,
    pub logged: Logged<O>,
}
