//! A caller of an MCS lock that keeps its own state.

use crate::rested::Rested;
use crate::states::{Alone, Armed, Behind, Leaving, Passing, Ready, Waiting};
use event_log::SeqObject;
use word_rule::{Hold, Pass};

/// A caller in any state of the lock. It can't be dropped.
pub enum McsCaller<O: SeqObject> {
    /// It is idle: it isn't in the queue and doesn't hold the lock.
    Idle(Pass<O>),
    /// The same, and its `next` is clear.
    Rested(Rested<O>),
    /// It has cleared its `next`, and isn't in the queue yet.
    Ready(Ready<O>),
    /// It is in the queue, and another is before it.
    Behind(Behind<O>),
    /// The same, and it has armed itself.
    Armed(Armed<O>),
    /// The same, and the one before it can see it.
    Waiting(Waiting<O>),
    /// It holds the lock.
    Holding(Hold<O>),
    /// It is releasing the lock, and saw no successor.
    Alone(Alone<O>),
    /// The same, and it isn't the last in the queue.
    Leaving(Leaving<O>),
    /// It is releasing the lock, and has seen its successor.
    Passing(Passing<O>),
}
