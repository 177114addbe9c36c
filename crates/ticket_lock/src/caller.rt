//! A caller of a ticket lock that keeps its own state.

use crate::states::Drawn;
use event_log::SeqObject;
use word_rule::{Hold, Pass};

/// A caller in any state of the lock. It can't be dropped.
pub enum TicketCaller<O: SeqObject> {
    /// It is idle: it isn't in line and doesn't hold the lock.
    Idle(Pass<O>),
    /// It is in line.
    Drawn(Drawn<O>),
    /// It holds the lock.
    Holding(Hold<O>),
}
