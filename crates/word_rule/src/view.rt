//! What the seats at a cell's table know of their callers. Contracts read these types, and no value of them is made.

use crate::{Stage, StepDone};
use std::collections::LinkedList;
use std::marker::Model;
use std::snapshot::Snapshot;

/// A list that contracts alone read. It has no node, so its elements may be of any size.
pub struct GhostList<E> {
    events: Snapshot<Vec<E>>,
}

impl<E> Model for GhostList<E> {
    ghost use Rattle.std.specs.Prelude.{List};

    ghost Value = { List E };

    ghost view = { λ t. t.events.value.items };
}

/// A step that a CPU has done on a cell's lock, and the events that it left in the log: those of the hold that it ended.
pub struct TraceStep<E> {
    pub cpu: u8,
    pub step: StepDone,
    pub events: GhostList<E>,
}

/// A caller at its seat: the number that it acts as, the numbers that it owns, where it stands, the log of events and the run
/// of steps that it has seen, and the word 0 that it has read for a try, if it has done nothing since.
pub struct CallerView<E> {
    pub cpu: u8,
    pub owned: LinkedList<u8>,
    pub stage: Stage,
    pub seen: GhostList<E>,
    pub run: GhostList<TraceStep<E>>,
    pub read: Option<u64>,
}

/// A seat: what was reported to it of its cell (nothing, once another seat has taken it in), its caller, and the callers that
/// it has taken in.
pub struct View<H, E> {
    pub reported: LinkedList<H>,
    pub main: CallerView<E>,
    pub others: LinkedList<CallerView<E>>,
}
