//! What can be wrong with a run.

/// A fault with its place. Objects, events, steps, CPUs and entries are numbered from 0.
#[derive(Clone, Copy, Debug, PartialEq, Eq, Drop)]
pub enum Fault {
    /// The object's log has more events than its limit.
    TooLong {
        object: usize,
    },
    /// The step's reply isn't the object's answer, or an earlier step of the event refused.
    WrongStep {
        object: usize,
        event: usize,
        step: usize,
    },
    /// The entry found no room, though there was some.
    RoomWasLeft {
        cpu: usize,
        entry: usize,
    },
    /// The entry's steps aren't those of the CPU's next event, or there is none.
    NotItsEvent {
        cpu: usize,
        entry: usize,
    },
    /// The entry's steps aren't what was asked.
    NotAsked {
        cpu: usize,
        entry: usize,
    },
    /// No entry took the event.
    Unclaimed {
        object: usize,
        event: usize,
    },
}

/// What is said of a run.
#[derive(Clone, Copy, Debug, PartialEq, Eq, Drop)]
pub enum Verdict {
    Sound,
    Unsound(Fault),
}
