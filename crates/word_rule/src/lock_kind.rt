//! Where a caller stands at each lock.

/// What a caller has done last, and so what it may do next. A caller that owns several CPU numbers stands at this place
/// with the number that it acts as; its others are idle.
#[derive(Clone, Copy, Debug, PartialEq, Eq, Drop)]
pub enum Stage {
    /// It isn't in line.
    Idle,
    /// It is at a ticket lock.
    Ticket(TicketStage),
    /// It is at an MCS lock.
    Mcs(McsStage),
    /// It has cleared its `next` word for a try, and isn't in line. The step machine has no tries, so no CPU of it stands here.
    Trying,
}

/// Where a caller stands at a ticket lock.
#[derive(Clone, Copy, Debug, PartialEq, Eq, Drop)]
pub enum TicketStage {
    /// It is in line, with this ticket.
    Drawn(u32),
    /// It has the object, by this ticket.
    Served(u32),
}

/// Where a caller stands at an MCS lock.
#[derive(Clone, Copy, Debug, PartialEq, Eq, Drop)]
pub enum McsStage {
    /// It has cleared its `next` word, and isn't in the queue yet.
    Ready,
    /// It is in the queue behind this CPU.
    Behind(u8),
    /// The same, and it has armed itself.
    Armed(u8),
    /// It has linked itself to the one before it.
    Waiting,
    /// It is the first of the queue, and has the object.
    Holding,
    /// The same, and it saw nobody behind it.
    Alone,
    /// The same, and it has found that it isn't the last.
    Leaving,
    /// The same, and it has seen this CPU behind it.
    Passing(u8),
}
