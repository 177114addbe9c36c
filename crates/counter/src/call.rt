//! What a counter is asked, and what it answers.

/// A call on a counter.
#[derive(Clone, Copy, Debug, Default, PartialEq, Eq, Drop)]
pub enum CounterCall {
    /// Counts one more.
    Increase,
    /// Answers how many it has counted.
    #[default]
    Read,
}

/// The reply to a call on a counter.
#[derive(Clone, Copy, Debug, Default, PartialEq, Eq, Drop)]
pub enum CounterReply {
    #[default]
    Ok,
    /// Refused: it has counted as many as it can.
    Full,
    Value(u32),
}
