//! Reports to callers that wait outside a cell's functions.

/// The report of one step on the way to the lock, or back, to its caller.
#[derive(Clone, Copy, Debug, PartialEq, Eq, Drop)]
pub enum Progress {
    /// It is a step further, and has looked at nothing.
    Stepped,
    /// A failed look: another caller has to do something first.
    Looked,
    /// It has acquired the lock, without a look.
    Entered,
    /// It has acquired the lock, by a look.
    Found,
    /// It has released the lock.
    Left,
}

/// How far a caller has come towards the lock.
pub enum Polled<H, S> {
    /// It holds the lock, by a look or without one.
    Held(H, bool),
    /// It is in line, after a failed look.
    Waits(S),
    /// Nothing was done, since it is neither idle nor at a look.
    Refused(S),
}

/// How far a caller has come by a try.
pub enum Tried<H, S> {
    /// It holds the lock.
    Held(H),
    /// Another caller holds the lock or is in line for it, and nothing was done.
    Busy(S),
    /// Nothing was done, since it isn't idle.
    Refused(S),
}
