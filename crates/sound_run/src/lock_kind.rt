//! The locks that there are.

/// Which lock guards an object.
#[derive(Clone, Copy, Debug, PartialEq, Eq, Drop)]
pub enum LockKind {
    Ticket,
    Mcs,
}
