//! What a sequential object is.

ghost use Rattle.std.specs.Prelude.{◌≡◌, ◌↔◌, Bool, true, false, IfOk};

use std::alloc::{AllocError, AllocFailed, Global};

/// Memory was refused.
#[derive(Clone, Copy, Debug, PartialEq, Eq, Drop)]
pub struct OutOfMemory;

impl From<AllocError> for OutOfMemory {
    fn from(_refused: AllocError) -> OutOfMemory {
        OutOfMemory
    }
}

impl<T: Drop> From<AllocFailed<T>> for OutOfMemory {
    fn from(_refused: AllocFailed<T>) -> OutOfMemory {
        OutOfMemory
    }
}

/// Why an object was not opened.
#[derive(Clone, Copy, Debug, PartialEq, Eq, Drop)]
pub enum OpenFault {
    /// A parameter or the limit is out of its range.
    BadLimit,
    OutOfMemory,
}

impl From<AllocError> for OpenFault {
    ghost use Rattle.event_log.specs.declared.object.OpenFault.TheVariants.{OutOfMemory};

    ghost from_gives = { λ _ fault. fault ≡ OutOfMemory };

    fn from(_refused: AllocError) -> OpenFault {
        OpenFault::OutOfMemory
    }
}

impl<T: Drop> From<AllocFailed<T>> for OpenFault {
    ghost use Rattle.event_log.specs.declared.object.OpenFault.TheVariants.{OutOfMemory};

    ghost from_gives = { λ _ fault. fault ≡ OutOfMemory };

    fn from(_refused: AllocFailed<T>) -> OpenFault {
        OpenFault::OutOfMemory
    }
}

/// A sequential object: a state, and an answer to each call. Contracts see the state as the object's model.
pub trait SeqObject: Drop {
    type Params: Drop;

    type Call: Copy + Eq + Default;

    type Reply: Copy + Eq + Default;

    ghost use Rattle.std.specs.Mem.{FitsInMemory};
    ghost use Rattle.event_log.specs.{contracts.entry.Todo.{the_row as todo_row}, contracts.entry.Entry.{the_row as entry_row}, contracts.event.Steps.{the_row as steps_row}, contracts.event.Event.{the_row as event_row}};

    /// Whether an object can be opened with the parameters.
    ghost in_range: { Self.Params → Bool };

    /// The state of a new object.
    ghost opening: { Self.Params → Self };

    /// The state after a call, and the reply.
    ghost answer: { Self → Self.Call → Self × Self.Reply };

    /// Whether a reply refuses its call.
    ghost refusing: { Self.Reply → Bool };

    /// Opens an object, and takes all the memory that it will ever use. The parameters are judged first.
    fn open(alloc: Global, params: &Self::Params) -> Result<Self, OpenFault>
        ensures opened { IfOk result (λ object. object ≡ opening params.now) }
        ensures limits { in_range params.now ≡ false ↔ (result ≡ Err OpenFault.BadLimit) };

    /// Does a call. It takes no memory.
    fn apply(&mut self, call: &Self::Call) -> Self::Reply
        ensures { (self.new, result) ≡ answer self.old call.now };

    /// Whether the reply refuses its call.
    fn refuses(reply: &Self::Reply) -> bool
        ensures { result ≡ refusing reply.now };

    /// A call that is refused leaves the state.
    ghost stays: { (s : Self) (c : Self.Call) → refusing (answer s c).1 ≡ true → (answer s c).0 ≡ s };

    /// `==` on calls is equality.
    ghost call_equality: { (a b : Self.Call) → Self.Call.eq a b ≡ true → a ≡ b };

    /// `==` on replies is equality.
    ghost reply_equality: { (a b : Self.Reply) → Self.Reply.eq a b ≡ true → a ≡ b };

    /// A call, and each of the types that are made of calls and replies, has fewer than 2^63 bytes.
    ghost call_fits: { FitsInMemory Self.Call.row };

    ghost todo_fits: { FitsInMemory (todo_row Self.row Self.Params.row Self.Call.row Self.Reply.row) };

    ghost steps_fit: { FitsInMemory (steps_row Self.row Self.Params.row Self.Call.row Self.Reply.row) };

    ghost event_fits: { FitsInMemory (event_row Self.row Self.Params.row Self.Call.row Self.Reply.row) };

    ghost entry_fits: { FitsInMemory (entry_row Self.row Self.Params.row Self.Call.row Self.Reply.row) };
}
