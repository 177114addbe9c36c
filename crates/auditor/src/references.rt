//! A second way to answer an object's calls.

ghost use Rattle.std.specs.Prelude.{◌≡◌, true, IfOk};

use event_log::{OutOfMemory, SeqObject};
use std::alloc::Global;

mod console;
mod object;
mod pool;
mod queue;
mod sched;

pub use console::ReferenceConsole;
pub use object::ReferenceKernelObject;
pub use pool::ReferencePool;
pub use queue::ReferenceQueue;
pub use sched::ReferenceSched;

/// Answers calls as the object does, by code that isn't the object's.
pub trait ReferenceObject<O: SeqObject>: Drop {
    /// The state that the object would be in.
    ghost shows: { Self → O };

    /// A new object. All the memory that it will ever use is taken here.
    fn open(alloc: Global, params: &O::Params) -> Result<Self, OutOfMemory>
        requires { O.in_range params.now ≡ true }
        ensures { IfOk result (λ r. shows r ≡ O.opening params.now) };

    /// Does a call. It takes no memory.
    fn apply(&mut self, call: &O::Call) -> O::Reply
        ensures { (shows self.new, result) ≡ O.answer (shows self.old) call.now };
}
