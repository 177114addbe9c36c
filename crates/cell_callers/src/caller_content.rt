//! The content of a caller's handle.

ghost use Rattle.std.specs.Prelude.{◌≡◌};
ghost use Rattle.cell_callers.specs.CallerContents.{may_be_freed};

use crate::Caller;
use kernel_object::KernelObject;

/// The content of a caller's handle. It can't be dropped.
pub enum CallerContent {
    /// Nothing: a new handle, or one whose caller was returned.
    Empty,
    Caller(Caller<KernelObject>),
}

impl CallerContent {
    /// Whether it may be freed: it has no caller, or one that is idle.
    pub fn is_free(&self) -> bool
        ensures { result ≡ may_be_freed self.now }
    {
        match self {
            CallerContent::Caller(caller) => caller.place.idle_cpu().is_some(),
            CallerContent::Empty => true,
        }
    }
}
