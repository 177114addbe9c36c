//! Values once more.

ghost use Rattle.std.specs.Prelude.{◌≡◌, IfOk};

use arrayvec::ArrayVec;
use event_log::{OutOfMemory, Todo};
use kernel_object::KernelObject;
use std::alloc::Global;

/// What can be had once more without taking memory.
pub trait CopyOut: Drop {
    /// The same once more.
    fn copy_out(&self) -> Self
        ensures { result ≡ self.now };
}

impl CopyOut for Todo<KernelObject> {
    fn copy_out(&self) -> Todo<KernelObject> {
        let Ok(calls) = ArrayVec::try_from(self.calls.as_slice()) else {
            unreachable!()
        };
        Todo {
            object: self.object,
            calls,
        }
    }
}

/// The same values once more, in memory that is taken at once.
pub fn copy_all<T: CopyOut>(alloc: Global, values: &[T]) -> Result<Vec<T>, OutOfMemory>
    ensures { IfOk result (λ copies. copies.items ≡ values.now) }
{
    let mut copies = Vec::with_capacity(alloc, values.len())?;
    for value in values {
        copies.push_reserved(value.copy_out());
    }
    Ok(copies)
}
