//! Opening an object of settings.

ghost use Rattle.std.specs.Prelude.{◌≡◌, ◌≤◌, IfOk};
ghost use Rattle.event_log.specs.History.{IsKept, opened_history};
ghost use Rattle.records.specs.Settings.{ObjectFits};
ghost use Rattle.kernel_words.specs.declared.form.TheConstants.{WRITTEN};

use event_log::{Logged, MOST_EVENTS, OpenFault, OutOfMemory, SeqObject};
use scripts::{KernelObject, ObjectSettings};
use std::alloc::Global;

/// Opens an object of settings, which are within its limits.
pub fn open_object(
    alloc: Global,
    object: &ObjectSettings,
) -> Result<Logged<KernelObject>, OutOfMemory>
    requires { ObjectFits WRITTEN object.now }
    ensures opened { IfOk result (λ l. l ≡ opened_history object.now.params object.now.events (⟦<KernelObject as SeqObject>⟧.opening object.now.params)) }
    ensures stored { IfOk result (λ l. l.limit ≤ MOST_EVENTS) }
    ensures kept { IfOk result (λ l. IsKept ⟦<KernelObject as SeqObject>⟧ l) }
{
    match Logged::open(alloc, object.params(), object.events()) {
        Ok(logged) => Ok(logged),
        Err(OpenFault::OutOfMemory) => Err(OutOfMemory),
        Err(OpenFault::BadLimit) => unreachable!(),
    }
}
