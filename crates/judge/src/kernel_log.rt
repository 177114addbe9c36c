//! Logs of the kernel's four kinds in records of one's own, for callers in C.

ghost use Rattle.std.specs.Prelude.{◌≡◌};
ghost use Rattle.judge.specs.KernelLogs.{IsKernelReported};

use crate::Report;
use crate::report::OUT_OF_MEMORY;
use custom_kernel::kernel_count;
use std::alloc::Global;

/// No object of one of the kernel's kinds has its line there, or no head of a log is there.
pub const NO_MODEL: u32 = 12;

/// How many steps of a log are right, from the first on.
pub const COUNTED: u32 = 13;

/// What is reported of the log.
fn count_of(alloc: Global, text: &[u8], object: usize, log: usize) -> Report
    ensures { IsKernelReported text.now object log result }
{
    match kernel_count(alloc, text, object, log) {
        Ok(Some(right)) => Report::new(COUNTED, right as usize, 0, 0),
        Ok(None) => Report::new(NO_MODEL, 0, 0, 0),
        Err(_) => Report::new(OUT_OF_MEMORY, 0, 0, 0),
    }
}

/// Reports how many steps of the log whose head begins at the byte `log`, from the first on, are as the object answers whose line
/// begins at the byte `object`, if that is a queue, a pool, a console or a sched.
#[unsafe(no_mangle)]
pub extern "C" fn mc2_custom_kernel(
    alloc: Global,
    text: &[u8],
    object: usize,
    log: usize,
    report: &mut Report,
)
    ensures { IsKernelReported text.now object log report.new }
{
    *report = count_of(alloc, text, object, log);
}
