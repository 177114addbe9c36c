//! The settings with which C opens a cell.

ghost use Rattle.std.specs.Prelude.{◌≡◌, ◌<◌, ◌≤◌, ◌↔◌, ◌⊎◌, false, IfOk, IfErr, OnErr, Err};
ghost use Rattle.sound_run.specs.declared.limits.TheConstants.{MOST_CPUS};
ghost use Rattle.event_log.specs.History.{opened_history};
ghost use Rattle.kernel_object.specs.Kernel.{kernel_in_range, kernel_opening};
ghost use Rattle.cell_callers.specs.Openings.{params_of, lock_numbered, cpus_numbered, limit_of, IsUnfit, IsOpened};

use crate::OpenCell;
use event_log::{Logged, MOST_EVENTS, OpenFault};
use kernel_object::{KParams, KernelObject};
use page_pool::{OWNERS, PoolParams};
use sound_run::{LockKind, MOST_CPUS};
use std::alloc::Global;
use wake_list::SchedParams;

/// The settings of a cell: the numbers of its lock and its kind of object, the limit of its log in events, its CPUs, and the
/// parameters of the object. With 0 events the log isn't kept in memory.
#[derive(Clone, Copy, Debug, PartialEq, Eq, Drop)]
#[repr(C)]
pub struct Opening {
    pub lock: u32,
    pub kind: u32,
    pub events: u32,
    pub cpus: u32,
    pub size: u32,
    pub channels: u32,
    pub quotas: [u32; OWNERS],
}

/// Why no cell was opened.
#[derive(Clone, Copy, Debug, PartialEq, Eq, Drop)]
pub enum NotOpened {
    /// The handle isn't empty, or, for a reopening, has no closed cell.
    NotEmpty,
    /// A number doesn't fit.
    BadOpening,
    OutOfMemory,
}

/// The parameters of an object of that kind.
#[inline(never)]
fn params_of(opening: &Opening) -> Option<KParams>
    ensures { result ≡ params_of opening.now }
{
    let all = [
        KParams::Queue(opening.size),
        KParams::Pool(PoolParams {
            pages: opening.size,
            quotas: opening.quotas,
        }),
        KParams::Console(opening.size),
        KParams::Sched(SchedParams {
            threads: opening.size,
            channels: opening.channels,
        }),
    ];
    all.get(opening.kind as usize).copied()
}

/// The lock of that number.
pub fn lock_numbered(number: u32) -> Option<LockKind>
    ensures { result ≡ lock_numbered number }
{
    [LockKind::Ticket, LockKind::Mcs]
        .get(number as usize)
        .copied()
}

/// The number of CPUs, if a cell can have it.
pub fn cpus_numbered(number: u32) -> Option<u8>
    ensures { result ≡ cpus_numbered number }
{
    if number == 0 || number > MOST_CPUS as u32 {
        return None;
    }
    Some(number as u8)
}

/// A new object with its log, whose memory is written once; with 0 events the log isn't kept in memory. This is a function of its
/// own because its stack frame is large, and is gone before the cell is opened.
#[inline(never)]
fn open_object(
    alloc: Global,
    params: KParams,
    events: u32,
) -> Result<Logged<KernelObject>, OpenFault>
    ensures opened { IfOk result (λ l. l ≡ opened_history params (limit_of events) (kernel_opening params)) }
    ensures judged { ((MOST_EVENTS < events) ⊎ (kernel_in_range params ≡ false)) ↔ (result ≡ Err OpenFault.BadLimit) }
{
    if events == 0 {
        return Logged::open_unkept(alloc, params);
    }
    let mut logged = Logged::open(alloc, params, events)?;
    logged.touch();
    Ok(logged)
}

/// Opens a new cell. There is none if a number doesn't fit, which is checked first, or if memory is refused.
pub fn open_cell(alloc: Global, opening: &Opening) -> Result<OpenCell<KernelObject>, NotOpened>
    ensures opened { IfOk result (λ c. IsOpened opening.now c) }
    ensures judged { IsUnfit opening.now ↔ (result ≡ Err NotOpened.BadOpening) }
    ensures reason { IfErr result (λ why. (why ≡ NotOpened.BadOpening) ⊎ (why ≡ NotOpened.OutOfMemory)) }
{
    let Some(kind) = lock_numbered(opening.lock) else {
        return Err(NotOpened::BadOpening);
    };
    let Some(params) = params_of(opening) else {
        return Err(NotOpened::BadOpening);
    };
    let Some(cpus) = cpus_numbered(opening.cpus) else {
        return Err(NotOpened::BadOpening);
    };
    let logged = match open_object(alloc, params, opening.events) {
        Ok(logged) => logged,
        Err(OpenFault::BadLimit) => return Err(NotOpened::BadOpening),
        Err(OpenFault::OutOfMemory) => return Err(NotOpened::OutOfMemory),
    };
    match OpenCell::open(alloc, kind, logged, cpus) {
        Ok(cell) => Ok(cell),
        Err(_) => Err(NotOpened::OutOfMemory),
    }
}
