//! The memory of a step machine.

ghost use Rattle.std.specs.Prelude.{◌≡◌, ◌≤◌, [], length, vec_capacity, IfOk};
ghost use Rattle.word_rule.specs.Machine.Shown.{FreshLocks, FreshDone};

use crate::machine::cell_spec::CellSpec;
use crate::machine::lock_words::LockWords;
use crate::machine::progress::Progress;
use event_log::{Entry, Event, OutOfMemory, SeqObject, Series, Todo};
use sound_run::MOST_CPUS;
use std::alloc::Global;

/// All that a machine keeps beside the cells and the scripts, before the first step.
#[derive(Drop)]
pub struct Room<O: SeqObject> {
    pub locks: Vec<LockWords>,
    pub done: Vec<Progress<O>>,
    pub logs: Vec<Series<Event<O>>>,
    pub transcripts: Vec<Series<Entry<O>>>,
}

/// The words of each cell.
fn make_locks<O: SeqObject>(
    alloc: Global,
    cells: &[CellSpec<O>],
    cpus: usize,
) -> Result<Vec<LockWords>, OutOfMemory>
    requires { cpus ≤ MOST_CPUS }
    ensures { IfOk result (λ v. FreshLocks O.SeqObject cpus cells.now v.items) }
{
    let mut locks = Vec::new(alloc);
    for cell in cells {
        let _ = cell.logged.log();
        let lock = LockWords::new(alloc, cell.kind, cell.first, cpus)?;
        locks.push(lock)?;
    }
    Ok(locks)
}

/// Each CPU's progress, with room for its whole script.
fn make_done<O: SeqObject>(
    alloc: Global,
    scripts: &[Vec<Todo<O>>],
) -> Result<Vec<Progress<O>>, OutOfMemory>
    ensures { IfOk result (λ v. FreshDone scripts.now v.items) }
{
    let mut done = Vec::new(alloc);
    for script in scripts {
        let progress = Progress::new(alloc, script.len())?;
        done.push(progress)?;
    }
    Ok(done)
}

/// Takes all the memory of a machine of these cells and scripts.
pub fn make_room<O: SeqObject>(
    alloc: Global,
    cells: &[CellSpec<O>],
    scripts: &[Vec<Todo<O>>],
) -> Result<Room<O>, OutOfMemory>
    requires { length scripts.now ≤ MOST_CPUS }
    ensures locks { IfOk result (λ r. FreshLocks O.SeqObject (length scripts.now) cells.now r.locks.items) }
    ensures done { IfOk result (λ r. FreshDone scripts.now r.done.items) }
    ensures logs { IfOk result (λ r. (r.logs.items ≡ []) × (length cells.now ≤ vec_capacity r.logs)) }
    ensures transcripts { IfOk result (λ r. (r.transcripts.items ≡ []) × (length scripts.now ≤ vec_capacity r.transcripts)) }
{
    let locks = make_locks(alloc, cells, scripts.len())?;
    let done = make_done(alloc, scripts)?;
    let logs = Vec::with_capacity(alloc, cells.len())?;
    let transcripts = Vec::with_capacity(alloc, scripts.len())?;
    Ok(Room {
        locks,
        done,
        logs,
        transcripts,
    })
}
