//! A closed cell is reopened.

ghost use Rattle.cell_callers.specs.Reopenings.{IsReopenedBy, IsForgotten};

use crate::opening::{NotOpened, cpus_numbered, lock_numbered};
use crate::{CellContent, OpenCell};
use std::alloc::Global;

impl CellContent {
    /// Opens a new cell of that lock and number of CPUs, on the object of a closed one. The log continues.
    pub fn reopen(self, alloc: Global, lock: u32, cpus: u32) -> (CellContent, Result<(), NotOpened>)
        ensures { IsReopenedBy self lock cpus result.1 result.0 }
    {
        match self {
            CellContent::Ended(logged) => {
                let Some(lock) = lock_numbered(lock) else {
                    return (CellContent::Ended(logged), Err(NotOpened::BadOpening));
                };
                let Some(cpus) = cpus_numbered(cpus) else {
                    return (CellContent::Ended(logged), Err(NotOpened::BadOpening));
                };
                match OpenCell::open(alloc, lock, logged, cpus) {
                    Ok(cell) => (CellContent::Cell(cell), Ok(())),
                    Err(logged) => (CellContent::Ended(logged), Err(NotOpened::OutOfMemory)),
                }
            }
            other => (other, Err(NotOpened::NotEmpty)),
        }
    }

    /// Stops keeping the log of a closed cell, which then has room for 2^64 - 1 events.
    pub fn forget(self, alloc: Global) -> (CellContent, bool)
        ensures { IsForgotten self result.1 result.0 }
    {
        match self {
            CellContent::Ended(logged) => (CellContent::Ended(logged.into_unkept(alloc)), true),
            other => (other, false),
        }
    }
}
