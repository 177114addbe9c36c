//! The content of a cell's handle, and what is done with it.

ghost use Rattle.std.specs.Prelude.{◌≡◌, ◌↔◌, Err};
ghost use Rattle.cell_callers.specs.CellContents.{IsOpenedBy, IsBadOpening, IsNewCallerIn, IsOwn, IsReturnedTo, IsClosedBy, step_of};

use crate::cell_lifetime::{NoNewCaller, NotClosed};
use crate::logged_step::{LoggedStep, step_at};
use crate::opening::{NotOpened, Opening, open_cell};
use crate::{Caller, OpenCell};
use event_log::Logged;
use kernel_object::KernelObject;
use std::alloc::Global;

/// The content of a cell's handle. It can't be dropped.
pub enum CellContent {
    /// Nothing, as in a new handle.
    Empty,
    /// An open cell.
    Cell(OpenCell<KernelObject>),
    /// The object of a closed cell, with its log.
    Ended(Logged<KernelObject>),
}

impl CellContent {
    /// Opens a new cell, if the handle is empty.
    pub fn open(self, alloc: Global, opening: &Opening) -> (CellContent, Result<(), NotOpened>)
        ensures opened { IsOpenedBy self opening.now result.1 result.0 }
        ensures judged { IsBadOpening self opening.now ↔ (result.1 ≡ Err NotOpened.BadOpening) }
    {
        match self {
            CellContent::Empty => match open_cell(alloc, opening) {
                Ok(cell) => (CellContent::Cell(cell), Ok(())),
                Err(why) => (CellContent::Empty, Err(why)),
            },
            other => (other, Err(NotOpened::NotEmpty)),
        }
    }

    /// Creates a caller of a cell that has a pass left.
    pub fn new_caller(self) -> (CellContent, Result<Caller<KernelObject>, NoNewCaller>)
        ensures { IsNewCallerIn self result.1 result.0 }
    {
        match self {
            CellContent::Cell(cell) => {
                let (cell, caller) = cell.new_caller();
                (CellContent::Cell(cell), caller)
            }
            other => (other, Err(NoNewCaller::NoneLeft)),
        }
    }

    /// Returns a caller to its cell.
    pub fn return_caller(
        self,
        caller: Caller<KernelObject>,
    ) -> (CellContent, Option<Caller<KernelObject>>)
        requires { IsOwn self caller }
        ensures { IsReturnedTo self caller result.1 result.0 }
    {
        match self {
            CellContent::Cell(cell) => {
                let (cell, left) = cell.return_caller(caller);
                (CellContent::Cell(cell), left)
            }
            other => (other, Some(caller)),
        }
    }

    /// Closes a cell, once all callers are returned.
    pub fn close(self) -> (CellContent, Result<(), NotClosed>)
        ensures { IsClosedBy self result.1 result.0 }
    {
        match self {
            CellContent::Cell(cell) => match cell.close() {
                Ok(logged) => (CellContent::Ended(logged), Ok(())),
                Err((cell, why)) => (CellContent::Cell(cell), Err(why)),
            },
            other => (other, Err(NotClosed::NotAllBack)),
        }
    }

    /// A step of the log of a closed cell.
    pub fn step_at(&self, event: usize, step: usize) -> Option<LoggedStep>
        ensures { result ≡ step_of self.now event step }
    {
        match self {
            CellContent::Ended(logged) => step_at(logged.log(), event, step),
            _ => None,
        }
    }
}
