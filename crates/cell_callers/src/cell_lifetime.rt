//! A cell is opened, its passes are given out and returned, and it is closed.

ghost use Rattle.std.specs.Prelude.{◌≡◌, ◌≤◌, ◌<◌, ◌+◌, IfOk, IfErr};
ghost use Rattle.std_alloc.specs.Arc.{arc_value};
ghost use Rattle.sound_run.specs.declared.limits.TheConstants.{MOST_CPUS};
ghost use Rattle.cell_callers.specs.{OpenCells.{IsHome, TakesIn}, NewCells.IsOpenedOn, Ends.{IsNewCaller, IsReturned, IsClosed}};

use crate::{Caller, CallerPlace, OpenCell};
use event_log::{Logged, SeqObject};
use guarded_cell::{AnyCell, end_unused};
use sound_run::{LockKind, MOST_CPUS};
use std::alloc::Global;
use std::sync::Arc;
use word_rule::{LockCell, Pass};

/// Why no caller was created.
#[derive(Clone, Copy, Debug, PartialEq, Eq, Drop)]
pub enum NoNewCaller {
    /// Each CPU has a caller, or had one.
    NoneLeft,
    /// The cell has as many owners as can be counted.
    NoShare,
}

/// Why a cell wasn't closed.
#[derive(Clone, Copy, Debug, PartialEq, Eq, Drop)]
pub enum NotClosed {
    /// A CPU's caller wasn't returned.
    NotAllBack,
    /// All were, but the cell has another owner.
    Shared,
}

impl<O: SeqObject> OpenCell<O> {
    /// Opens a new cell of the kind, of 1 to 64 CPUs, around the object. The log continues. If memory is refused it returns the
    /// object unchanged.
    pub fn open(
        alloc: Global,
        kind: LockKind,
        logged: Logged<O>,
        cpus: u8,
    ) -> Result<OpenCell<O>, Logged<O>>
        requires some { 0 < cpus }
        requires few { cpus ≤ MOST_CPUS }
        ensures opened { IfOk result (λ c. IsOpenedOn kind cpus logged c) }
        ensures unchanged { IfErr result (λ l. l ≡ logged) }
    {
        let _state = logged.state();
        match AnyCell::open(alloc, kind, logged, cpus) {
            Err((_, logged)) => Err(logged),
            Ok((cell, passes)) => match Arc::new(alloc, cell) {
                Err(refused) => Err(end_unused(refused.value, passes)),
                Ok(cell) => Ok(OpenCell {
                    cell,
                    passes,
                    home: None,
                    back: 0,
                    cpus,
                }),
            },
        }
    }

    /// Creates the caller of the highest CPU that has none yet. There is none if all have one, or had one.
    pub fn new_caller(self) -> (OpenCell<O>, Result<Caller<O>, NoNewCaller>)
        ensures { IsNewCaller self result.1 result.0 }
    {
        if self.passes.is_empty() {
            return (self, Err(NoNewCaller::NoneLeft));
        }
        let Ok(shared) = Arc::try_clone(&self.cell) else {
            return (self, Err(NoNewCaller::NoShare));
        };
        let OpenCell {
            cell,
            mut passes,
            home,
            back,
            cpus,
        } = self;
        let dealt = passes.pop();
        let rest = OpenCell {
            cell,
            passes,
            home,
            back,
            cpus,
        };
        let Some(pass) = dealt else {
            return (rest, Err(NoNewCaller::NoneLeft));
        };
        let caller = Caller {
            cell: shared,
            place: CallerPlace {
                pass: Some(pass),
                rested: None,
                line: None,
            },
        };
        (rest, Ok(caller))
    }

    // Joins the pass of the next CPU with those that were returned.
    fn with_back(self, pass: Pass<O>) -> OpenCell<O>
        requires pass { IsHome (arc_value self.cell) self.back pass }
        requires few { self.back < self.cpus }
        ensures cell { arc_value result.cell ≡ arc_value self.cell }
        ensures passes { result.passes.items ≡ self.passes.items }
        ensures home { TakesIn self.home pass result.home }
        ensures back { result.back ≡ self.back + 1 }
    {
        let OpenCell {
            cell,
            passes,
            home,
            back,
            cpus,
        } = self;
        let home = match home {
            None => pass,
            Some(first) => cell.join(first, pass),
        };
        OpenCell {
            cell,
            passes,
            home: Some(home),
            back: back + 1,
            cpus,
        }
    }

    /// Takes back an idle caller of the lowest CPU that wasn't returned yet. It returns any other.
    pub fn return_caller(self, caller: Caller<O>) -> (OpenCell<O>, Option<Caller<O>>)
        requires { arc_value caller.cell ≡ arc_value self.cell }
        ensures { IsReturned self caller result.1 result.0 }
    {
        let Some(cpu) = caller.place.idle_cpu() else {
            return (self, Some(caller));
        };
        if self.back >= self.cpus || cpu != u32::from(self.back) {
            return (self, Some(caller));
        }
        let Caller { cell, place } = caller;
        let pass = place.into_pass(&cell);
        drop(cell);
        (self.with_back(pass), None)
    }

    /// Closes the cell if each CPU's caller was returned. Returns the object with its log.
    pub fn close(self) -> Result<Logged<O>, (OpenCell<O>, NotClosed)>
        ensures { IsClosed self result }
    {
        if self.back < self.cpus {
            return Err((self, NotClosed::NotAllBack));
        }
        let OpenCell {
            cell,
            passes,
            home,
            back,
            cpus,
        } = self;
        let Some(pass) = home else {
            let open = OpenCell {
                cell,
                passes,
                home: None,
                back,
                cpus,
            };
            return Err((open, NotClosed::NotAllBack));
        };
        match Arc::try_unwrap(cell) {
            Ok(cell) => Ok(cell.close(pass)),
            Err(cell) => {
                let open = OpenCell {
                    cell,
                    passes,
                    home: Some(pass),
                    back,
                    cpus,
                };
                Err((open, NotClosed::Shared))
            }
        }
    }
}
