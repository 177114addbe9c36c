//! A caller of a cell.

ghost use Rattle.std.specs.Prelude.{◌≡◌, IsSome, IfSome};
ghost use Rattle.std_alloc.specs.Arc.{arc_value};
ghost use Rattle.event_log.proofs.Props.{legal_props};
ghost use Rattle.kernel_object.specs.contracts.object.KernelObjectSeqObject.TheImpl.{ghosts};
ghost use Rattle.word_rule.specs.Polls.{IsAcquireStep, IsReleaseStep};
ghost use Rattle.guarded_cell.specs.{AnyCallers.{IsCallerOf, state_of_caller}, Kinds.kind_of};
ghost use Rattle.cell_callers.specs.{Callers.IsOne, Facts.of_props, Places.{place_of, Between}, Wholes.{IsApplied, IsTriedBy, IsTryCalled}};

use crate::{CallerPlace, TriedCall, apply, try_call, try_hold};
use event_log::{NoRoom, SeqObject};
use guarded_cell::AnyCell;
use kernel_object::{KCall, KReply, KernelObject};
use std::alloc::Global;
use std::sync::Arc;
use word_rule::{PolledCell, Progress};

/// A caller of a cell, as one CPU, in any state. It shares the cell, so the cell can't end before it does. It can't be dropped.
pub struct Caller<O: SeqObject> {
    pub cell: Arc<AnyCell<O>, Global>,
    pub place: CallerPlace<O>,
    pub ghost there: { IsSome (place_of (arc_value cell) place) },
    pub ghost of: { IfSome (place_of (arc_value cell) place) (λ s. IsCallerOf (arc_value cell) s) } by { Prim.hlevel of_props },
    pub ghost one: { IfSome (place_of (arc_value cell) place) (λ s. IsOne (state_of_caller s).caller) } by { Prim.hlevel of_props },
}

impl Caller<KernelObject> {
    /// Performs its next step towards the lock.
    pub fn acquire_step(&mut self) -> Option<Progress>
        ensures cell { arc_value self.new.cell ≡ arc_value self.old.cell }
        ensures step { Between (arc_value self.old.cell) self.old.place self.new.place (λ p q. IsAcquireStep ghosts state_of_caller (kind_of (arc_value self.old.cell)) p result q) }
    {
        let (cell, place) = (&*self.cell, &mut self.place);
        let (caller, report) = cell.acquire_step(place.take(cell));
        place.put(cell, caller);
        report
    }

    /// Performs its next step to release the lock.
    pub fn release_step(&mut self) -> Option<Progress>
        ensures cell { arc_value self.new.cell ≡ arc_value self.old.cell }
        ensures step { Between (arc_value self.old.cell) self.old.place self.new.place (λ p q. IsReleaseStep ghosts state_of_caller (kind_of (arc_value self.old.cell)) p result q) }
    {
        let (cell, place) = (&*self.cell, &mut self.place);
        let (caller, report) = cell.release_step(place.take(cell));
        place.put(cell, caller);
        report
    }

    /// Tries to acquire the lock.
    pub fn try_hold(&mut self) -> Option<bool>
        ensures cell { arc_value self.new.cell ≡ arc_value self.old.cell }
        ensures tried { Between (arc_value self.old.cell) self.old.place self.new.place (λ p q. IsTriedBy ghosts (arc_value self.old.cell) p result q) }
    {
        let (cell, place) = (&*self.cell, &mut self.place);
        let (caller, report) = try_hold(cell, place.take(cell));
        place.put(cell, caller);
        report
    }

    /// Does a call under its hold.
    pub fn apply(&mut self, asked: &KCall) -> Option<Result<KReply, NoRoom>>
        ensures cell { arc_value self.new.cell ≡ arc_value self.old.cell }
        ensures applied { Between (arc_value self.old.cell) self.old.place self.new.place (λ p q. IsApplied ghosts (arc_value self.old.cell) p asked.now result q) }
    {
        let (cell, place) = (&*self.cell, &mut self.place);
        let (caller, report) = apply(cell, place.take(cell), asked);
        place.put(cell, caller);
        report
    }

    /// Does a whole call if no one holds the lock or is in line for it.
    pub fn try_call(&mut self, asked: &KCall) -> TriedCall<Result<KReply, NoRoom>>
        ensures cell { arc_value self.new.cell ≡ arc_value self.old.cell }
        ensures called { Between (arc_value self.old.cell) self.old.place self.new.place (λ p q. IsTryCalled ghosts (arc_value self.old.cell) p asked.now result q) }
    {
        let (cell, place) = (&*self.cell, &mut self.place);
        let (caller, report) = try_call(cell, place.take(cell), asked);
        place.put(cell, caller);
        report
    }
}
