//! A new cell of the kind that is asked for, with a pass for each CPU.

ghost use Rattle.std.specs.Prelude.{◌≡◌, ◌<◌, ◌≤◌, [], IfOk, IfErr, vec_len};
ghost use Rattle.word_rule.specs.{Cell.{EachAt, first_pass}, Passes.{view_of_pass, run_of_pass}};
ghost use Rattle.guarded_cell.specs.Kinds.{IsPassOf, kind_of};

use crate::cell::AnyCell;
use event_log::{Logged, OutOfMemory, SeqObject};
use mcs_lock::McsCell;
use sound_run::{LockKind, MOST_CPUS};
use std::alloc::Global;
use ticket_lock::TicketCell;
use word_rule::Pass;

// The number that a new ticket lock begins with.
const FIRST_TICKET: u32 = 0;

impl<O: SeqObject> AnyCell<O> {
    /// A cell of the kind, of 1 to 64 CPUs, and a pass for each CPU, in order: pass k owns the CPU k and has seen the log
    /// of the given object. The first ticket of a ticket lock is 0. Where there is no memory the object comes back as it
    /// was.
    pub fn open(
        alloc: Global,
        kind: LockKind,
        logged: Logged<O>,
        cpus: u8,
    ) -> Result<(AnyCell<O>, Vec<Pass<O>>), (OutOfMemory, Logged<O>)>
        requires some { 0 < cpus }
        requires few { cpus ≤ MOST_CPUS }
        ensures kind { IfOk result (λ r. kind_of r.0 ≡ kind) }
        ensures count { IfOk result (λ r. vec_len r.1 ≡ cpus) }
        ensures passes { IfOk result (λ r. EachAt (λ k p. IsPassOf r.0 p × (view_of_pass p ≡ first_pass kind 0 logged cpus k)) r.1.items) }
        ensures runs { IfOk result (λ r. EachAt (λ k p. run_of_pass p ≡ []) r.1.items) }
        ensures unchanged { IfErr result (λ e. e.1 ≡ logged) }
    {
        match kind {
            LockKind::Ticket => {
                let (cell, passes) = TicketCell::new(alloc, logged, cpus, FIRST_TICKET)?;
                Ok((AnyCell::Ticket(cell), passes))
            }
            LockKind::Mcs => {
                let (cell, passes) = McsCell::new(alloc, logged, cpus)?;
                Ok((AnyCell::Mcs(cell), passes))
            }
        }
    }

    /// Which lock it is.
    pub fn kind(&self) -> LockKind
        ensures { result ≡ kind_of self.now }
    {
        match self {
            AnyCell::Ticket(_) => LockKind::Ticket,
            AnyCell::Mcs(_) => LockKind::Mcs,
        }
    }
}
