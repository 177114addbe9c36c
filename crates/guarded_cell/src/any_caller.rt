//! A caller of a cell that keeps its own state, whichever lock the cell has.

ghost use Rattle.std.specs.Prelude.{◌≡◌, false, IfOk, IfErr};
ghost use Rattle.word_rule.specs.Polls.{is_holding};
ghost use Rattle.guarded_cell.specs.declared.any_caller.AnyCaller.TheVariants as callers;
ghost use Rattle.guarded_cell.specs.{AnyCallers.{IsCallerOf, holder, idle_caller, map_polled, state_of_caller}, Kinds.IsHoldOf};

use crate::cell::AnyCell;
use event_log::SeqObject;
use mcs_lock::McsCaller;
use ticket_lock::TicketCaller;
use word_rule::{Hold, Pass, Polled};

/// A caller in any state of its cell's lock. It can't be dropped.
pub enum AnyCaller<O: SeqObject> {
    Ticket(TicketCaller<O>),
    Mcs(McsCaller<O>),
}

/// The same report for a caller of either kind, of a caller of a ticket lock.
pub fn polled_ticket<O: SeqObject>(
    polled: Polled<Hold<O>, TicketCaller<O>>,
) -> Polled<Hold<O>, AnyCaller<O>>
    ensures { result ≡ map_polled callers.Ticket polled }
{
    match polled {
        Polled::Held(hold, looked) => Polled::Held(hold, looked),
        Polled::Waits(caller) => Polled::Waits(AnyCaller::Ticket(caller)),
        Polled::Refused(caller) => Polled::Refused(AnyCaller::Ticket(caller)),
    }
}

/// The same of a caller of an MCS lock.
pub fn polled_mcs<O: SeqObject>(
    polled: Polled<Hold<O>, McsCaller<O>>,
) -> Polled<Hold<O>, AnyCaller<O>>
    ensures { result ≡ map_polled callers.Mcs polled }
{
    match polled {
        Polled::Held(hold, looked) => Polled::Held(hold, looked),
        Polled::Waits(caller) => Polled::Waits(AnyCaller::Mcs(caller)),
        Polled::Refused(caller) => Polled::Refused(AnyCaller::Mcs(caller)),
    }
}

impl<O: SeqObject> AnyCell<O> {
    /// The idle caller with that pass.
    #[inline]
    pub fn idle_caller(&self, pass: Pass<O>) -> AnyCaller<O>
        ensures { result ≡ idle_caller self.now pass }
    {
        match self {
            AnyCell::Ticket(_) => AnyCaller::Ticket(TicketCaller::Idle(pass)),
            AnyCell::Mcs(_) => AnyCaller::Mcs(McsCaller::Idle(pass)),
        }
    }

    /// The caller with that hold.
    pub fn holder(&self, hold: Hold<O>) -> AnyCaller<O>
        ensures { result ≡ holder self.now hold }
    {
        match self {
            AnyCell::Ticket(_) => AnyCaller::Ticket(TicketCaller::Holding(hold)),
            AnyCell::Mcs(_) => AnyCaller::Mcs(McsCaller::Holding(hold)),
        }
    }

    /// The hold of a caller that holds the lock. Any other is returned unchanged.
    pub fn hold_of(&self, caller: AnyCaller<O>) -> Result<Hold<O>, AnyCaller<O>>
        requires { IsCallerOf self.now caller }
        ensures hold { IfOk result (λ h. IsHoldOf self.now h × (caller ≡ holder self.now h)) }
        ensures other { IfErr result (λ c. (is_holding (state_of_caller c) ≡ false) × (c ≡ caller)) }
    {
        match caller {
            AnyCaller::Ticket(TicketCaller::Holding(hold)) => Ok(hold),
            AnyCaller::Mcs(McsCaller::Holding(hold)) => Ok(hold),
            other => Err(other),
        }
    }
}
