//! The place of a caller: two parts for an idle caller, and one for any other. A call that meets nobody changes only one of the
//! first.

ghost use Rattle.std.specs.Prelude.{◌≡◌, None, Some, IsSome, IfSome};
ghost use Rattle.guarded_cell.specs.{AnyCallers.IsCallerOf, Kinds.IsPassOf};
ghost use Rattle.cell_callers.specs.Places.{HasWoken, IsAway, idle_cpu, place_of};

use core::mem::replace;
use event_log::SeqObject;
use guarded_cell::{AnyCaller, AnyCell};
use mcs_lock::{McsCaller, Rested};
use ticket_lock::TicketCaller;
use word_rule::Pass;

/// The place of a caller. While a call is in progress all parts are empty. It can't be dropped.
pub struct CallerPlace<O: SeqObject> {
    /// The pass of an idle caller.
    pub pass: Option<Pass<O>>,
    /// An idle caller of an MCS lock whose `next` is clear.
    pub rested: Option<Rested<O>>,
    /// A caller that isn't idle.
    pub line: Option<AnyCaller<O>>,
}

impl<O: SeqObject> CallerPlace<O> {
    /// The CPU of an idle caller.
    pub fn idle_cpu(&self) -> Option<u32>
        ensures { result ≡ idle_cpu self.now }
    {
        match &self.pass {
            Some(pass) => Some(pass.outside.cpu.number),
            None => match &self.rested {
                Some(rested) => Some(rested.cpu()),
                None => None,
            },
        }
    }

    /// The pass of an idle caller, which may take one load at an MCS lock.
    pub fn into_pass(self, cell: &AnyCell<O>) -> Pass<O>
        requires idle { IsSome (idle_cpu self) }
        requires there { IsSome (place_of cell.now self) }
        requires of { IfSome (place_of cell.now self) (λ c. IsCallerOf cell.now c) }
        ensures of { IsPassOf cell.now result }
        ensures woken { IfSome (place_of cell.now self) (λ c. HasWoken O.SeqObject c result) }
    {
        let CallerPlace { pass, rested, line } = self;
        let None = line else { unreachable!() };
        match (pass, rested, cell) {
            (Some(pass), None, _) => pass,
            (None, Some(rested), AnyCell::Mcs(cell)) => cell.wake(rested),
            _ => unreachable!(),
        }
    }

    /// Takes out the caller, as its call begins.
    #[inline]
    pub fn take(&mut self, cell: &AnyCell<O>) -> AnyCaller<O>
        requires { IsSome (place_of cell.now self.old) }
        ensures state { place_of cell.now self.old ≡ Some result }
        ensures away { IsAway self.new }
    {
        match replace(&mut self.pass, None) {
            Some(pass) => cell.idle_caller(pass),
            None => match replace(&mut self.rested, None) {
                Some(rested) => AnyCaller::Mcs(McsCaller::Rested(rested)),
                None => match replace(&mut self.line, None) {
                    Some(caller) => caller,
                    None => unreachable!(),
                },
            },
        }
    }

    /// Puts the caller in the place, as its call ends.
    #[inline]
    pub fn put(&mut self, cell: &AnyCell<O>, caller: AnyCaller<O>)
        requires of { IsCallerOf cell.now caller }
        requires away { IsAway self.old }
        ensures { place_of cell.now self.new ≡ Some caller }
    {
        let _ = cell;
        match caller {
            AnyCaller::Ticket(TicketCaller::Idle(pass)) => self.pass = Some(pass),
            AnyCaller::Mcs(McsCaller::Idle(pass)) => self.pass = Some(pass),
            AnyCaller::Mcs(McsCaller::Rested(rested)) => put_in(&mut self.rested, rested),
            other => put_in(&mut self.line, other),
        }
    }
}

/// Puts the value in an empty place.
#[inline]
pub fn put_in<T>(place: &mut Option<T>, value: T)
    requires { place.old ≡ None }
    ensures { place.new ≡ Some value }
{
    let none = replace(place, Some(value));
    let None = none else { unreachable!() };
}
