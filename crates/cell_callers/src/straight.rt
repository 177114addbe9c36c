//! The path of most calls: an idle caller that meets nobody acquires the lock, does the call, and releases the lock. Rare cases are
//! in functions of their own, which return the result themselves, so that this path needn't clear their locals.

ghost use Rattle.std.specs.Prelude.{◌≡◌, true, false, None, Some};
ghost use Rattle.guarded_cell.specs.declared.cell.AnyCell.TheVariants.{Ticket, Mcs};
ghost use Rattle.guarded_cell.specs.AnyCallers.{state_of_caller};
ghost use Rattle.guarded_cell.specs.declared.any_caller.AnyCaller.TheVariants as callers;
ghost use Rattle.ticket_lock.specs.declared.caller.TicketCaller.TheVariants as at_ticket;
ghost use Rattle.mcs_lock.specs.declared.caller.McsCaller.TheVariants as at_mcs;
ghost use Rattle.cell_callers.specs.{declared.report_codes.TheConstants.AGAIN, Callers.{IfMcs, IsOne}, KernelCallers.KernelState, CallReports.{HasEntered, HasLeft, ReportsCalled, ReportsCalledAt}, Codes.{kept_code, looks_after}, Places.{IsAway, IsPlaceOf}};
ghost use Rattle.ticket_lock.specs.Passes.{IsPassOf as IsTicketPassOf};
ghost use Rattle.mcs_lock.specs.{Arrivals.{IsRestedOf, state_of_rested}, Passes.{IsPassOf as IsMcsPassOf, IsHoldOf as IsMcsHoldOf, IsBehindOf, IsPassingOf, state_of_behind, state_of_passing}};
ghost use Rattle.word_rule.specs.{Mcs.Steps.IsPass, Passes.state_of_pass};
ghost use Rattle.kernel_object.specs.contracts.object.KernelObjectSeqObject.TheImpl.{ghosts};
ghost use Rattle.std_alloc.specs.Arc.{arc_value};

use crate::applying::{apply_held, shared_apply_held};
use crate::call_numbers::Answered;
use crate::place::put_in;
use crate::report_codes::{AGAIN, DONE, LOG_FULL, answer_code, call_code, count_look, kept_code};
use crate::whole::call_polled;
use crate::{Caller, CallerPlace};
use core::mem::replace;
use guarded_cell::{AnyCaller, AnyCell, polled_mcs};
use kernel_object::{KCall, KernelObject};
use mcs_lock::{Behind, Entered, Leaving, McsCaller, McsCell, Passing, Rested};
use ticket_lock::{Drawn, TicketCaller, TicketCell};
use word_rule::{Hold, Pass, PolledCell};

type Line = Option<AnyCaller<KernelObject>>;

// A caller that isn't idle continues from its state.
#[cold]
#[inline(never)]
fn go_on(
    cell: &AnyCell<KernelObject>,
    place: &mut CallerPlace<KernelObject>,
    call: KCall,
    answered: &mut Answered,
    looks: &mut u64,
) -> u32
    requires { IsPlaceOf cell.now place.old }
    ensures place { IsPlaceOf cell.now place.new }
    ensures reports { ReportsCalled cell.now call place.old (answered.old, looks.old) result place.new (answered.new, looks.new) }
{
    let polled = cell.poll_acquire(place.take(cell));
    let (caller, whole) = call_polled(cell, polled, &call);
    place.put(cell, caller);
    call_code(whole, answered, looks)
}

// After a failed look.
#[cold]
#[inline(never)]
fn wait_drawn(line: &mut Line, drawn: Drawn<KernelObject>, looks: &mut u64) -> u32
    requires { line.old ≡ None }
    ensures line { line.new ≡ Some (callers.Ticket (at_ticket.Drawn drawn)) }
    ensures looks { looks.new ≡ looks_after true looks.old }
    ensures reported { result ≡ AGAIN }
{
    put_in(line, AnyCaller::Ticket(TicketCaller::Drawn(drawn)));
    count_look(true, looks);
    AGAIN
}

// A caller with another before it in the queue arms itself, links itself, and looks.
#[cold]
#[inline(never)]
fn come_behind(
    any: &AnyCell<KernelObject>,
    place: &mut CallerPlace<KernelObject>,
    behind: Behind<KernelObject>,
    call: KCall,
    answered: &mut Answered,
    looks: &mut u64,
) -> u32
    requires cell { IfMcs any.now (λ c. IsBehindOf c behind) }
    requires one { IsOne (state_of_behind behind).caller }
    requires away { IsAway place.old }
    ensures place { IsPlaceOf any.now place.new }
    ensures reports { (p : KernelState) → HasEntered (state_of_caller p) false (state_of_behind behind) → ReportsCalledAt any.now call p (answered.old, looks.old) result place.new (answered.new, looks.new) }
{
    let AnyCell::Mcs(cell) = any else {
        unreachable!()
    };
    let (caller, whole) = call_polled(any, polled_mcs(cell.line_up(behind)), &call);
    place.put(any, caller);
    call_code(whole, answered, looks)
}

// It still holds the lock, as its successor has to link itself first.
#[cold]
#[inline(never)]
fn keep(line: &mut Line, leaving: Leaving<KernelObject>, reported: u32) -> u32
    requires { line.old ≡ None }
    ensures line { line.new ≡ Some (callers.Mcs (at_mcs.Leaving leaving)) }
    ensures reported { result ≡ kept_code reported }
{
    put_in(line, AnyCaller::Mcs(McsCaller::Leaving(leaving)));
    kept_code(reported)
}

// A function of its own, since there is seldom a successor.
#[cold]
#[inline(never)]
fn pass_on(cell: &McsCell<KernelObject>, passing: Passing<KernelObject>) -> Pass<KernelObject>
    requires { IsPassingOf cell.now passing }
    ensures pass { IsMcsPassOf cell.now result }
    ensures step { IsPass ghosts (state_of_passing passing) (state_of_pass result) }
{
    cell.pass_on(passing)
}

#[inline]
fn straight_ticket(
    cell: &TicketCell<KernelObject>,
    pass: Pass<KernelObject>,
    place: &mut CallerPlace<KernelObject>,
    call: KCall,
    answered: &mut Answered,
    looks: &mut u64,
) -> u32
    requires pass { IsTicketPassOf cell.now pass }
    requires one { IsOne (state_of_pass pass).caller }
    requires away { IsAway place.old }
    ensures place { IsPlaceOf (Ticket cell.now) place.new }
    ensures reports { ReportsCalledAt (Ticket cell.now) call (callers.Ticket (at_ticket.Idle pass)) (answered.old, looks.old) result place.new (answered.new, looks.new) }
{
    match cell.arrive(pass) {
        Ok(mut hold) => {
            let reported = answer_code(apply_held(&mut hold, &call), DONE, LOG_FULL, answered);
            place.pass = Some(cell.serve(hold));
            count_look(true, looks);
            reported
        }
        Err(drawn) => wait_drawn(&mut place.line, drawn, looks),
    }
}

// A holder of an MCS lock whose call has that result releases the lock.
#[inline]
fn leave_mcs(
    cell: &McsCell<KernelObject>,
    hold: Hold<KernelObject>,
    place: &mut CallerPlace<KernelObject>,
    reported: u32,
) -> u32
    requires hold { IsMcsHoldOf cell.now hold }
    requires away { IsAway place.old }
    ensures { HasLeft cell.now hold reported result place.new }
{
    match cell.see(hold) {
        Ok(passing) => place.pass = Some(pass_on(cell, passing)),
        Err(alone) => match cell.rest(alone) {
            Ok(rested) => put_in(&mut place.rested, rested),
            Err(leaving) => return keep(&mut place.line, leaving, reported),
        },
    }
    reported
}

#[inline]
fn straight_mcs(
    any: &AnyCell<KernelObject>,
    cell: &McsCell<KernelObject>,
    rested: Rested<KernelObject>,
    place: &mut CallerPlace<KernelObject>,
    call: KCall,
    answered: &mut Answered,
    looks: &mut u64,
) -> u32
    requires cell { any.now ≡ Mcs cell.now }
    requires rested { IsRestedOf cell.now rested }
    requires one { IsOne (state_of_rested rested).caller }
    requires away { IsAway place.old }
    ensures place { IsPlaceOf any.now place.new }
    ensures reports { ReportsCalledAt any.now call (callers.Mcs (at_mcs.Rested rested)) (answered.old, looks.old) result place.new (answered.new, looks.new) }
{
    let mut hold = match cell.arrive(rested) {
        Entered::Hold(hold) => hold,
        Entered::Behind(behind) => return come_behind(any, place, behind, call, answered, looks),
    };
    let reported = answer_code(apply_held(&mut hold, &call), DONE, LOG_FULL, answered);
    leave_mcs(cell, hold, place, reported)
}

// A caller of an MCS lock whose `next` may not be clear, as its last call had a successor.
#[inline(never)]
fn from_pass(
    any: &AnyCell<KernelObject>,
    cell: &McsCell<KernelObject>,
    place: &mut CallerPlace<KernelObject>,
    call: KCall,
    answered: &mut Answered,
    looks: &mut u64,
) -> u32
    requires cell { any.now ≡ Mcs cell.now }
    requires place { IsPlaceOf any.now place.old }
    requires rested { place.old.rested ≡ None }
    ensures place { IsPlaceOf any.now place.new }
    ensures reports { ReportsCalled any.now call place.old (answered.old, looks.old) result place.new (answered.new, looks.new) }
{
    let Some(pass) = replace(&mut place.pass, None) else {
        return go_on(any, place, call, answered, looks);
    };
    let mut hold = match cell.enter(cell.clear(pass)) {
        Entered::Hold(hold) => hold,
        Entered::Behind(behind) => return come_behind(any, place, behind, call, answered, looks),
    };
    let reported = answer_code(
        shared_apply_held(&mut hold, &call),
        DONE,
        LOG_FULL,
        answered,
    );
    leave_mcs(cell, hold, place, reported)
}

/// Does a whole call, as far as it comes without waiting, and returns its result. The reply is written if it was done, and the look
/// is counted.
#[inline]
pub fn call_straight(
    caller: &mut Caller<KernelObject>,
    call: KCall,
    answered: &mut Answered,
    looks: &mut u64,
) -> u32
    ensures cell { arc_value caller.new.cell ≡ arc_value caller.old.cell }
    ensures reports { ReportsCalled (arc_value caller.old.cell) call caller.old.place (answered.old, looks.old) result caller.new.place (answered.new, looks.new) }
{
    let any = &*caller.cell;
    let place = &mut caller.place;
    match any {
        AnyCell::Ticket(cell) => match replace(&mut place.pass, None) {
            Some(pass) => straight_ticket(cell, pass, place, call, answered, looks),
            None => go_on(any, place, call, answered, looks),
        },
        AnyCell::Mcs(cell) => match replace(&mut place.rested, None) {
            Some(rested) => straight_mcs(any, cell, rested, place, call, answered, looks),
            None => from_pass(any, cell, place, call, answered, looks),
        },
    }
}
