//! The steps of each lock.

use crate::cells::cell_of_two;
use crate::locks::{got, missed};
use guarded_cell::AnyCell;
use mcs_lock::Entered;
use sound_run::LockKind;
use std::test::Fail;
use word_rule::LockCell;

/// CPU 1 draws the first ticket, and CPU 0 the next one, as a try doesn't find its turn.
#[test]
fn steps_of_a_ticket_lock(rt: HostRuntime) -> Result<(), Fail> {
    let (cell, zero, one) = cell_of_two(rt.alloc(), LockKind::Ticket)?;
    let AnyCell::Ticket(cell) = cell else {
        return Err(Fail::new("another lock"));
    };
    let one = cell.draw(one);
    let zero = cell.draw(missed(&rt, cell.read(zero)));
    assert_eq!(rt; (one.ticket(), zero.ticket()), (0, 1));
    let zero = missed(&rt, cell.look(zero));
    let one = cell.serve(got(&rt, cell.look(one)));
    let _zero = cell.serve(got(&rt, cell.look(zero)));
    let trying = got(&rt, cell.read(one));
    let _one = cell.serve(got(&rt, cell.exchange(trying)));
    Ok(())
}

/// CPU 0 leaves while CPU 1 has entered and hasn't linked itself.
#[test]
fn steps_of_an_mcs_lock(rt: HostRuntime) -> Result<(), Fail> {
    let (cell, zero, one) = cell_of_two(rt.alloc(), LockKind::Mcs)?;
    let AnyCell::Mcs(cell) = cell else {
        return Err(Fail::new("another lock"));
    };
    let hold = got(&rt, cell.try_enter(cell.prepare(zero)));
    let behind = match cell.enter(cell.clear(one)) {
        Entered::Behind(behind) => behind,
        Entered::Hold(_hold) => panic!(rt; "two have the object"),
    };
    assert_eq!(rt; behind.ahead(), 0);
    let leaving = missed(&rt, cell.empty(missed(&rt, cell.see(hold))));
    let waiting = cell.link(cell.arm(behind));
    let waiting = missed(&rt, cell.look(waiting));
    let passing = got(&rt, cell.see_again(leaving));
    assert_eq!(rt; passing.follower(), 1);
    let _zero = cell.pass_on(passing);
    let _one = cell.release(&rt, got(&rt, cell.look(waiting)));
    Ok(())
}
