//! Cells of both kinds: whole calls, tries, and several groups under one hold.

ghost use Rattle.std.specs.Prelude.{IfOk};
ghost use Rattle.word_rule.specs.{Cell.OwnTogether, Passes.view_of_pass};
ghost use Rattle.guarded_cell.specs.Kinds.{IsPassOf};

use crate::locks::calls_in_turn;
use arrayvec::ArrayVec;
use event_log::{Logged, NoRoom};
use guarded_cell::{AnyCell, AnyPass, Declined, call_all, one_after_other};
use shared_queue::{QueueCall as Call, QueueReply as Reply, ThreadQueue};
use sound_run::LockKind;
use std::alloc::Global;
use std::test::Fail;

pub const KINDS: [LockKind; 2] = [LockKind::Ticket, LockKind::Mcs];

type Pass = AnyPass<ThreadQueue>;

/// A cell, and the passes of its two CPUs.
pub type Two = (AnyCell<ThreadQueue>, Pass, Pass);

/// A cell of two CPUs around a queue of 8 threads with room for 3 events.
pub fn cell_of_two(alloc: Global, kind: LockKind) -> Result<Two, Fail>
    ensures zero { IfOk result (λ r. IsPassOf r.0 r.1) }
    ensures one { IfOk result (λ r. IsPassOf r.0 r.2) }
    ensures all { IfOk result (λ r. OwnTogether (view_of_pass r.1).caller (view_of_pass r.2).caller) }
{
    let queue = Logged::<ThreadQueue>::open(alloc, 8, 3)?;
    let Ok((cell, mut passes)) = AnyCell::open(alloc, kind, queue, 2) else {
        return Err(Fail::new("no memory"));
    };
    let one = passes.pop().unwrap();
    let zero = passes.pop().unwrap();
    Ok((cell, zero, one))
}

#[test]
fn whole_calls(rt: HostRuntime) -> Result<(), Fail> {
    for kind in KINDS {
        let (cell, pass, _) = cell_of_two(rt.alloc(), kind)?;
        assert_eq!(rt; cell.kind(), kind);
        let (pass, reply, _looks) = cell.call(&rt, pass, &Call::Enq(3));
        assert_eq!(rt; reply, Ok(Reply::Ok));
        let (pass, done, _looks) = cell.batch(&rt, pass, &[Call::Len, Call::Deq]);
        assert!(rt; done.is_ok());
        let (_, done) = call_all(&rt, &cell, pass, &[Call::Len, Call::Len]);
        assert_eq!(rt; done, 1, "then the log is full");
    }
    Ok(())
}

#[test]
fn tries_and_groups(rt: HostRuntime) -> Result<(), Fail> {
    for kind in KINDS {
        let (cell, pass, _) = cell_of_two(rt.alloc(), kind)?;
        let (pass, reply) = cell.try_call(&rt, pass, &Call::Enq(3));
        assert_eq!(rt; reply, Ok(Reply::Ok));
        let (pass, done) = cell.try_batch(&rt, pass, &[Call::Len, Call::Deq]);
        assert!(rt; done.is_ok());
        let (mut first, mut second) = (ArrayVec::new(), ArrayVec::new());
        first.push(Call::Enq(3));
        second.push(Call::Deq);
        let mut done = ArrayVec::new();
        let (pass, outcome, _looks) = cell.with_hold(&rt, pass, &[first, second], &mut done);
        assert_eq!(rt; (outcome, done.len()), (Err(NoRoom), 1));
        let (_, reply) = cell.try_call(&rt, pass, &Call::Len);
        assert_eq!(rt; reply, Err(Declined::NoRoom));
    }
    Ok(())
}

#[test]
fn two_callers_on_one_thread(rt: HostRuntime) -> Result<(), Fail> {
    for kind in KINDS {
        let (cell, zero, one) = cell_of_two(rt.alloc(), kind)?;
        assert_eq!(rt; calls_in_turn(&rt, cell, zero, one).log().len(), 2);
    }
    Ok(())
}

#[test]
fn one_call_after_another(rt: HostRuntime) -> Result<(), Fail> {
    for kind in KINDS {
        let (cell, zero, one) = cell_of_two(rt.alloc(), kind)?;
        let ((_, put), (_, taken)) = one_after_other(
            &rt,
            &cell,
            (zero, one),
            &Call::Enq(3),
            &Call::Deq,
        );
        assert_eq!(rt; (put, taken), (Ok(Reply::Ok), Ok(Reply::Thread(3))));
    }
    Ok(())
}
