//! Whole calls by the interface of locks.

ghost use Rattle.std.specs.Prelude.{◌≡◌};
ghost use Rattle.word_rule.specs.Cell.{OwnTogether};

use event_log::Logged;
use shared_queue::{QueueCall as Call, QueueReply as Reply, ThreadQueue};
use std::process::Abort;
use std::sync::Wait;
use word_rule::LockCell;

/// What an attempt that succeeds gives.
pub fn got<T, E, R: Abort>(rt: &R, attempt: Result<T, E>) -> T
    ensures { attempt ≡ Ok result }
{
    match attempt {
        Ok(found) => found,
        Err(_other) => panic!(rt; "it fails"),
    }
}

/// What an attempt that fails gives back.
pub fn missed<T, E, R: Abort>(rt: &R, attempt: Result<T, E>) -> E
    ensures { attempt ≡ Err result }
{
    match attempt {
        Ok(_found) => panic!(rt; "it succeeds"),
        Err(other) => other,
    }
}

/// CPU 0 puts a thread in, while CPU 1 tries in vain. They meet, CPU 1 takes it out by a try, and they end the cell.
#[tactic(auto, using(word_rule::proofs::Owners::still_together, word_rule::proofs::Owners::together_joined))]
pub fn calls_in_turn<C: LockCell<ThreadQueue>, R: Abort + Wait>(
    rt: &R,
    cell: C,
    zero: C::Pass,
    one: C::Pass,
) -> Logged<ThreadQueue>
    requires zero { C.is_pass_of cell zero }
    requires one { C.is_pass_of cell one }
    requires all { OwnTogether (C.pass_view zero).caller (C.pass_view one).caller }
{
    let (mut hold, _looks) = cell.acquire(rt, zero);
    assert!(rt; C::apply(&mut hold, &[Call::Enq(3), Call::Len]).is_ok());
    assert_eq!(rt; C::logged(&hold).log().len(), 1);
    let one = match cell.try_acquire(one) {
        Err(pass) => pass,
        Ok(second) => {
            let _both = cell.apart(hold, second);
            panic!(rt; "two have the object")
        }
    };
    let zero = cell.release(rt, hold);
    let (zero, one) = cell.meet(zero, one);
    let mut hold = got(rt, cell.try_acquire(one));
    assert!(rt; C::apply_one(&mut hold, &Call::Deq) == Ok(Reply::Thread(3)));
    let one = cell.release(rt, hold);
    let pass = cell.join(zero, one);
    cell.close(pass)
}
