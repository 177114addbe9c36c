//! Calls on one queue, in the forms that are timed.

ghost use Rattle.std.specs.{Prelude.{◌≡◌, ◌<◌, [], ◌∷◌, length}, List.All};
ghost use Rattle.guarded_cell.specs.Kinds.{IsPassOf};

use crate::words::Grouping;
use arrayvec::ArrayVec;
use event_log::{Logged, MOST_CALLS};
use guarded_cell::{AnyCell, MOST_GROUPS, batch, call, with_hold};
use shared_queue::{QueueCall, ThreadQueue};
use std::sync::{Mutex, Wait};
use word_rule::LockCell;

pub type Queue = Logged<ThreadQueue>;

pub type Pass = word_rule::Pass<ThreadQueue>;

/// Whose calls on a queue they are, in which form, and how often. Enq of the CPU's number and deq are called in turn.
#[derive(Clone, Copy, Drop)]
pub struct Calls {
    pub cpu: u8,
    pub form: Grouping,
    pub turns: u32,
}

/// A group of one call, which is one event.
fn of(call: QueueCall) -> ArrayVec<QueueCall, MOST_CALLS>
    ensures { result.items ≡ call ∷ [] }
{
    let mut group = ArrayVec::new();
    group.push(call);
    group
}

/// Calls one after another on a queue that is held.
fn call_each(queue: &mut Queue, cpu: u8, calls: &[QueueCall]) {
    for call in calls {
        let _reply = queue.call(cpu, call);
    }
}

impl Calls {
    fn eight(&self) -> [QueueCall; MOST_CALLS] {
        let (enq, deq) = (QueueCall::Enq(u32::from(self.cpu)), QueueCall::Deq);
        [enq, deq, enq, deq, enq, deq, enq, deq]
    }

    /// Eight calls, each a group of its own.
    fn groups(&self) -> [ArrayVec<QueueCall, MOST_CALLS>; MOST_GROUPS]
        ensures { All (λ g. 0 < length g.items) result }
    {
        let [a, b, c, d, e, f, g, h] = self.eight();
        [of(a), of(b), of(c), of(d), of(e), of(f), of(g), of(h)]
    }

    /// Makes the calls on a cell of one lock.
    pub fn on<C: LockCell<ThreadQueue>, R: Wait>(&self, rt: &R, cell: &C, pass: C::Pass) -> C::Pass
        requires { C.is_pass_of cell.now pass }
        ensures { C.is_pass_of cell.now result }
    {
        let (eight, groups) = (self.eight(), self.groups());
        let mut pass = pass;
        if let Grouping::Each = self.form {
            for k in 0..self.turns {
                pass = call(rt, cell, pass, &eight[(k % 2) as usize]).0;
            }
            return pass;
        }
        for _ in 0..self.turns {
            pass = match self.form {
                Grouping::Batch => batch(rt, cell, pass, &eight).0,
                _ => with_hold(rt, cell, pass, &groups, &mut ArrayVec::new()).0,
            };
        }
        pass
    }

    /// Makes the calls on a cell of either kind by its own functions, which find out once for a call which lock it has.
    pub fn on_either<R: Wait>(&self, rt: &R, cell: &AnyCell<ThreadQueue>, pass: Pass) -> Pass
        requires { IsPassOf cell.now pass }
        ensures { IsPassOf cell.now result }
    {
        let (eight, groups) = (self.eight(), self.groups());
        let mut pass = pass;
        for k in 0..self.turns {
            pass = match self.form {
                Grouping::Each => cell.call(rt, pass, &eight[(k % 2) as usize]).0,
                Grouping::Batch => cell.batch(rt, pass, &eight).0,
                Grouping::Hold => cell.with_hold(rt, pass, &groups, &mut ArrayVec::new()).0,
            };
        }
        pass
    }

    /// Makes the calls on a queue in the mutex.
    pub fn in_mutex<R: Wait>(&self, rt: &R, queue: &Mutex<Queue>) {
        let eight = self.eight();
        if let Grouping::Each = self.form {
            for k in 0..self.turns {
                let mut held = queue.lock(rt);
                let _reply = held.call(self.cpu, &eight[(k % 2) as usize]);
            }
            return;
        }
        for _ in 0..self.turns {
            let mut held = queue.lock(rt);
            match self.form {
                Grouping::Batch => {
                    let _replies = held.apply(self.cpu, &eight);
                }
                _ => call_each(&mut *held, self.cpu, &eight),
            }
        }
    }
}
