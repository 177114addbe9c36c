//! Operations on a cell's table that aren't a single turn: an arrival, which is two turns; a turn after which the caller rests with
//! a try prepared; and one that gives up such a try.

ghost use Rattle.std.specs.Prelude.{ℕ, ◌+◌, ◌%◌, ◌^◌, ◌==◌};
ghost use prog.Atomic.{either};
ghost use Rattle.word_rule.specs.{Rule.Operations.{step_on, Stepped}, Rule.AtOnce.{AsksArrival, AsksRest, AsksWithdrawal}};

use crate::{Key, LockTable, Seat, View};
use atomic_table::Play;
use event_log::{Event, Logged, SeqObject};

impl<O: SeqObject> LockTable<O> {
    /// A fetch-and-add by which the caller arrives: two turns.
    pub fn arrive_adding<M: Play<Option<Logged<O>>, View<Key<O>, Event<O>>>>(
        &self,
        seat: &mut Seat<O>,
        word: usize,
        k: u64,
    ) -> u64
        requires { AsksArrival O.SeqObject self.now seat.old word (λ n. (n + k) % 2 ^ 64) (M.then (step_on self.now word k 0) seat.old.me) }
        ensures { Stepped seat.old seat.new (M.then (step_on self.now word k 0) seat.old.me result seat.new.me) }
    {
        self.table.shared.fetch_add::<M>(seat, word, k)
    }

    /// A swap by which the caller arrives: two turns.
    pub fn arrive_swapping<M: Play<Option<Logged<O>>, View<Key<O>, Event<O>>>>(
        &self,
        seat: &mut Seat<O>,
        word: usize,
        new: u64,
    ) -> u64
        requires { AsksArrival O.SeqObject self.now seat.old word (λ _. new) (M.then (step_on self.now word new 0) seat.old.me) }
        ensures { Stepped seat.old seat.new (M.then (step_on self.now word new 0) seat.old.me result seat.new.me) }
    {
        self.table.shared.swap::<M>(seat, word, new)
    }

    /// A compare-and-exchange that is a turn. If it empties the line, the caller rests with a try prepared.
    pub fn rest_exchanging<M: Play<Option<Logged<O>>, View<Key<O>, Event<O>>>>(
        &self,
        seat: &mut Seat<O>,
        word: usize,
        from: u64,
        to: u64,
    ) -> u64
        requires { AsksRest O.SeqObject self.now seat.old word (λ n. either (n == from) to n) (M.then (step_on self.now word from to) seat.old.me) }
        ensures { Stepped seat.old seat.new (M.then (step_on self.now word from to) seat.old.me result seat.new.me) }
    {
        self.table
            .shared
            .compare_exchange::<M>(seat, word, from, to)
    }

    /// A load by which the caller gives up the try that it has prepared, which is no step of the lock.
    pub fn withdraw<M: Play<Option<Logged<O>>, View<Key<O>, Event<O>>>>(
        &self,
        seat: &mut Seat<O>,
        word: usize,
    ) -> u64
        requires { AsksWithdrawal O.SeqObject self.now seat.old word (λ n. n) (M.then (step_on self.now word 0 0) seat.old.me) }
        ensures { Stepped seat.old seat.new (M.then (step_on self.now word 0 0) seat.old.me result seat.new.me) }
    {
        self.table.shared.load::<M>(seat, word)
    }
}
