//! The operations on a cell's table. Each of these is a turn of the lock's definition, belongs to a try, or reads a word. Those of
//! `at_once` are two turns, a turn that also prepares a try, or give a try up; there is no other way to step.

ghost use Rattle.std.specs.Prelude.{ℕ, ◌+◌, ◌-◌, ◌%◌, ◌^◌, ◌==◌};
ghost use prog.Atomic.{either};
ghost use Rattle.word_rule.specs.Rule.Operations.{step_on, Stepped, AsksTurn, AsksTry, AsksReadying, AsksRead};

use crate::{Key, LockTable, Seat, View};
use atomic_table::Play;
use event_log::{Event, Logged, SeqObject};

impl<O: SeqObject> LockTable<O> {
    /// A fetch-and-add that is a turn.
    pub fn fetch_add<M: Play<Option<Logged<O>>, View<Key<O>, Event<O>>>>(
        &self,
        seat: &mut Seat<O>,
        word: usize,
        k: u64,
    ) -> u64
        requires { AsksTurn O.SeqObject self.now seat.old word (λ n. (n + k) % 2 ^ 64) (M.then (step_on self.now word k 0) seat.old.me) }
        ensures { Stepped seat.old seat.new (M.then (step_on self.now word k 0) seat.old.me result seat.new.me) }
    {
        self.table.shared.fetch_add::<M>(seat, word, k)
    }

    /// A fetch-and-subtract that is a turn.
    pub fn fetch_sub<M: Play<Option<Logged<O>>, View<Key<O>, Event<O>>>>(
        &self,
        seat: &mut Seat<O>,
        word: usize,
        k: u64,
    ) -> u64
        requires { AsksTurn O.SeqObject self.now seat.old word (λ n. (n + (2 ^ 64 - k)) % 2 ^ 64) (M.then (step_on self.now word k 0) seat.old.me) }
        ensures { Stepped seat.old seat.new (M.then (step_on self.now word k 0) seat.old.me result seat.new.me) }
    {
        self.table.shared.fetch_sub::<M>(seat, word, k)
    }

    /// A load that is a turn.
    pub fn load<M: Play<Option<Logged<O>>, View<Key<O>, Event<O>>>>(
        &self,
        seat: &mut Seat<O>,
        word: usize,
    ) -> u64
        requires { AsksTurn O.SeqObject self.now seat.old word (λ n. n) (M.then (step_on self.now word 0 0) seat.old.me) }
        ensures { Stepped seat.old seat.new (M.then (step_on self.now word 0 0) seat.old.me result seat.new.me) }
    {
        self.table.shared.load::<M>(seat, word)
    }

    /// A swap that is a turn.
    pub fn swap<M: Play<Option<Logged<O>>, View<Key<O>, Event<O>>>>(
        &self,
        seat: &mut Seat<O>,
        word: usize,
        new: u64,
    ) -> u64
        requires { AsksTurn O.SeqObject self.now seat.old word (λ _. new) (M.then (step_on self.now word new 0) seat.old.me) }
        ensures { Stepped seat.old seat.new (M.then (step_on self.now word new 0) seat.old.me result seat.new.me) }
    {
        self.table.shared.swap::<M>(seat, word, new)
    }

    /// A store that is a turn.
    pub fn store<M: Play<Option<Logged<O>>, View<Key<O>, Event<O>>>>(
        &self,
        seat: &mut Seat<O>,
        word: usize,
        new: u64,
    )
        requires { AsksTurn O.SeqObject self.now seat.old word (λ _. new) (λ _. M.then (step_on self.now word new 0) seat.old.me new) }
        ensures { Stepped seat.old seat.new (M.then (step_on self.now word new 0) seat.old.me new seat.new.me) }
    {
        self.table.shared.store::<M>(seat, word, new);
    }

    /// A compare-and-exchange that is a turn.
    pub fn compare_exchange<M: Play<Option<Logged<O>>, View<Key<O>, Event<O>>>>(
        &self,
        seat: &mut Seat<O>,
        word: usize,
        old: u64,
        new: u64,
    ) -> u64
        requires { AsksTurn O.SeqObject self.now seat.old word (λ n. either (n == old) new n) (M.then (step_on self.now word old new) seat.old.me) }
        ensures { Stepped seat.old seat.new (M.then (step_on self.now word old new) seat.old.me result seat.new.me) }
    {
        self.table
            .shared
            .compare_exchange::<M>(seat, word, old, new)
    }

    /// A load that leaves the lock as it is.
    pub fn read<M: Play<Option<Logged<O>>, View<Key<O>, Event<O>>>>(
        &self,
        seat: &mut Seat<O>,
        word: usize,
    ) -> u64
        requires { AsksRead O.SeqObject self.now seat.old word (λ n. n) (M.then (step_on self.now word 0 0) seat.old.me) }
        ensures { Stepped seat.old seat.new (M.then (step_on self.now word 0 0) seat.old.me result seat.new.me) }
    {
        self.table.shared.load::<M>(seat, word)
    }

    /// A store that prepares a try.
    pub fn prepare<M: Play<Option<Logged<O>>, View<Key<O>, Event<O>>>>(
        &self,
        seat: &mut Seat<O>,
        word: usize,
        new: u64,
    )
        requires { AsksReadying O.SeqObject self.now seat.old word (λ _. new) (λ _. M.then (step_on self.now word new 0) seat.old.me new) }
        ensures { Stepped seat.old seat.new (M.then (step_on self.now word new 0) seat.old.me new seat.new.me) }
    {
        self.table.shared.store::<M>(seat, word, new);
    }

    /// A compare-and-exchange that is a try.
    pub fn try_exchange<M: Play<Option<Logged<O>>, View<Key<O>, Event<O>>>>(
        &self,
        seat: &mut Seat<O>,
        word: usize,
        from: u64,
        to: u64,
    ) -> u64
        requires { AsksTry O.SeqObject self.now seat.old word (λ n. either (n == from) to n) (M.then (step_on self.now word from to) seat.old.me) }
        ensures { Stepped seat.old seat.new (M.then (step_on self.now word from to) seat.old.me result seat.new.me) }
    {
        self.table
            .shared
            .compare_exchange::<M>(seat, word, from, to)
    }
}
