//! The opening of a cell and its end, whichever lock it has.

ghost use Rattle.std.specs.Prelude.{◌≡◌, ◌<◌, ◌≤◌, [], ◌∷◌, length, IfOk, IfErr, Some, vec_len, vec_capacity};
ghost use Rattle.atomic_table.specs.Table.{opening};
ghost use Rattle.word_rule.specs.{Cell.{Lawful, EachAt, OwnsAll, cell_of, opening_pass, first_pass, stored}, LockRuns.{endings_in, arrivals_in}, Locks.{Fits, opening_lock}, Rule.CellInvariant.CellInvariant, Rule.LockStates.IsLockOf, Passes.{IsPassAt, view_of_pass, run_of_pass}, Rule.Seats.first_view};

use crate::{Cpu, Key, LockTable, Outside, Pass, Seat};
use atomic_table::{Refused, Table};
use event_log::{Logged, OutOfMemory, SeqObject};
use sound_run::LockKind;
use std::alloc::Global;
use std::snapshot::Snapshot;

impl<O: SeqObject> LockTable<O> {
    /// The table of a new cell, whose words are those of its lock before the first step, with this first ticket, and a pass for
    /// each CPU, in order: pass k owns the CPU k and has seen the log of the given object. Where there is no memory the object
    /// comes back as it was.
    pub fn open(
        alloc: Global,
        kind: LockKind,
        first: u32,
        words: &[u64],
        logged: Logged<O>,
        cpus: u8,
    ) -> Result<(LockTable<O>, Vec<Pass<O>>), (OutOfMemory, Logged<O>)>
        requires some { 0 < length words.now }
        requires defined { IsLockOf kind cpus words.now (opening_lock kind first) }
        ensures key { IfOk result (λ r. r.0.table.shared.key ≡ cell_of kind first cpus logged) }
        ensures words { IfOk result (λ r. r.0.table.shared.table_id.words ≡ length words.now) }
        ensures count { IfOk result (λ r. vec_len r.1 ≡ cpus) }
        ensures passes { IfOk result (λ r. EachAt (λ k p. IsPassAt r.0 p × (view_of_pass p ≡ first_pass kind first logged cpus k)) r.1.items) }
        ensures runs { IfOk result (λ r. EachAt (λ k p. run_of_pass p ≡ []) r.1.items) }
        ensures unchanged { IfErr result (λ e. e.1 ≡ logged) }
    {
        let Ok(passes) = Vec::with_capacity(alloc, cpus as usize) else {
            return Err((OutOfMemory, logged));
        };
        let key = Key::of(kind, first, cpus, &logged);
        let (table, seat) = LockTable::make(alloc, words, logged, &key)?;
        let passes = table.deal(seat, &key, cpus, passes);
        Ok((table, passes))
    }

    // The table, with the object at home, and its first seat.
    fn make(
        alloc: Global,
        words: &[u64],
        logged: Logged<O>,
        key: &Key<O>,
    ) -> Result<(LockTable<O>, Seat<O>), (OutOfMemory, Logged<O>)>
        requires { CellInvariant O.SeqObject key.now.kind key.now (opening words.now (Some logged ∷ []) (first_view key.now)) }
        ensures key { IfOk result (λ r. r.0.table.shared.key ≡ key.now) }
        ensures words { IfOk result (λ r. r.0.table.shared.table_id.words ≡ length words.now) }
        ensures seat { IfOk result (λ r. (r.1.table_id ≡ r.0.table.shared.table_id) × (r.1.me ≡ (first_view key.now, []))) }
        ensures unchanged { IfErr result (λ e. e.1 ≡ logged) }
    {
        let Ok(mut slots) = Vec::with_capacity(alloc, 1) else {
            return Err((OutOfMemory, logged));
        };
        slots.push_reserved(Some(logged));
        match Table::new(alloc, words, slots, key) {
            Ok((table, seat)) => Ok((LockTable { table }, seat)),
            Err(Refused { mut slots }) => {
                let slot = slots.pop().unwrap();
                slots.destroy_empty();
                Err((OutOfMemory, slot.unwrap()))
            }
        }
    }

    // The first seat has a caller for each CPU. Each goes to a seat of its own.
    fn deal(
        &self,
        mut seat: Seat<O>,
        key: &Key<O>,
        cpus: u8,
        mut passes: Vec<Pass<O>>,
    ) -> Vec<Pass<O>>
        requires cell { key.now ≡ self.now.table.shared.key }
        requires some { 0 < self.now.table.shared.table_id.words }
        requires seat { (seat.table_id ≡ self.now.table.shared.table_id) × (seat.me ≡ (first_view key.now, [])) × (key.now.numbers ≡ cpus) }
        requires room { (passes.items ≡ []) × (cpus ≤ vec_capacity passes) }
        requires valid { Lawful O.SeqObject key.now key.now.opening }
        requires fits { Fits key.now.kind key.now.numbers }
        ensures passes { EachAt (λ k p. IsPassAt self.now p × (view_of_pass p ≡ opening_pass key.now k)) result.items }
        ensures runs { EachAt (λ k p. run_of_pass p ≡ []) result.items }
        ensures count { vec_len result ≡ cpus }
    {
        for cpu in 0..cpus {
            let theirs = self.split_seat(&mut seat);
            let outside = Outside {
                cpu: Cpu::numbered(cpu),
                key: Snapshot::of(key),
                seat: theirs,
            };
            passes.push_reserved(Pass { outside });
        }
        passes
    }

    /// A pass that owns every number ends the cell: the object is at home, and its log is what the pass has seen. Each that has
    /// arrived in line has ended its hold.
    pub fn close(self, pass: Pass<O>) -> Logged<O>
        requires pass { IsPassAt self pass }
        requires whole { OwnsAll (view_of_pass pass).caller }
        ensures log { result ≡ stored O.SeqObject (view_of_pass pass).caller.cell (view_of_pass pass).seen }
        ensures run { endings_in (run_of_pass pass) ≡ arrivals_in (run_of_pass pass) }
    {
        let LockTable { table } = self;
        let mut closed = table.close_with(pass.outside.seat);
        let slot = closed.take(0);
        closed.free();
        slot.unwrap()
    }
}
