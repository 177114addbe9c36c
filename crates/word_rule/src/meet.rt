//! Callers that meet, whichever lock their cell has.

ghost use Rattle.std.specs.Prelude.{◌≡◌, ℕ, ◌<◌, ◌||◌, min, []};
ghost use Rattle.word_rule.specs.{Cell.Grows, LockRuns.Extends, Passes.{IsPassAt, IsHoldAt, view_of_pass, run_of_pass}};

use crate::{Cpu, Hold, LockTable, Meet, Merge, Pass, ReturnSlot, SecondHolder, SplitOrJoin};
use event_log::SeqObject;

impl<O: SeqObject> LockTable<O> {
    /// One pass with the numbers of both, which has seen what both had: one load of the first caller.
    pub fn join(&self, one: Pass<O>, two: Pass<O>) -> Pass<O>
        requires first { IsPassAt self.now one }
        requires second { IsPassAt self.now two }
        requires some { 0 < self.now.table.shared.table_id.words }
        ensures pass { IsPassAt self.now result }
        ensures cell { (view_of_pass result).caller.cell ≡ (view_of_pass one).caller.cell }
        ensures owned { (k : ℕ) → (view_of_pass result).caller.owned k ≡ ((view_of_pass one).caller.owned k || (view_of_pass two).caller.owned k) }
        ensures acting { (view_of_pass result).caller.acting ≡ min (view_of_pass one).caller.acting (view_of_pass two).caller.acting }
        ensures first_grows { Grows (view_of_pass one).caller.owned (view_of_pass one).seen (view_of_pass result).seen }
        ensures second_grows { Grows (view_of_pass two).caller.owned (view_of_pass two).seen (view_of_pass result).seen }
        ensures first_run { Extends (view_of_pass one).caller.owned (run_of_pass one) [] (run_of_pass result) }
        ensures second_run { Extends (view_of_pass two).caller.owned (run_of_pass two) [] (run_of_pass result) }
    {
        let mut outside = one.outside;
        let other = two.outside;
        self.join_seat(&mut outside.seat, other.seat);
        self.table.shared.load::<Merge>(&mut outside.seat, 0);
        outside.cpu = Cpu::numbered(outside.cpu.byte().min(other.cpu.byte()));
        Pass { outside }
    }

    /// Both have seen one log and one run, which begin with what each had seen: one load of the two callers together.
    pub fn meet(&self, one: Pass<O>, two: Pass<O>) -> (Pass<O>, Pass<O>)
        requires first { IsPassAt self.now one }
        requires second { IsPassAt self.now two }
        requires some { 0 < self.now.table.shared.table_id.words }
        ensures passes { IsPassAt self.now result.0 × IsPassAt self.now result.1 }
        ensures first_caller { (view_of_pass result.0).caller ≡ (view_of_pass one).caller }
        ensures second_caller { (view_of_pass result.1).caller ≡ (view_of_pass two).caller }
        ensures one_log { (view_of_pass result.0).seen ≡ (view_of_pass result.1).seen }
        ensures first_grows { Grows (view_of_pass one).caller.owned (view_of_pass one).seen (view_of_pass result.0).seen }
        ensures second_grows { Grows (view_of_pass two).caller.owned (view_of_pass two).seen (view_of_pass result.1).seen }
        ensures one_run { run_of_pass result.0 ≡ run_of_pass result.1 }
        ensures first_run { Extends (view_of_pass one).caller.owned (run_of_pass one) [] (run_of_pass result.0) }
        ensures second_run { Extends (view_of_pass two).caller.owned (run_of_pass two) [] (run_of_pass result.1) }
    {
        let mut outside = one.outside;
        let mut other = two.outside;
        self.join_seat(&mut outside.seat, other.seat);
        self.table.shared.load::<Meet>(&mut outside.seat, 0);
        other.seat = self.split_seat(&mut outside.seat);
        (Pass { outside }, Pass { outside: other })
    }

    /// No two holds of one cell exist, so no run comes here: one load by each caller.
    pub fn apart(&self, one: Hold<O>, two: Hold<O>) -> (Hold<O>, Hold<O>)
        requires first { IsHoldAt self.now one }
        requires second { IsHoldAt self.now two }
        requires some { 0 < self.now.table.shared.table_id.words }
        ensures { ⊥ }
    {
        let mut seat = one.inside.outside.seat;
        let mut theirs = two.inside.outside.seat;
        self.table.shared.load::<ReturnSlot>(&mut theirs, 0);
        self.table
            .shared
            .join_seat::<SplitOrJoin>(&mut seat, theirs);
        self.table.shared.load::<SecondHolder>(&mut seat, 0);
        unreachable!()
    }
}
