//! A cell that nobody has called is closed.

ghost use Rattle.std.specs.Prelude.{◌≡◌, ◌<◌, true, vec_len};
ghost use Rattle.word_rule.specs.{Cell.{EachAt, stored}, Passes.view_of_pass};
ghost use Rattle.guarded_cell.specs.{Kinds.fixed_of, Unused.{IsUnused, Covers}};

use crate::cell::AnyCell;
use event_log::{Logged, SeqObject};
use word_rule::{LockCell, Pass};

/// Joins the other passes to the first.
fn join_unused<O: SeqObject>(cell: &AnyCell<O>, first: Pass<O>, others: Vec<Pass<O>>) -> Pass<O>
    requires first { IsUnused cell.now first }
    requires others { EachAt (λ _ p. IsUnused cell.now p) others.items }
    ensures unused { IsUnused cell.now result }
    ensures first { Covers first result }
    ensures others { EachAt (λ _ p. Covers p result) others.items }
{
    let mut whole = first;
    for pass in others {
        whole = cell.join(whole, pass);
    }
    whole
}

/// Closes a cell that nobody has called, by the passes of all its CPUs. Its object is unchanged.
pub fn end_unused<O: SeqObject>(cell: AnyCell<O>, passes: Vec<Pass<O>>) -> Logged<O>
    requires some { 0 < vec_len passes }
    requires all { (fixed_of cell).numbers ≡ vec_len passes }
    requires unused { EachAt (λ _ p. IsUnused cell p) passes.items }
    requires each { EachAt (λ k p. (view_of_pass p).caller.owned k ≡ true) passes.items }
    ensures { result ≡ stored O.SeqObject (fixed_of cell) (fixed_of cell).opening }
{
    let mut passes = passes;
    let last = passes.pop().unwrap();
    let whole = join_unused(&cell, last, passes);
    cell.close(whole)
}
