//! The end of a cell, by a pass that owns each of its numbers.

ghost use Rattle.std.specs.Prelude.{◌≡◌};
ghost use Rattle.event_log.specs.Log.{Begins};
ghost use Rattle.word_rule.specs.{Cell.{OwnsAll, OwnTogether}, Passes.view_of_pass};
ghost use Rattle.guarded_cell.specs.Kinds.{IsPassOf};

use event_log::{Logged, SeqObject};
use guarded_cell::{AnyCell, AnyPass};
use word_rule::LockCell;

/// Two callers, who own every number of the cell together, end it: its log begins with what the first had seen.
#[tactic(auto, using(word_rule::proofs::Owners::together_joined))]
pub fn end_of_two<O: SeqObject>(cell: AnyCell<O>, one: AnyPass<O>, other: AnyPass<O>) -> Logged<O>
    requires one { IsPassOf cell one }
    requires other { IsPassOf cell other }
    requires all { OwnTogether (view_of_pass one).caller (view_of_pass other).caller }
    ensures { Begins (view_of_pass one).seen result.log }
{
    let all = cell.join(one, other);
    cell.close(all)
}
