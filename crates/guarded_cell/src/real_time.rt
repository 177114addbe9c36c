//! The order of calls in real time, where the second caller has seen the first one's log.

ghost use Rattle.std.specs.Prelude.{List, IfOk};
ghost use Rattle.event_log.specs.{declared.event.Event.Event, declared.event.Steps.Steps, Log.one_step};
ghost use Rattle.word_rule.specs.Cell.{PassView};
ghost use Rattle.guarded_cell.specs.RealTime.{Precedes, ReturnedBefore, event_of};

use crate::whole::call;
use event_log::{NoRoom, SeqObject};
use std::sync::Wait;
use word_rule::LockCell;

/// A law of all cells, without effect. A caller's calls returned, and then another caller, which had seen the first one's log at
/// that time, as after their `meet`, began its own. Then the first caller's event precedes the other's in each later log.
pub fn returned_before_begun<O: SeqObject>()
    ensures { (first first_after second second_after : PassView O O.Params O.Call O.Reply) (firsts seconds : List O.Call)
        (a b : Steps O O.Params O.Call O.Reply) (log : List (Event O O.Params O.Call O.Reply)) →
        ReturnedBefore O.SeqObject first first_after firsts a second second_after seconds b log →
        Precedes (event_of first a) (event_of second b) log }
{}

/// Does a call of the first caller and, after it has returned, a call of the second one. The first event precedes the second in
/// the log, whatever other threads do on the cell.
pub fn one_after_other<O: SeqObject, C: LockCell<O>, R: Wait>(
    rt: &R,
    cell: &C,
    passes: (C::Pass, C::Pass),
    earlier: &O::Call,
    later: &O::Call,
) -> (
    (C::Pass, Result<O::Reply, NoRoom>),
    (C::Pass, Result<O::Reply, NoRoom>),
)
    requires first { C.is_pass_of cell.now passes.0 }
    requires second { C.is_pass_of cell.now passes.1 }
    ensures passes { C.is_pass_of cell.now result.0.0 × C.is_pass_of cell.now result.1.0 }
    ensures order { IfOk result.0.1 (λ r. IfOk result.1.1 (λ s. Precedes
        (event_of (C.pass_view passes.0) (one_step earlier.now r)) (event_of (C.pass_view passes.1) (one_step later.now s))
        (C.pass_view result.1.0).seen)) }
{
    let (first, second) = passes;
    let (first, reply, _looks) = call(rt, cell, first, earlier);
    let (first, second) = cell.meet(first, second);
    let (second, answer, _more) = call(rt, cell, second, later);
    ((first, reply), (second, answer))
}
