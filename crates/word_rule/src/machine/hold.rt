//! What a step leaves of a CPU and of the object that it works on.

ghost use Rattle.std.specs.Prelude.{◌≡◌, ◌+◌, ◌^◌, ◌<◌, ◌≤◌, if◌then◌else◌, length, vec_len, vec_capacity};
ghost use Rattle.event_log.specs.History.{IsKept};
ghost use Rattle.word_rule.specs.{StepKinds.ends_hold, Machine.Shown.with_entry, Machine.World.{outcome_on, with_done, counted}};

use crate::machine::progress::Progress;
use crate::machine::step_done::{StepDone, is_a_look, is_end};
use event_log::{Done, Logged, MOST_CALLS, SeqObject, Todo};

/// Does the calls of an entry as one event of the CPU.
fn end_hold<O: SeqObject>(logged: &mut Logged<O>, cpu: u8, todo: &Todo<O>) -> Done<O>
    requires some { 0 < length todo.now.calls.items }
    requires few { length todo.now.calls.items ≤ MOST_CALLS }
    requires kept { IsKept O.SeqObject logged.old }
    ensures done { result ≡ outcome_on O.SeqObject logged.old todo.now }
    ensures params { logged.new.params ≡ logged.old.params }
    ensures limit { logged.new.limit ≡ logged.old.limit }
    ensures log { logged.new.log ≡ with_done cpu logged.old.log result }
    ensures kept { IsKept O.SeqObject logged.new }
{
    Done::from(logged.apply(cpu, todo.calls.as_slice()))
}

/// A step of the CPU was done, in the entry at hand: at the end of a hold the entry's calls are done, and it stands in the
/// transcript.
pub fn count_step<O: SeqObject>(
    progress: &mut Progress<O>,
    logged: &mut Logged<O>,
    cpu: u8,
    todo: &Todo<O>,
    step: StepDone,
)
    requires some { 0 < length todo.now.calls.items }
    requires few { length todo.now.calls.items ≤ MOST_CALLS }
    requires kept { IsKept O.SeqObject logged.old }
    requires room { vec_len progress.old.transcript < vec_capacity progress.old.transcript }
    requires more { progress.old.at + 1 < 2 ^ 64 }
    ensures params { logged.new.params ≡ logged.old.params }
    ensures limit { logged.new.limit ≡ logged.old.limit }
    ensures log { logged.new.log ≡ (if ends_hold step then with_done cpu logged.old.log (outcome_on O.SeqObject logged.old todo.now) else logged.old.log) }
    ensures kept { IsKept O.SeqObject logged.new }
    ensures at { progress.new.at ≡ (if ends_hold step then progress.old.at + 1 else progress.old.at) }
    ensures transcript { progress.new.transcript.items ≡ with_entry step progress.old todo.now (outcome_on O.SeqObject logged.old todo.now) }
    ensures looks { progress.new.looks ≡ (if ends_hold step then 0 else counted progress.old.looks step) }
    ensures room { vec_capacity progress.new.transcript ≡ vec_capacity progress.old.transcript }
{
    if is_end(step) {
        let done = end_hold(logged, cpu, todo);
        progress.finish(todo, done);
    } else if is_a_look(step) {
        progress.look();
    }
}
