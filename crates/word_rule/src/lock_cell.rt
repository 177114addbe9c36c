//! The interface of a cell behind a lock.

ghost use Rattle.std.specs.Prelude.{◌≡◌, ◌<◌, ◌≤◌, ◌↔◌, ◌||◌, ℕ, List, [], min, length, IsErr, IfOk, IfErr, OnErr};
ghost use Rattle.event_log.specs.{declared.event.Event.Event, Log.{answers, one_step, Fulfils}};
ghost use Rattle.word_rule.specs.{Answered.IsBusy, Cell.{PassView, HoldView, Grows, IsPassView, IsHoldView, OwnsAll, after_steps, stored}, declared.view.TraceStep.TraceStep, LockRuns.{Extends, HasRun, endings_in, arrivals_in}, OneHold.{HasAcquired, HasAcquiredAtOnce, HasReleased, IsUnderHold}};

use event_log::{Logged, MOST_CALLS, NoRoom, SeqObject, Steps};
use std::sync::Wait;

/// A cell that lends its object to one caller at a time. A caller has a pass, which owns one or more CPU numbers and
/// acts as the least; with the object it has a hold instead, which must be given back. Contracts know of each pass the
/// log that it has seen, which is lawful for the cell and only grows.
pub trait LockCell<O: SeqObject> {
    /// A caller without the object. One that is dropped leaves a cell that can't be closed any more.
    type Pass: Drop;

    /// A caller with the object. It can't be dropped.
    type Hold;

    /// Whether the pass is of the cell.
    ghost is_pass_of: { Self → Self.Pass → Type 0 };

    /// Whether the hold is of the cell.
    ghost is_hold_of: { Self → Self.Hold → Type 0 };

    /// The numbers of the pass, and the log that it has seen.
    ghost pass_view: { Self.Pass → PassView O O.Params O.Call O.Reply };

    /// The numbers of the hold, and the stored history.
    ghost hold_view: { Self.Hold → HoldView O O.Params O.Call O.Reply };

    /// The run of the cell's lock that the pass has seen. The clauses of runs stand apart from those of logs: a reader of the log
    /// alone may pass over each `run`.
    ghost pass_run: { Self.Pass → List (TraceStep (Event O O.Params O.Call O.Reply)) };

    /// The run that the hold has seen.
    ghost hold_run: { Self.Hold → List (TraceStep (Event O O.Params O.Call O.Reply)) };

    /// Waits for the object, and answers how often it looked.
    fn acquire<R: Wait>(&self, rt: &R, pass: Self::Pass) -> (Self::Hold, u64)
        requires { is_pass_of self.now pass }
        ensures hold { is_hold_of self.now result.0 }
        ensures caller { (hold_view result.0).caller ≡ (pass_view pass).caller }
        ensures grows { Grows (pass_view pass).caller.owned (pass_view pass).seen (hold_view result.0).history.log }
        ensures run { HasAcquired (pass_view pass).caller (pass_run pass) result.1 (hold_view result.0).history.log (hold_run result.0) };

    /// Gets the object if nobody has it or is in line for it, by at most one look, and doesn't wait. Else it is busy, and the
    /// pass comes back: a pass that owns every number of the cell always gets the object.
    fn try_acquire(&self, pass: Self::Pass) -> Result<Self::Hold, Self::Pass>
        requires { is_pass_of self.now pass }
        ensures hold { IfOk result (λ h. is_hold_of self.now h) }
        ensures caller { IfOk result (λ h. (hold_view h).caller ≡ (pass_view pass).caller) }
        ensures grows { IfOk result (λ h. Grows (pass_view pass).caller.owned (pass_view pass).seen (hold_view h).history.log) }
        ensures pass { IfErr result (λ p. is_pass_of self.now p) }
        ensures busy { IfErr result (λ p. IsBusy (pass_view pass) (pass_view p)) }
        ensures run { IfOk result (λ h. HasAcquiredAtOnce (pass_view pass).caller (pass_run pass) (hold_view h).history.log (hold_run h)) }
        ensures busy_run { IfErr result (λ p. Extends (pass_view pass).caller.owned (pass_run pass) [] (pass_run p)) };

    /// Does 1 to 8 calls as one event of the acting CPU, up to and with the first that is refused. It takes no memory.
    fn apply(hold: &mut Self::Hold, calls: &[O::Call]) -> Result<Steps<O>, NoRoom>
        requires some { 0 < length calls.now }
        requires few { length calls.now ≤ MOST_CALLS }
        ensures hold { (cell : Self) → is_hold_of cell hold.old → is_hold_of cell hold.new }
        ensures caller { (hold_view hold.new).caller ≡ (hold_view hold.old).caller }
        ensures room { IsErr result ↔ (length (hold_view hold.old).history.log ≡ (hold_view hold.old).history.limit) }
        ensures steps { IfOk result (λ s. s.list.items ≡ answers O.SeqObject (hold_view hold.old).history.state calls.now) }
        ensures asked { IfOk result (λ s. Fulfils O.SeqObject calls.now s.list.items) }
        ensures after { IfOk result (λ s. (hold_view hold.new).history ≡ after_steps O.SeqObject (hold_view hold.old) s) }
        ensures full { OnErr result (hold_view hold.new ≡ hold_view hold.old) }
        ensures run { hold_run hold.new ≡ hold_run hold.old };

    /// Does a call as one event of the acting CPU, as `apply` does with the call alone. It takes no memory.
    fn apply_one(hold: &mut Self::Hold, call: &O::Call) -> Result<O::Reply, NoRoom>
        ensures hold { (cell : Self) → is_hold_of cell hold.old → is_hold_of cell hold.new }
        ensures caller { (hold_view hold.new).caller ≡ (hold_view hold.old).caller }
        ensures room { IsErr result ↔ (length (hold_view hold.old).history.log ≡ (hold_view hold.old).history.limit) }
        ensures reply { IfOk result (λ r. r ≡ (O.answer (hold_view hold.old).history.state call.now).1) }
        ensures after { IfOk result (λ r. (hold_view hold.new).history ≡ after_steps O.SeqObject (hold_view hold.old) (one_step call.now r)) }
        ensures full { OnErr result (hold_view hold.new ≡ hold_view hold.old) }
        ensures run { hold_run hold.new ≡ hold_run hold.old };

    /// The object with its log.
    fn logged(hold: &Self::Hold) -> &Logged<O>
        ensures { result.now ≡ (hold_view hold.now).history };

    /// Gives the object back.
    fn release<R: Wait>(&self, rt: &R, hold: Self::Hold) -> Self::Pass
        requires { is_hold_of self.now hold }
        ensures pass { is_pass_of self.now result }
        ensures caller { (pass_view result).caller ≡ (hold_view hold).caller }
        ensures seen { (pass_view result).seen ≡ (hold_view hold).history.log }
        ensures run { HasReleased (hold_view hold) (hold_run hold) (pass_run result) };

    /// Both callers have seen one log and one run afterwards. It doesn't wait, and changes nothing else.
    fn meet(&self, first: Self::Pass, second: Self::Pass) -> (Self::Pass, Self::Pass)
        requires first { is_pass_of self.now first }
        requires second { is_pass_of self.now second }
        ensures passes { is_pass_of self.now result.0 × is_pass_of self.now result.1 }
        ensures first_caller { (pass_view result.0).caller ≡ (pass_view first).caller }
        ensures second_caller { (pass_view result.1).caller ≡ (pass_view second).caller }
        ensures one_cell { (pass_view result.0).caller.cell ≡ (pass_view result.1).caller.cell }
        ensures one_log { (pass_view result.0).seen ≡ (pass_view result.1).seen }
        ensures first_grows { Grows (pass_view first).caller.owned (pass_view first).seen (pass_view result.0).seen }
        ensures second_grows { Grows (pass_view second).caller.owned (pass_view second).seen (pass_view result.1).seen }
        ensures one_run { pass_run result.0 ≡ pass_run result.1 }
        ensures first_run { Extends (pass_view first).caller.owned (pass_run first) [] (pass_run result.0) }
        ensures second_run { Extends (pass_view second).caller.owned (pass_run second) [] (pass_run result.1) };

    /// Two holds of one cell don't come: nothing can meet this promise but that there is no such call. It doesn't wait.
    fn apart(&self, first: Self::Hold, second: Self::Hold) -> (Self::Hold, Self::Hold)
        requires first { is_hold_of self.now first }
        requires second { is_hold_of self.now second }
        ensures { ⊥ };

    /// One pass with the numbers of both. It doesn't wait.
    fn join(&self, first: Self::Pass, second: Self::Pass) -> Self::Pass
        requires first { is_pass_of self.now first }
        requires second { is_pass_of self.now second }
        ensures pass { is_pass_of self.now result }
        ensures first_cell { (pass_view result).caller.cell ≡ (pass_view first).caller.cell }
        ensures second_cell { (pass_view result).caller.cell ≡ (pass_view second).caller.cell }
        ensures owned { (k : ℕ) → (pass_view result).caller.owned k ≡ ((pass_view first).caller.owned k || (pass_view second).caller.owned k) }
        ensures acting { (pass_view result).caller.acting ≡ min (pass_view first).caller.acting (pass_view second).caller.acting }
        ensures first_grows { Grows (pass_view first).caller.owned (pass_view first).seen (pass_view result).seen }
        ensures second_grows { Grows (pass_view second).caller.owned (pass_view second).seen (pass_view result).seen }
        ensures first_run { Extends (pass_view first).caller.owned (pass_run first) [] (pass_run result) }
        ensures second_run { Extends (pass_view second).caller.owned (pass_run second) [] (pass_run result) };

    /// Ends the cell, and gives the object back with its log. Each that has arrived in line has ended its hold.
    fn close(self, pass: Self::Pass) -> Logged<O>
        requires pass { is_pass_of self pass }
        requires whole { OwnsAll (pass_view pass).caller }
        ensures log { result ≡ stored O.SeqObject (pass_view pass).caller.cell (pass_view pass).seen }
        ensures run { endings_in (pass_run pass) ≡ arrivals_in (pass_run pass) };

    /// A pass of the cell has numbers of the cell, acts as the least, and has seen a lawful log.
    ghost pass_is_valid: { (cell : Self) (pass : Self.Pass) → is_pass_of cell pass → IsPassView O.SeqObject (pass_view pass) };

    /// A hold of the cell has numbers of the cell, acts as the least, and shows the replay of a lawful log.
    ghost hold_is_valid: { (cell : Self) (hold : Self.Hold) → is_hold_of cell hold → IsHoldView O.SeqObject (hold_view hold) };

    /// A pass has seen a run of the cell's lock, which left the log that it has seen.
    ghost pass_has_run: { (cell : Self) (pass : Self.Pass) → is_pass_of cell pass → HasRun (pass_view pass).caller.cell (pass_view pass).seen (pass_run pass) };

    /// A hold has seen a run of the cell's lock, which left the log to which the caller adds.
    ghost hold_has_run: { (cell : Self) (hold : Self.Hold) → is_hold_of cell hold → IsUnderHold (hold_view hold) (hold_run hold) };
}
