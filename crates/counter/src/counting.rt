//! Laws of counters: how far they go, and what they have counted.

ghost use Rattle.std.specs.Prelude.{◌≡◌, ℕ};
ghost use Rattle.event_log.specs.{Log.{steps_of, Legal, replay}, History.IsKept};
ghost use Rattle.counter.specs.{State.{CounterState, opening_state, IsCounterOf}, Answer.counter_answer, Counting.ok_count};

use crate::BoundedCounter;
use event_log::SeqObject;

/// The law of states, without effect: a counter that was opened for at most n has counted at most n. So it is when it is
/// opened, after each call, at the end of each log, and in every `Logged`.
pub fn stays_within()
    ensures opening { (n : ℕ) → IsCounterOf n (opening_state n) }
    ensures call { (n : ℕ) (c : CounterState) (call : _) → IsCounterOf n c → IsCounterOf n (counter_answer c call).0 }
    ensures log { (n : ℕ) (log : _) → IsCounterOf n (replay ⟦<BoundedCounter as SeqObject>⟧ n log) }
    ensures logged { (h : _) → IsKept ⟦<BoundedCounter as SeqObject>⟧ h → IsCounterOf h.params h.state }
{}

/// The law of counting, without effect: at the end of a legal log a counter's value is the number of the calls in it that
/// were answered Ok. So it is in every `Logged`.
pub fn counts_each_once()
    ensures log { (n : ℕ) (log : _) → Legal ⟦<BoundedCounter as SeqObject>⟧ n log
        → (replay ⟦<BoundedCounter as SeqObject>⟧ n log).value ≡ ok_count (steps_of log) }
    ensures logged { (h : _) → IsKept ⟦<BoundedCounter as SeqObject>⟧ h
        → h.state.value ≡ ok_count (steps_of h.log) }
{}
