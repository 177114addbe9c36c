//! Laws of consoles: how full they are, and first in, first out.

ghost use Rattle.std.specs.Prelude.{◌≡◌, ℕ, true, ◌++◌, List};
ghost use Rattle.event_log.specs.{Log.{calls_of, steps_of, Legal, replay}, History.IsKept};
ghost use Rattle.console_ring.specs.{State.{ConsoleState, is_in_range, opening_state, IsConsoleOf}, Answer.console_answer, Passing.{bytes_in, bytes_reported, bytes_out, left_after}, declared.call.ConsoleCall.ConsoleCall};

use crate::Console;
use event_log::SeqObject;

/// The law of states, without effect: a console that was opened for n bytes, at least one, holds at most n. So it is when it
/// is opened, after each call, at the end of each log, and in every `Logged`.
pub fn stays_within()
    ensures opening { (n : ℕ) → is_in_range n ≡ true → IsConsoleOf n (opening_state n) }
    ensures call { (n : ℕ) (c : ConsoleState) (call : ConsoleCall) → IsConsoleOf n c → IsConsoleOf n (console_answer c call).0 }
    ensures log { (n : ℕ) (log : _) → is_in_range n ≡ true → IsConsoleOf n (replay ⟦<Console as SeqObject>⟧ n log) }
    ensures logged { (h : _) → IsKept ⟦<Console as SeqObject>⟧ h → IsConsoleOf h.params h.state }
{}

/// The law of order, without effect: what a console held and what was put into it is, in order, what came out of it, got
/// or dropped, and then what it holds. So all bytes that a legal log's calls put are, in order, those that its replies have,
/// and then those that the log leaves.
pub fn first_in_first_out()
    ensures log { (n : ℕ) (log : _) → Legal ⟦<Console as SeqObject>⟧ n log → bytes_in (calls_of (steps_of log)) ≡ bytes_reported (steps_of log) ++ (replay ⟦<Console as SeqObject>⟧ n log).bytes }
    ensures calls { (c : ConsoleState) (calls : List ConsoleCall) → c.bytes ++ bytes_in calls ≡ bytes_out c calls ++ (left_after c calls).bytes }
{}
