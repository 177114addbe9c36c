//! An entry against its CPU's next event.

ghost use Rattle.std.specs.Prelude.{◌≡◌, ℕ, ◌≤◌, length};
ghost use Rattle.auditor.specs.{Claims.IsJudged, NextEvents.{IsAt, AreNextEvents}};

use crate::compare::fulfil;
use crate::kept_log::KeptLog;
use crate::{Fault, StepRows};
use event_log::{Done, Entry, SeqObject};

/// Judges the entry of that number of a CPU against what is kept of its object's log, where the CPU's next event has its place,
/// and answers the place of the one behind it.
pub fn judge_entry<O: SeqObject, R: StepRows<O>>(
    cpu: usize,
    number: usize,
    kept: &KeptLog<O, R>,
    entry: &Entry<O>,
) -> Result<usize, Fault>
    requires next_events { (n : ℕ) × AreNextEvents n kept.now.log kept.now.next_events.first.items kept.now.next_events.next.items }
    requires within { kept.now.place ≤ length kept.now.log }
    ensures { (k : ℕ) → IsAt cpu kept.now.log k kept.now.place → IsJudged O.SeqObject cpu kept.now.limit kept.now.log number k entry.now result }
{
    let (log, at) = (&kept.log, kept.place);
    match &entry.done {
        Done::NoRoom => {
            if log.len() < kept.limit as usize {
                return Err(Fault::RoomWasLeft { cpu, entry: number });
            }
            if at < log.len() {
                return Err(Fault::RoomWasLeft { cpu, entry: number });
            }
            Ok(at)
        }
        Done::Steps(steps) => {
            if at == log.len() {
                return Err(Fault::NotItsEvent { cpu, entry: number });
            }
            if !log.has_steps(at, steps.list.as_slice()) {
                return Err(Fault::NotItsEvent { cpu, entry: number });
            }
            if !fulfil(entry.asked.as_slice(), steps.list.as_slice()) {
                return Err(Fault::NotAsked { cpu, entry: number });
            }
            Ok(kept.next_events.next[at] as usize)
        }
    }
}
