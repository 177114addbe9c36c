//! The first event that no entry took.

ghost use Rattle.std.specs.Prelude.{◌≡◌, length, map, MatchOption};
ghost use Rattle.auditor.specs.Passes.{AreTaken, IsFirstLeft};

use crate::StepRows;
use crate::kept_log::KeptLog;
use event_log::SeqObject;

/// The first object, and its event, whose log goes on behind its end.
pub fn first_left<O: SeqObject, R: StepRows<O>>(logs: &[KeptLog<O, R>]) -> Option<(usize, usize)>
    ensures { MatchOption result (AreTaken (map (λ l. l.log) logs.now) (map (λ l. l.end) logs.now) (length logs.now))
        (λ p. IsFirstLeft (map (λ l. l.log) logs.now) (map (λ l. l.end) logs.now) p.0 p.1) }
{
    for (object, kept) in logs.iter().enumerate() {
        if kept.end < kept.log.len() {
            return Some((object, kept.end));
        }
    }
    None
}
