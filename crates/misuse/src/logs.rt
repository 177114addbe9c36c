//! Logs, each of which is read only if it is kept in memory.

ghost use Rattle.std.specs.Prelude.{◌≡◌, ◌<◌, IfSome, IfNone, length};

use event_log::{Logged, MOST_EVENTS, SeqObject};

/// Counts the events of an object whose log is kept.
pub fn count_events<O: SeqObject>(object: &Logged<O>) -> Option<usize>
    ensures count { IfSome result (λ n. n ≡ length object.now.log) }
    ensures unkept { IfNone result (MOST_EVENTS < object.now.limit) }
{
    if object.keeps_log() {
        Some(object.log().len())
    } else {
        None
    }
}
