//! The atomic operation by which a caller arrives at a ticket lock.

ghost use Rattle.ticket_lock.specs.AtOnce.{comes};

use atomic_table::Play;
use event_log::{Event, Logged, SeqObject};
use word_rule::{Key, View};

/// A fetch-and-add in the high half, which is the next ticket. Both halves of the old word count.
pub struct Arrive;

impl<O: SeqObject> Play<Option<Logged<O>>, View<Key<O>, Event<O>>> for Arrive {
    ghost then = { comes O.SeqObject };
}
