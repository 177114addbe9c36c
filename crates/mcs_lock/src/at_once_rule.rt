//! The atomic operations of MCS lock callers whose `next` is clear while they rest.

ghost use Rattle.mcs_lock.specs.AtOnce.{comes, goes_to_rest, gives_up};

use atomic_table::Play;
use event_log::{Event, Logged, SeqObject};
use word_rule::{Key, View};

/// A swap of the tail by a caller whose `next` is clear.
pub struct Arrive;

impl<O: SeqObject> Play<Option<Logged<O>>, View<Key<O>, Event<O>>> for Arrive {
    ghost then = { comes O.SeqObject };
}

/// A compare-and-exchange of the tail, from the caller to nobody. If it succeeds, the caller's `next` is clear.
pub struct Rest;

impl<O: SeqObject> Play<Option<Logged<O>>, View<Key<O>, Event<O>>> for Rest {
    ghost then = { goes_to_rest O.SeqObject };
}

/// A load, after which the caller's `next` needn't be clear.
pub struct Wake;

impl<O: SeqObject> Play<Option<Logged<O>>, View<Key<O>, Event<O>>> for Wake {
    ghost then = { gives_up O.SeqObject };
}
