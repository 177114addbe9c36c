//! The steps that are the MCS lock's own.

ghost use Rattle.mcs_lock.specs.Steps.{clears, prepares, arms, links, enters, tries, looks, sees, sees_again, empties, passes};

use atomic_table::Play;
use event_log::{Event, Logged, SeqObject};
use word_rule::{Key, View};

/// A store to the caller's `next`.
pub struct Clear;

impl<O: SeqObject> Play<Option<Logged<O>>, View<Key<O>, Event<O>>> for Clear {
    ghost then = { clears O.SeqObject };
}

/// A store to the caller's `next`, for a try.
pub struct PrepareTry;

impl<O: SeqObject> Play<Option<Logged<O>>, View<Key<O>, Event<O>>> for PrepareTry {
    ghost then = { prepares O.SeqObject };
}

/// A swap of the tail.
pub struct Enter;

impl<O: SeqObject> Play<Option<Logged<O>>, View<Key<O>, Event<O>>> for Enter {
    ghost then = { enters O.SeqObject };
}

/// A compare-and-exchange of the tail, from nobody to the caller.
pub struct Try;

impl<O: SeqObject> Play<Option<Logged<O>>, View<Key<O>, Event<O>>> for Try {
    ghost then = { tries O.SeqObject };
}

/// A store to the caller's `locked`.
pub struct Arm;

impl<O: SeqObject> Play<Option<Logged<O>>, View<Key<O>, Event<O>>> for Arm {
    ghost then = { arms O.SeqObject };
}

/// A store to the `next` of the one before.
pub struct Link;

impl<O: SeqObject> Play<Option<Logged<O>>, View<Key<O>, Event<O>>> for Link {
    ghost then = { links O.SeqObject };
}

/// A load of the caller's `locked`.
pub struct Look;

impl<O: SeqObject> Play<Option<Logged<O>>, View<Key<O>, Event<O>>> for Look {
    ghost then = { looks O.SeqObject };
}

/// A load of the holder's `next`.
pub struct See;

impl<O: SeqObject> Play<Option<Logged<O>>, View<Key<O>, Event<O>>> for See {
    ghost then = { sees O.SeqObject };
}

/// The same by a holder that has found that it isn't the last.
pub struct SeeAgain;

impl<O: SeqObject> Play<Option<Logged<O>>, View<Key<O>, Event<O>>> for SeeAgain {
    ghost then = { sees_again O.SeqObject };
}

/// A compare-exchange of the tail.
pub struct Empty;

impl<O: SeqObject> Play<Option<Logged<O>>, View<Key<O>, Event<O>>> for Empty {
    ghost then = { empties O.SeqObject };
}

/// A store to the `locked` of the one behind.
pub struct PassOn;

impl<O: SeqObject> Play<Option<Logged<O>>, View<Key<O>, Event<O>>> for PassOn {
    ghost then = { passes };
}
