//! The moves of a cell's seats that are the same at every lock.

ghost use Rattle.word_rule.specs.{Rule.Seats.{taken_in, spent, keeping, letting}, Rule.Announced.{meets, joins, returns_slot, second_holder}};

use crate::{Key, View};
use atomic_table::{Join, Play, Split};
use event_log::{Event, Logged, SeqObject};

/// A seat at the table of a cell.
pub type Seat<O> = atomic_table::Seat<Option<Logged<O>>, View<Key<O>, Event<O>>>;

/// A seat takes in the caller of another, or lets it go.
pub struct SplitOrJoin;

impl<H, E> Join<View<H, E>> for SplitOrJoin {
    ghost both = { taken_in };

    ghost spent = { spent };
}

impl<H, E> Split<View<H, E>> for SplitOrJoin {
    ghost left = { keeping };

    ghost right = { letting };
}

/// The callers of a seat learn one log.
pub struct Meet;

impl<O: SeqObject> Play<Option<Logged<O>>, View<Key<O>, Event<O>>> for Meet {
    ghost then = { meets O.SeqObject };
}

/// The callers of a seat become one.
pub struct Merge;

impl<O: SeqObject> Play<Option<Logged<O>>, View<Key<O>, Event<O>>> for Merge {
    ghost then = { joins O.SeqObject };
}

/// A holder gives its slot back with no end of the hold.
pub struct ReturnSlot;

impl<O: SeqObject> Play<Option<Logged<O>>, View<Key<O>, Event<O>>> for ReturnSlot {
    ghost then = { returns_slot };
}

/// Two holders at one seat: no cell has them.
pub struct SecondHolder;

impl<O: SeqObject> Play<Option<Logged<O>>, View<Key<O>, Event<O>>> for SecondHolder {
    ghost then = { second_holder };
}
