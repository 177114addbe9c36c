//! A caller of a cell that has the object, whichever lock the cell has.

ghost use Rattle.std.specs.Prelude.{◌≡◌};
ghost use Rattle.event_log.proofs.Props.{legal_props};
ghost use Rattle.word_rule.specs.{Sides.StandsInside, Locks.holder};

use crate::Inside;
use event_log::SeqObject;

/// A caller with the object. It can't be dropped: it ends where its lock takes the object back. Its fields are for the
/// crates of the locks. The mark is what its lock keeps for a holder: the ticket by which it came to a ticket lock, and 0 at an
/// MCS lock.
pub struct Hold<O: SeqObject> {
    pub inside: Inside<O>,
    pub mark: u32,
    pub ghost holds: { StandsInside O.SeqObject inside.outside.seat.me.0.main.stage inside } by { Prim.hlevel legal_props },
    pub ghost there: { inside.outside.seat.me.0.main.stage ≡ holder inside.outside.key.value.kind mark },
}
