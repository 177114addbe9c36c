//! Seats that take in one another's callers, and let them go: moves of the table, which change no word.

ghost use Rattle.std.specs.Prelude.{◌≡◌, ◌<◌};
ghost use Rattle.word_rule.specs.{Rule.Operations.{AreBeside, HasLetGo, Stepped}, Rule.Seats.taken_in};

use crate::{LockTable, Seat, SplitOrJoin};
use event_log::SeqObject;

impl<O: SeqObject> LockTable<O> {
    /// The seat takes in the caller of another.
    pub fn join_seat(&self, seat: &mut Seat<O>, other: Seat<O>)
        requires { AreBeside self.now seat.old other }
        ensures { Stepped seat.old seat.new (seat.new.me ≡ (taken_in seat.old.me.0 other.me.0, seat.old.me.1)) }
    {
        self.table.shared.join_seat::<SplitOrJoin>(seat, other);
    }

    /// The seat lets go the first caller that it has taken in.
    pub fn split_seat(&self, seat: &mut Seat<O>) -> Seat<O>
        requires { (seat.old.table_id ≡ self.now.table.shared.table_id) × (0 < self.now.table.shared.table_id.words) }
        ensures { HasLetGo seat.old seat.new result }
    {
        self.table.shared.split_seat::<SplitOrJoin>(seat)
    }
}
