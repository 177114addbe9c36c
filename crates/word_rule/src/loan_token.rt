//! The object of a cell, out of its slot and back.

ghost use Rattle.std.specs.Prelude.{◌≡◌, ◌∷◌, Some, None};
ghost use Rattle.atomic_table.specs.Table.{rest};
ghost use Rattle.word_rule.specs.Rule.Operations.{IsLending, HasLent, Stepped};

use crate::{LockTable, Seat};
use event_log::{Logged, SeqObject};

/// Stands for an object that is out of its cell. It can't be dropped: it ends where the object is put back.
pub struct LoanToken {
    out: (),
}

impl<O: SeqObject> LockTable<O> {
    /// Takes the object out of the slot, which has come to the seat.
    pub fn take(&self, seat: &mut Seat<O>) -> (Logged<O>, LoanToken)
        requires { IsLending self.now seat.old }
        ensures { HasLent seat.old seat.new result.0 }
    {
        let logged = self.table.shared.exchange(seat, 0, None).unwrap();
        (logged, LoanToken { out: () })
    }

    /// Puts the object back into the slot, which is still with the seat.
    pub fn put_back(&self, seat: &mut Seat<O>, logged: Logged<O>, loan: LoanToken)
        requires { (seat.old.table_id ≡ self.now.table.shared.table_id) × (seat.old.me.1 ≡ (0, None) ∷ rest seat.old.me.1) }
        ensures { Stepped seat.old seat.new (seat.new.me ≡ (seat.old.me.0, (0, Some logged) ∷ rest seat.old.me.1)) }
    {
        let LoanToken { out: _ } = loan;
        let empty = self.table.shared.exchange(seat, 0, Some(logged));
        let None = empty else { unreachable!() };
    }
}
