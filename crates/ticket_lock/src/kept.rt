//! A hold of a ticket lock whose object stays in its slot, for callers whose lock guards other data.

ghost use Rattle.event_log.proofs.Props.{legal_props};
ghost use Rattle.word_rule.specs.{declared.lock_kind.Stage.TheVariants.Ticket, declared.lock_kind.TicketStage.TheVariants.Served, Keeping.IsKeeping};

use event_log::SeqObject;
use word_rule::Outside;

/// A holder whose object is in its slot. It can't be dropped: it ends in `serve_kept`.
pub struct Kept<O: SeqObject> {
    pub(crate) outside: Outside<O>,
    pub(crate) ticket: u32,
    pub ghost keeps: { IsKeeping O.SeqObject outside.key.value outside.cpu.number (Ticket (Served ticket)) outside.seat.me } by { Prim.hlevel legal_props },
}
