//! A cell behind a lock of either kind.

use event_log::SeqObject;
use mcs_lock::McsCell;
use ticket_lock::TicketCell;

/// An object behind a lock. One that is dropped drops the object.
#[derive(Drop)]
pub enum AnyCell<O: SeqObject> {
    Ticket(TicketCell<O>),
    Mcs(McsCell<O>),
}
