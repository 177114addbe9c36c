//! A ticket lock's steps, each on its one word.

ghost use Rattle.std.specs.Prelude.{◌≡◌, ◌+◌, ◌-◌, ◌%◌, ◌^◌, ◌<◌, length, slice_index_or};
ghost use Rattle.word_rule.specs.{Ticket.Definition.ticket_lock, Ticket.State.tickets, Rule.LockStates.{ShowsState, TurnsTo}};

use crate::machine::step_done::StepDone;
use crate::{LAST_TICKET, Stage, TICKETS, TicketStage, next_ticket, served_ticket};

/// The next step of a CPU.
pub fn turn_ticket(words: &mut [u64], stages: &mut [Stage], cpu: u8) -> StepDone
    requires shows { ShowsState ticket_lock (length stages.old) words.old stages.old }
    requires exists { cpu < length stages.old }
    ensures { TurnsTo ticket_lock (length stages.old) words.old stages.old cpu result words.new stages.new }
{
    let i = cpu as usize;
    match stages[i] {
        Stage::Idle => {
            let word = words[0];
            words[0] = word.wrapping_add(TICKETS);
            stages[i] = Stage::Ticket(TicketStage::Drawn(next_ticket(word)));
            StepDone::Draw
        }
        Stage::Ticket(stage) => turn_in_line(words, stages, cpu, stage),
        _ => StepDone::Idle,
    }
}

/// The next step of a CPU that has a ticket.
fn turn_in_line(words: &mut [u64], stages: &mut [Stage], cpu: u8, stage: TicketStage) -> StepDone
    requires shows { ShowsState ticket_lock (length stages.old) words.old stages.old }
    requires exists { cpu < length stages.old }
    requires stands { slice_index_or stages.old cpu Stage.Idle ≡ Stage.Ticket stage }
    ensures { TurnsTo ticket_lock (length stages.old) words.old stages.old cpu result words.new stages.new }
{
    let i = cpu as usize;
    match stage {
        TicketStage::Drawn(ticket) => {
            if served_ticket(words[0]) != ticket {
                return StepDone::Look(false);
            }
            stages[i] = Stage::Ticket(TicketStage::Served(ticket));
            StepDone::Look(true)
        }
        TicketStage::Served(ticket) => {
            words[0] = served_next(words[0], ticket);
            stages[i] = Stage::Idle;
            StepDone::Serve
        }
    }
}

/// The word once the next ticket is served: one more in the low half, or after the greatest ticket none.
fn served_next(word: u64, ticket: u32) -> u64
    ensures adds { ticket + 1 < tickets → result ≡ (word + 1) % 2 ^ 64 }
    ensures subtracts { ticket + 1 ≡ tickets → result ≡ (word + (2 ^ 64 - (tickets - 1))) % 2 ^ 64 }
{
    if ticket == u32::MAX {
        word.wrapping_sub(LAST_TICKET)
    } else {
        word.wrapping_add(1)
    }
}
