//! The word of a ticket lock: the next ticket in its high half, the ticket that is served in its low half.

ghost use Rattle.std.specs.Prelude.{◌≡◌, ◌/◌, ◌%◌};
ghost use Rattle.word_rule.specs.Ticket.State.{tickets, ticket_word};

/// How many tickets there are: added to the word, the next ticket is the one behind.
pub const TICKETS: u64 = 1 << 32;

/// The word with these halves.
#[inline]
pub fn word_with(next: u32, served: u32) -> u64
    ensures { result ≡ ticket_word next served }
{
    next as u64 * TICKETS + served as u64
}

/// The next ticket.
#[inline]
pub fn next_ticket(word: u64) -> u32
    ensures { result ≡ word / tickets }
{
    (word / TICKETS) as u32
}

/// The ticket that is served.
#[inline]
pub fn served_ticket(word: u64) -> u32
    ensures { result ≡ word % tickets }
{
    (word % TICKETS) as u32
}

/// What is subtracted from the low half after the greatest ticket, so that it becomes 0 and nothing runs over into the high
/// half.
pub const LAST_TICKET: u64 = TICKETS - 1;
