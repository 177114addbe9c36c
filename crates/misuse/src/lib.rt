//! Right uses of passes, of holds, and of what a caller is between two steps. An edit turns each into a misuse, which the
//! prover refuses (`must-fail/`), or the compiler before it is asked (`refused/`).
#![tactic(auto)]

mod calls;
mod closing;
mod holds;
mod logs;
mod queues;
mod tickets;

pub use calls::{call_behind_both, call_on_both, eight_calls};
pub use closing::end_of_two;
pub use holds::{last_turn, turn_at_both, turn_if_free};
pub use logs::count_events;
pub use queues::{call_and_leave, look_once, pass_on_both, queue_up};
pub use tickets::{look_beside_two, look_or_stay};
