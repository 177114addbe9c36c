//! A console ring of bytes, as a sequential object.
#![tactic(auto)]

mod call;
mod console;
mod passing;

pub use call::{ConsoleCall, ConsoleReply};
pub use console::{Console, MOST_BYTES};
pub use passing::{first_in_first_out, stays_within};
