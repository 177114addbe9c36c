//! Callers of cells, for a language that has neither passes nor holds. A caller acquires and releases its lock step by step, or
//! does a whole call. Between two of them it stays in one state.
#![tactic(auto)]

mod applying;
mod batched;
mod batching;
mod call_law;
mod call_numbers;
mod caller;
mod caller_content;
mod caller_handle;
mod cell_content;
mod cell_handle;
mod cell_lifetime;
mod logged_step;
mod open_cell;
mod opening;
mod pinned_codes;
mod place;
mod reopening;
mod report_codes;
mod straight;
mod whole;

pub use applying::{apply, try_hold};
pub use batched::batch_in_place;
pub use batching::{Batch, Replies, write_calls};
pub use call_law::{
    one_batch_is_a_hold, one_batch_is_answered, one_call_is_a_hold, one_call_is_answered,
    one_try_is_a_hold, one_try_is_answered,
};
pub use call_numbers::{Answered, Asked, called_of};
pub use caller::Caller;
pub use caller_content::CallerContent;
pub use caller_handle::CallerHandle;
pub use cell_content::CellContent;
pub use cell_handle::CellHandle;
pub use cell_lifetime::{NoNewCaller, NotClosed};
pub use logged_step::LoggedStep;
pub use open_cell::OpenCell;
pub use opening::{NotOpened, Opening};
pub use pinned_codes::shows_codes;
pub use place::CallerPlace;
pub use report_codes::{
    ACQUIRED, ACQUIRED_BY_LOOK, AGAIN, BAD_PARAM, BUSY, DONE, DONE_HELD, LOG_FULL, LOG_FULL_HELD,
    NO_MEMORY, NOT_FOUND, REFUSED, RELEASED, STEPPED, answer_code, opening_code, progress_code,
    try_code,
};
pub use straight::call_straight;
pub use whole::{TriedCall, Whole, try_call};
pub use word_rule::Progress;
