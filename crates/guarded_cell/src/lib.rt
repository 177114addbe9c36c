//! An object behind a lock of either kind, and whole calls on it.
#![tactic(auto)]

mod any_caller;
mod callers;
mod cell;
mod groups;
mod lock;
mod make;
mod many_callers;
mod on_threads;
mod pinned_limits;
mod polls;
mod real_time;
mod runs;
mod tries;
mod unused_cell;
mod whole;

pub use any_caller::{AnyCaller, polled_mcs};
pub use callers::{call_all, call_on_two_threads, two_callers};
pub use cell::AnyCell;
pub use groups::MOST_GROUPS;
pub use many_callers::call_each;
pub use on_threads::callers_on_threads;
pub use pinned_limits::shows_limits;
pub use real_time::{one_after_other, returned_before_begun};
pub use runs::joined_runs_are_sound;
pub use tries::{Declined, try_batch, try_call};
pub use unused_cell::end_unused;
pub use whole::{batch, call, with_hold};
pub use word_rule::{Hold as AnyHold, Pass as AnyPass};
