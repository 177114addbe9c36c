//! What a whole run of calls on shared objects is: which lock guards an object, when a run is sound, and what one order of its
//! entries is.
#![tactic(auto)]

mod limits;
mod lock_kind;
mod pinned_limits;
mod place;

pub use limits::{MOST_CELLS, MOST_CPUS};
pub use lock_kind::LockKind;
pub use pinned_limits::shows_limits;
pub use place::Place;
