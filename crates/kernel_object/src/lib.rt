//! The four objects of a kernel as one sequential object.
#![tactic(auto)]

mod call;
mod kind;
mod object;
mod replies;

pub use call::{KCall, KParams, KReply};
pub use kind::Kind;
pub use object::KernelObject;
