//! Handles: what C has in the place of a `Box`.
#![tactic(auto)]

mod handle;
mod lent;
mod parts;

pub use handle::{Handle, at_content, at_content_with, box_of, handle_of, with_content};
pub use parts::Parts;
