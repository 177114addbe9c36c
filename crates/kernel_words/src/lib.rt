//! How the objects of the kernel are spelled: their parameters, their calls and replies, and the words of locks.
#![tactic(auto)]

mod form;
mod kinds;
mod tables;

pub use form::{FIRST_MOST_CPUS, Form, WRITTEN};
pub use kinds::put_params;
pub use tables::call_list::{ListItem, list};
pub use tables::fast_reads::FastRead;
pub use tables::field::Field;
pub use tables::lock_words::{lock_of_word, lock_word};
pub use tables::params::params;
pub use tables::ranges::{fits, spelled_once};
pub use tables::read::{field, limited, quota, value};
pub use tables::spelling::{Spelled, Spelling, first, second};
pub use tables::write::put_value;
