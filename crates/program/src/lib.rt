//! What programs share: the words behind the path, the names of files among them, the inputs of those names with what they
//! spell, and the refusals.
#![tactic(auto)]

mod file_names;
mod inputs;
mod refusal;
mod shell;
mod system;
mod texts;
mod words;

pub use file_names::{BadName, file, wanted_file};
pub use inputs::Inputs;
pub use refusal::{Refusal, write_line};
pub use shell::start;
pub use system::System;
pub use texts::{read_record, read_record_into, read_schedule, read_scripts, read_settings};
pub use words::words_given;
