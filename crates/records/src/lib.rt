//! Records of runs: settings, logs and transcripts, and their text.
#![tactic(auto)]

mod copies;
mod record;
mod settings;

pub use copies::copy_all;
pub use record::before_quotas::sound_as_before;
pub use record::form_faults::bad_line_of_form;
pub use record::kernel_form::KernelForm;
pub use record::kernel_head::{HeadNext, KernelHead};
pub use record::read_into::read_into;
pub use record::reader::{RecordReader, no_text_begins_another, read_text_into};
pub use record::run_ranges::{replies_fit, sound_runs_fit};
pub use record::step_texts::{KernelWords, StepTexts};
pub use record::writer::{put_done, write_record};
pub use record::{MOST_ENTRIES, Record};
pub use settings::lookup::{is_taken, place};
pub use settings::{ObjectSettings, Settings};
