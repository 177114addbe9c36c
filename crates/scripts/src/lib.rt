//! The texts that a run starts from: settings, scripts and schedules. What is below them is passed on: records, words and objects.
#![tactic(auto)]

mod pinned_limits;
mod schedule;
mod script;
mod settings;

pub use kernel_object::{KCall, KParams, KReply, KernelObject, Kind};
pub use kernel_words::{
    FIRST_MOST_CPUS, FastRead, Field, Form, ListItem, Spelled, Spelling, WRITTEN, fits, list,
    lock_word, put_value, spelled_once, value,
};
pub use pinned_limits::shows_limits;
pub use record_lines::{
    Buffered, LineFault, LinesFault, LinesFault as RecordFault, LinesFault as ScriptsFault,
    MOST_BYTES, RecordSink, SourceFault, TextFault, Words, WriteFailed, begin_line, end_line,
    is_name, key, mark, name_in, number, number_of, put_number, put_word, put_words, read_all,
    read_up_to, split_line, split_once, word, write_text,
};
pub use records::{
    KernelForm, KernelHead, MOST_ENTRIES, ObjectSettings, Record, RecordReader, Settings,
    StepTexts, bad_line_of_form, no_text_begins_another, put_done, read_into, read_text_into,
    replies_fit, sound_as_before, sound_runs_fit, write_record,
};
pub use schedule::{MOST_STEPS, Schedule, ScheduleFault};
pub use script::cpu_scripts::Scripts;
pub use settings::fault::{BadSettings, Cause, SettingsFault, SettingsKey, SettingsPlace};
pub use settings::reading::{MOST_SETTINGS_BYTES, ReadSettings};
