//! Records of objects whose kinds are their writer's: what they say, their lines, and reading them.
#![tactic(auto)]

mod custom_form;
mod custom_head;
mod entries;
mod events;
mod head_lines;
mod items;
mod object;
mod objects;
mod pinned_limits;
mod reader;
mod record;
mod refusing;
mod said;
mod settings;
mod spoken;
mod step_words;

pub use custom_form::CustomForm;
pub use custom_head::{CustomFormHead, CustomHeadNext};
pub use entries::{entry_front, entry_line};
pub use events::event_line;
pub use head_lines::{count_line, cpu_line, cpus_line, end_line, first_line, log_line};
pub use object::{CustomObject, CustomReply};
pub use objects::object_line;
pub use pinned_limits::shows_limits;
pub use reader::read_custom;
pub use record::{CustomRecord, read_lists};
pub use refusing::{is_refusing, refuses_line};
pub use said::is_number_next;
pub use settings::{
    CustomHead, CustomName, CustomSettings, MOST_CUSTOM_CPUS, MOST_CUSTOM_OBJECTS, MOST_SIZES,
    MOST_WORDS,
};
pub use spoken::{MOST_LETTERS, MOST_NUMBERS, Spoken};
pub use step_words::{CustomWords, quiet_steps_in};
