//! The limits of texts are the numbers that `specs/Limits.antt` has.

ghost use Rattle.std.specs.Prelude.{◌≡◌};
ghost use Rattle.scripts.specs.Limits.{most_settings_bytes, most_entries, most_steps, most_line_bytes, most_cpus_of_record_1};

use crate::{MOST_SETTINGS_BYTES, MOST_STEPS};
use kernel_words::{FIRST_MOST_CPUS, Form, WRITTEN};
use record_lines::MOST_BYTES;
use records::MOST_ENTRIES;

/// The constants are these numbers, and records are written as record 2. It does nothing.
pub fn shows_limits()
    ensures settings { MOST_SETTINGS_BYTES ≡ most_settings_bytes }
    ensures entries { MOST_ENTRIES ≡ most_entries }
    ensures steps { MOST_STEPS ≡ most_steps }
    ensures line { MOST_BYTES ≡ most_line_bytes }
    ensures cpus { FIRST_MOST_CPUS ≡ most_cpus_of_record_1 }
    ensures form { WRITTEN ≡ Form.Two }
{}
