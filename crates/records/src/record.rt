//! A record: what was set, and what the run did.

ghost use Rattle.std.specs.Prelude.{◌≡◌};
ghost use Rattle.records.specs.RecordRanges.{RecordFits};

pub mod before_quotas;
pub mod form_faults;
pub mod head_lines;
pub mod kernel_form;
pub mod kernel_head;
pub mod lines;
pub mod lists;
pub mod read_into;
pub mod reader;
pub mod run_ranges;
pub mod source;
pub mod state;
pub mod step_texts;
pub mod writer;

use crate::Settings;
use event_log::Run;
use kernel_object::KernelObject;
use std::marker::Model;

/// The most entries of one CPU.
pub const MOST_ENTRIES: usize = 10_000;

/// The settings of a run, its logs and its transcripts, with all that they hold in its ranges: a log for each object, of
/// at most 65,536 events, a transcript for each CPU, of at most 10,000 entries, 1 to 8 calls or steps in each.
#[derive(Drop)]
pub struct Record {
    settings: Settings,
    run: Run<KernelObject>,
}

impl Model for Record {
    ghost use Rattle.records.specs.RecordRanges.{RecordFits, Record as Shown};

    ghost Value = { Shown };

    ghost view = { λ r. record { settings = r.settings; run = r.run } };

    ghost invariant = { λ r. RecordFits (record { settings = r.settings; run = r.run }) };
}

impl Record {
    /// The record of a run under these settings.
    pub fn new(settings: Settings, run: Run<KernelObject>) -> Record
        requires { RecordFits (record { settings = settings; run = run }) }
        ensures { result ≡ record { settings = settings; run = run } }
    {
        Record { settings, run }
    }

    /// What was set.
    pub fn settings(&self) -> &Settings
        ensures settings { result.now ≡ self.now.settings }
        ensures fit { RecordFits self.now }
    {
        &self.settings
    }

    /// What was done.
    pub fn run(&self) -> &Run<KernelObject>
        ensures run { result.now ≡ self.now.run }
        ensures fit { RecordFits self.now }
    {
        &self.run
    }
}
