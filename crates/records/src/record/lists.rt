//! The record whose logs and transcripts were kept.

ghost use Rattle.std.specs.Prelude.{◌≡◌};
ghost use Rattle.records.specs.{KernelForm.settings_in, RecordRanges.RecordFits, RecordStates.received_record};

use crate::{KernelForm, Record, Settings};
use event_log::Run;
use record_lines::{RecordLists, RecordSink};

impl Record {
    /// The record of the settings that were handed over and of what is whole, without taking memory.
    pub fn from_lists(settings: Settings, lists: RecordLists<KernelForm>) -> Record
        requires settings { settings ≡ settings_in (⟦<RecordLists<KernelForm> as RecordSink<KernelForm>>⟧.received lists).head }
        requires fit { RecordFits (received_record (⟦<RecordLists<KernelForm> as RecordSink<KernelForm>>⟧.received lists)) }
        ensures { result ≡ received_record (⟦<RecordLists<KernelForm> as RecordSink<KernelForm>>⟧.received lists) }
    {
        let (logs, transcripts) = lists.into_lists();
        Record::new(settings, Run { logs, transcripts })
    }
}
