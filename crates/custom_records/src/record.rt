//! A record whose logs and transcripts are kept whole.

ghost use Rattle.std.specs.Prelude.{◌≡◌, IfOk, IfErr};
ghost use Rattle.custom_records.specs.{Ranges.{CustomRecordFits, CustomRecord as Shown}, RecordFaults.{IsCustomText, IsReadCustom, NamesBadCustomLine}, RecordText.custom_text};

use crate::reader::read_custom;
use crate::{CustomForm, CustomHead, CustomObject};
use event_log::Run;
use record_lines::{LinesFault, RecordLists};
use std::alloc::Global;
use std::marker::Model;

/// The head of a record, its logs and its transcripts, with all that they hold within its limits.
#[derive(Drop)]
pub struct CustomRecord {
    head: CustomHead,
    run: Run<CustomObject>,
}

impl Model for CustomRecord {
    ghost use Rattle.custom_records.specs.Ranges.{CustomRecordFits, CustomRecord as Shown};

    ghost Value = { Shown };

    ghost view = { λ r. record { head = r.head; run = r.run } };

    ghost invariant = { λ r. CustomRecordFits (record { head = r.head; run = r.run }) };
}

impl CustomRecord {
    /// The record of a run on the objects of that head.
    fn new(head: CustomHead, run: Run<CustomObject>) -> CustomRecord
        requires { CustomRecordFits (record { head = head; run = run }) }
        ensures { result ≡ record { head = head; run = run } }
    {
        CustomRecord { head, run }
    }

    /// What the objects are.
    pub fn head(&self) -> &CustomHead
        ensures head { result.now ≡ self.now.head }
        ensures fit { CustomRecordFits self.now }
    {
        &self.head
    }

    /// What was done.
    pub fn run(&self) -> &Run<CustomObject>
        ensures run { result.now ≡ self.now.run }
        ensures fit { CustomRecordFits self.now }
    {
        &self.run
    }
}

/// The record that the text spells, whole. Where the text spells none, the line that is named is the first with which no record
/// goes on.
pub fn read_lists(alloc: Global, text: &[u8]) -> Result<CustomRecord, LinesFault>
    ensures found { IfOk result (IsCustomText text.now) }
    ensures only { (r : Shown) → CustomRecordFits r → text.now ≡ custom_text r → IsReadCustom r result }
    ensures fault { IfErr result (NamesBadCustomLine text.now) }
{
    let lists: RecordLists<CustomForm> = RecordLists::new(alloc);
    let (head, lists) = read_custom(alloc, text, lists)?;
    let (logs, transcripts) = lists.into_lists();
    Ok(CustomRecord::new(head, Run { logs, transcripts }))
}
