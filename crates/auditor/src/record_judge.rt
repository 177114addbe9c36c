//! A record that is judged while it is read.

ghost use Rattle.std.specs.Prelude.{◌≡◌, ◌↔◌, IfOk, IfErr};
ghost use Rattle.record_lines.specs.Received.{only_head, IsWholeWith};
ghost use Rattle.records.specs.{KernelForm.{no_head, settings_in}, RecordRanges.RecordFits, RecordStates.received_record, Runs.opened_of};
ghost use Rattle.sound_run.specs.Sound.{Sound};
ghost use Rattle.auditor.specs.{Faults.IsFirstFault, Transcripts.opened_by, VerdictText.{CanBeReported, IsNamed}};

use crate::run_judge::RunJudge;
use crate::{Fault, JudgedRun, OpenedObject, ReferenceObject, Replayed, Verdict};
use event_log::{Entry, Event, OutOfMemory, Past, SeqObject};
use kernel_object::KernelObject;
use record_lines::RecordSink;
use records::{KernelForm, KernelHead, ObjectSettings, StepTexts};
use std::alloc::Global;
use std::marker::Model;

/// What the objects of the settings are judged by.
pub(crate) fn objects_of(
    alloc: Global,
    objects: &[ObjectSettings],
) -> Result<Vec<OpenedObject<KernelObject>>, OutOfMemory>
    ensures { IfOk result (λ opened_objects. opened_by opened_objects.items ≡ opened_of (record { cpus = 0; objects = objects.now })) }
{
    let mut opened_objects = Vec::with_capacity(alloc, objects.len())?;
    for object in objects {
        opened_objects.push_reserved(OpenedObject {
            params: object.params(),
            limit: object.events(),
        });
    }
    Ok(opened_objects)
}

/// Judges a record while it is read, and keeps of it no more than the steps of its logs. What it was handed over contracts
/// alone know.
#[derive(Drop)]
pub struct RecordJudge<J: ReferenceObject<KernelObject>> {
    alloc: Global,
    head: Past<KernelHead>,
    opened: Vec<OpenedObject<KernelObject>>,
    begun: bool,
    log: usize,
    judged: RunJudge<KernelObject, Replayed<J>, StepTexts>,
}

impl<J: ReferenceObject<KernelObject>> Model for RecordJudge<J> {
    ghost use Rattle.std.specs.Prelude.{get_or};
    ghost use Rattle.records.specs.{KernelForm.no_head, RecordStates.KernelReceived};
    ghost use Rattle.auditor.specs.JudgedParts.{judged_parts, HasReceivedParts};

    ghost Value = { KernelReceived };

    ghost view = { λ j. judged_parts (get_or j.head.items 0 no_head) j.begun j.judged };

    ghost invariant = { λ j. HasReceivedParts (judged_parts (get_or j.head.items 0 no_head) j.begun j.judged) j.opened.items j.log j.judged };
}

impl<J: ReferenceObject<KernelObject>> RecordJudge<J> {
    /// Nothing was read yet. It takes no memory.
    pub fn new(alloc: Global) -> RecordJudge<J>
        ensures { result ≡ only_head no_head }
    {
        RecordJudge {
            alloc,
            head: Past::new(),
            opened: Vec::new(alloc),
            begun: false,
            log: 0,
            judged: RunJudge::empty(alloc),
        }
    }

    /// Whether the record that was read is sound, or else its first fault.
    pub fn verdict(&self) -> Verdict
        requires whole { IsWholeWith self.now.head self.now }
        requires fit { RecordFits (received_record self.now) }
        ensures sound { (result ≡ Verdict.Sound) ↔ Sound ⟦<KernelObject as SeqObject>⟧ (opened_of (settings_in self.now.head)) (received_record self.now).run }
        ensures fault { (f : Fault) → (result ≡ Verdict.Unsound f) ↔
            IsFirstFault ⟦<KernelObject as SeqObject>⟧ (opened_of (settings_in self.now.head)) (received_record self.now).run f }
        ensures reported { CanBeReported (settings_in self.now.head) result }
    {
        self.judged.verdict()
    }

    /// The run that was read, if it is sound, or else its first fault. It takes no memory.
    pub fn into_run(self) -> Result<JudgedRun<KernelObject, StepTexts>, Fault>
        requires whole { IsWholeWith self.head self }
        requires fit { RecordFits (received_record self) }
        ensures run { IfOk result (λ r. r ≡ (received_record self).run) }
        ensures sound { IfOk result (λ r. Sound ⟦<KernelObject as SeqObject>⟧ (opened_of (settings_in self.head)) (received_record self).run) }
        ensures fault { IfErr result (IsFirstFault ⟦<KernelObject as SeqObject>⟧ (opened_of (settings_in self.head)) (received_record self).run) }
        ensures reported { IfErr result (IsNamed (settings_in self.head)) }
    {
        let RecordJudge { judged, .. } = self;
        judged.into_run()
    }
}

impl<J: ReferenceObject<KernelObject>> RecordSink<KernelForm> for RecordJudge<J> {
    ghost received = { λ p. p };

    fn begin(&mut self, head: &KernelHead) -> Result<(), OutOfMemory> {
        let opened = objects_of(self.alloc, head.objects.as_slice())?;
        self.judged = RunJudge::new(self.alloc, head.cpus as usize, head.objects.len())?;
        self.opened = opened;
        self.head = Past::named(&self.head, head);
        Ok(())
    }

    fn begin_log(&mut self, count: u64) -> Result<(), OutOfMemory> {
        let opened = &self.opened[self.log];
        let object = J::open(self.alloc, &opened.params)?;
        self.judged
            .begin_log(opened, Replayed { object }, count as usize)?;
        self.begun = true;
        Ok(())
    }

    fn event(&mut self, event: &mut Event<KernelObject>, text: &[u8]) -> Result<(), OutOfMemory> {
        self.judged.event(event, text)
    }

    fn end_log(&mut self) -> Result<(), OutOfMemory> {
        self.judged.end_log()?;
        self.begun = false;
        self.log += 1;
        Ok(())
    }

    fn begin_transcript(&mut self, count: u64) -> Result<(), OutOfMemory> {
        self.judged.begin_transcript(count as usize);
        self.begun = true;
        Ok(())
    }

    #[inline(always)]
    fn recognises(&mut self, object: u8, looks: u64, tail: &[u8]) -> Result<bool, OutOfMemory> {
        Ok(self.judged.recognises(object, looks, tail))
    }

    fn entry(&mut self, entry: &mut Entry<KernelObject>) -> Result<(), OutOfMemory> {
        self.judged.entry(entry);
        Ok(())
    }

    fn end_transcript(&mut self) -> Result<(), OutOfMemory> {
        self.judged.end_transcript();
        self.begun = false;
        Ok(())
    }

    fn forget(&mut self) {
        *self = RecordJudge::new(self.alloc);
    }
}
