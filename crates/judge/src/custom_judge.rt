//! A record of objects of their writer's that is judged while it is read.

ghost use Rattle.std.specs.Prelude.{◌≡◌, ◌↔◌, ℕ, Err, map, slice_index, IfOk, IfErr};
ghost use Rattle.auditor.specs.{ByModels.SoundBy, Faults.IsFirstFaultBy, StepModels.counted_model};
ghost use Rattle.custom_records.specs.{Custom.custom, CustomForm.no_head, CustomReceived.received_custom, Ranges.CustomRecordFits, Settings.{CustomSettings as Shown}};
ghost use Rattle.record_lines.specs.Received.{only_head, IsWholeWith};
ghost use Rattle.judge.specs.{Judging.{IsNextWithout, custom_terms}, Models.{IsMistold, IsVerdictByCounts}};

use crate::custom_rows::CustomRows;
use auditor::{Counted, Fault, JudgedRun, OpenedObject, RunJudge, Verdict};
use custom_records::{CustomForm, CustomFormHead, CustomObject, CustomSettings};
use event_log::{Entry, Event, OutOfMemory, Past};
use record_lines::RecordSink;
use std::alloc::Global;
use std::marker::Model;
use std::mem;

/// The place where the counts don't fit the record: the first that isn't an object with a count which is at most as many as
/// the steps of its log, though it is an object or has a count.
#[derive(Clone, Copy, Debug, PartialEq, Eq, Drop)]
pub struct Mistold {
    pub object: usize,
}

/// Judges a record while it is read, by how many steps of each log, from the first on, its reader calls right. Of an event it
/// keeps the text of its steps, and of an entry nothing. What it was handed over contracts alone know.
#[derive(Drop)]
pub struct CustomJudge {
    alloc: Global,
    right: Vec<u64>,
    limits: Vec<u32>,
    /// How many logs are whole.
    log: usize,
    /// How many steps of the log that is read are still to be right.
    left: u64,
    /// The first whole log without a count, or with one that is more than its steps.
    without: Option<usize>,
    head: Past<CustomFormHead>,
    begun: bool,
    judged: RunJudge<CustomObject, Counted, CustomRows>,
}

impl Model for CustomJudge {
    ghost use Rattle.std.specs.Prelude.{get_or};
    ghost use Rattle.custom_records.specs.CustomForm.{no_head};
    ghost use Rattle.judge.specs.Judging.{Counted as Shown, custom_parts, HasReceivedCustom};

    ghost Value = { Shown };

    ghost view = { λ j. record { parts = custom_parts (get_or j.head.items 0 no_head) j.begun j.judged; counts = j.right.items } };

    ghost invariant = { λ j. HasReceivedCustom (custom_parts (get_or j.head.items 0 no_head) j.begun j.judged) j.right.items j.limits.items j.log j.left j.without j.judged };
}

/// The count at a place, or none.
fn count_at(counts: &[u64], place: usize) -> u64
    ensures { result ≡ slice_index counts.now place }
{
    match counts.get(place) {
        Some(count) => *count,
        None => 0,
    }
}

/// The first log that has no count or one that is more than its steps, once one log more is whole, of which so many steps were
/// still to be right.
fn next_without(counts: &[u64], log: usize, left: u64, without: Option<usize>) -> Option<usize>
    ensures { IsNextWithout counts.now log left without result }
{
    if without.is_some() {
        return without;
    }
    if log < counts.len() && left == 0 {
        return None;
    }
    Some(log)
}

/// The most events of each object's log.
fn limits_of(alloc: Global, objects: &[CustomSettings]) -> Result<Vec<u32>, OutOfMemory>
    ensures { IfOk result (λ limits. limits.items ≡ map (λ (o : Shown). o.events) objects.now) }
{
    let mut limits = Vec::with_capacity(alloc, objects.len())?;
    for object in objects {
        limits.push_reserved(object.events);
    }
    Ok(limits)
}

impl CustomJudge {
    /// Nothing was read yet, and so many steps of each log will be called right. It takes no memory.
    pub fn new(alloc: Global, right: Vec<u64>) -> CustomJudge
        ensures { result ≡ record { parts = only_head no_head; counts = right.items } }
    {
        let left = count_at(right.as_slice(), 0);
        CustomJudge {
            alloc,
            right,
            limits: Vec::new(alloc),
            log: 0,
            left,
            without: None,
            head: Past::new(),
            begun: false,
            judged: RunJudge::empty(alloc),
        }
    }

    /// How many steps of each log are called right. A reader of records leaves them as they were received, but no clause of
    /// `RecordSink` says so: whoever relies on it compares.
    pub fn right(&self) -> &[u64]
        ensures { result.now ≡ self.now.counts }
    {
        self.right.as_slice()
    }

    /// The verdict on the record that was read by every model that has these counts, or where they fit no model.
    pub fn verdict(&self) -> Result<Verdict, Mistold>
        requires whole { IsWholeWith self.now.parts.head self.now.parts }
        requires fit { CustomRecordFits (received_custom self.now.parts) }
        ensures mistold { (x : ℕ) → (result ≡ Err (record { object = x })) ↔ IsMistold (received_custom self.now.parts) self.now.counts x }
        ensures verdict { IfOk result (IsVerdictByCounts (received_custom self.now.parts) self.now.counts) }
    {
        if let Some(object) = self.without {
            return Err(Mistold { object });
        }
        if self.right.len() > self.limits.len() {
            return Err(Mistold {
                object: self.limits.len(),
            });
        }
        Ok(self.judged.verdict())
    }

    /// The run that was read, if it is sound, or else its first fault. It takes no memory.
    pub(crate) fn into_run(self) -> Result<JudgedRun<CustomObject, CustomRows>, Fault>
        requires whole { IsWholeWith self.parts.head self.parts }
        requires fit { CustomRecordFits (received_custom self.parts) }
        ensures run { IfOk result (λ r. r ≡ (received_custom self.parts).run) }
        ensures sound { IfOk result (λ r. SoundBy (counted_model custom) (custom_terms self.counts self.parts.head.so_far.objects) (received_custom self.parts).run) }
        ensures fault { IfErr result (IsFirstFaultBy (counted_model custom) (custom_terms self.counts self.parts.head.so_far.objects) (received_custom self.parts).run) }
    {
        let CustomJudge { judged, .. } = self;
        judged.into_run()
    }
}

impl RecordSink<CustomForm> for CustomJudge {
    ghost received = { λ j. j.parts };

    fn begin(&mut self, head: &CustomFormHead) -> Result<(), OutOfMemory> {
        let so_far = &head.so_far;
        let limits = limits_of(self.alloc, so_far.objects.as_slice())?;
        self.judged = RunJudge::new(self.alloc, so_far.cpus as usize, so_far.objects.len())?;
        self.limits = limits;
        self.head = Past::named(&self.head, head);
        Ok(())
    }

    fn begin_log(&mut self, count: u64) -> Result<(), OutOfMemory> {
        let opened = OpenedObject {
            params: (),
            limit: self.limits[self.log],
        };
        let counted = Counted { left: self.left };
        self.judged.begin_log(&opened, counted, count as usize)?;
        self.begun = true;
        Ok(())
    }

    fn event(&mut self, event: &mut Event<CustomObject>, text: &[u8]) -> Result<(), OutOfMemory> {
        self.judged.event(event, text)?;
        self.left = self.left.saturating_sub(event.steps.list.len() as u64);
        Ok(())
    }

    fn end_log(&mut self) -> Result<(), OutOfMemory> {
        self.judged.end_log()?;
        self.without = next_without(self.right.as_slice(), self.log, self.left, self.without);
        self.log += 1;
        self.left = count_at(self.right.as_slice(), self.log);
        self.begun = false;
        Ok(())
    }

    fn begin_transcript(&mut self, count: u64) -> Result<(), OutOfMemory> {
        self.judged.begin_transcript(count as usize);
        self.begun = true;
        Ok(())
    }

    #[inline(always)]
    fn recognises(&mut self, object: u8, looks: u64, tail: &[u8]) -> Result<bool, OutOfMemory> {
        Ok(self.judged.recognises(object, looks, tail))
    }

    fn entry(&mut self, entry: &mut Entry<CustomObject>) -> Result<(), OutOfMemory> {
        self.judged.entry(entry);
        Ok(())
    }

    fn end_transcript(&mut self) -> Result<(), OutOfMemory> {
        self.judged.end_transcript();
        self.begun = false;
        Ok(())
    }

    fn forget(&mut self) {
        let right = mem::replace(&mut self.right, Vec::new(self.alloc));
        *self = CustomJudge::new(self.alloc, right);
    }
}
