//! A record of objects of their writer's that is judged while it is read, and then merged.

ghost use Rattle.std.specs.Prelude.{◌≡◌, ◌↔◌, ℕ, Err, List, IfOk, IfErr};
ghost use Rattle.custom_records.specs.{CustomForm.no_head, CustomReceived.received_custom, Ranges.CustomRecordFits};
ghost use Rattle.record_lines.specs.Received.{only_head, IsWholeWith};
ghost use Rattle.judge.specs.{Merged.{IsMergedBy, HasCycleBy}, Models.{Model as AnyModel, AreCounts, IsMistold, IsFirstFaultBy, SoundBy}};
ghost use Rattle.sound_run.specs.Orders.{HasOrder};

use crate::custom_judge::{CustomJudge, Mistold};
use auditor::Fault;
use custom_records::{CustomForm, CustomFormHead, CustomObject};
use event_log::{Entry, Event, OutOfMemory, Series};
use log_merge::{EntryShape, Merging, ShapedRun, merge_run};
use record_lines::RecordSink;
use sound_run::Place;
use std::alloc::Global;
use std::marker::Model;
use std::mem;

/// Why no order is given.
#[derive(Debug, Drop)]
pub enum CustomMergeFault {
    OutOfMemory,
    /// The counts don't fit the record.
    Mistold(Mistold),
    /// The record isn't sound: the first fault.
    Unsound(Fault),
    /// There is no order: entries of different CPUs, each of which has to come behind one that comes behind the next one, and
    /// the last behind one that comes behind the first.
    Cycle(Series<Place>),
}

impl From<OutOfMemory> for CustomMergeFault {
    ghost use Rattle.judge.specs.declared.custom_merge_judge.CustomMergeFault.TheVariants.{OutOfMemory};

    ghost from_gives = { λ _ fault. fault ≡ OutOfMemory };

    fn from(fault: OutOfMemory) -> CustomMergeFault {
        let OutOfMemory = fault;
        CustomMergeFault::OutOfMemory
    }
}

/// Judges a record while it is read, and keeps two bytes of each entry beside what the judge keeps.
#[derive(Drop)]
pub struct CustomMergeJudge {
    alloc: Global,
    judge: CustomJudge,
    transcripts: Vec<Series<EntryShape>>,
    entries: Vec<EntryShape>,
}

impl Model for CustomMergeJudge {
    ghost use Rattle.std.specs.Prelude.{◌≡◌, map};
    ghost use Rattle.log_merge.specs.Shapes.{shape_of};
    ghost use Rattle.judge.specs.Judging.{Counted};

    ghost Value = { Counted };

    ghost view = { λ m. m.judge };

    ghost invariant = { λ m. (m.transcripts.items ≡ map (map shape_of) m.judge.parts.transcripts) × (m.entries.items ≡ map shape_of m.judge.parts.entries) };
}

impl CustomMergeJudge {
    /// Nothing was read yet, and so many steps of each log will be called right. It takes no memory.
    pub fn new(alloc: Global, right: Vec<u64>) -> CustomMergeJudge
        ensures { result ≡ record { parts = only_head no_head; counts = right.items } }
    {
        CustomMergeJudge {
            alloc,
            judge: CustomJudge::new(alloc, right),
            transcripts: Vec::new(alloc),
            entries: Vec::new(alloc),
        }
    }

    /// How many steps of each log are called right.
    pub fn right(&self) -> &[u64]
        ensures { result.now ≡ self.now.counts }
    {
        self.judge.right()
    }

    /// One order over all entries of the record that was read. What is said is said by every model that has these counts.
    pub fn into_merged(self) -> Result<Series<Place>, CustomMergeFault>
        requires whole { IsWholeWith self.parts.head self.parts }
        requires fit { CustomRecordFits (received_custom self.parts) }
        ensures mistold { (x : ℕ) → (result ≡ Err (CustomMergeFault.Mistold (record { object = x }))) ↔ IsMistold (received_custom self.parts) self.counts x }
        ensures unsound { (f : Fault) → result ≡ Err (CustomMergeFault.Unsound f) →
            (model : AnyModel) → AreCounts model (received_custom self.parts) self.counts → IsFirstFaultBy model (received_custom self.parts) f }
        ensures order { IfOk result (λ places. (model : AnyModel) → AreCounts model (received_custom self.parts) self.counts →
            IsMergedBy model (received_custom self.parts) places) }
        ensures cycle { (c : List Place) → result ≡ Err (CustomMergeFault.Cycle c) →
            (model : AnyModel) → AreCounts model (received_custom self.parts) self.counts → HasCycleBy model (received_custom self.parts) c }
        ensures given { (model : AnyModel) → AreCounts model (received_custom self.parts) self.counts → SoundBy model (received_custom self.parts) →
            HasOrder (received_custom self.parts).run → IfErr result (λ f. f ≡ CustomMergeFault.OutOfMemory) }
    {
        let CustomMergeJudge {
            alloc,
            judge,
            transcripts,
            entries: _,
        } = self;
        if let Err(mistold) = judge.verdict() {
            return Err(CustomMergeFault::Mistold(mistold));
        }
        let run = match judge.into_run() {
            Err(fault) => return Err(CustomMergeFault::Unsound(fault)),
            Ok(run) => ShapedRun::new(run, transcripts),
        };
        let merging = merge_run(alloc, &run)?;
        match merging {
            Merging::Order(places) => Ok(places),
            Merging::Cycle(cycle) => Err(CustomMergeFault::Cycle(cycle)),
        }
    }
}

impl RecordSink<CustomForm> for CustomMergeJudge {
    ghost received = { λ m. m.parts };

    fn begin(&mut self, head: &CustomFormHead) -> Result<(), OutOfMemory> {
        self.judge.begin(head)
    }

    fn begin_log(&mut self, count: u64) -> Result<(), OutOfMemory> {
        self.judge.begin_log(count)
    }

    fn event(&mut self, event: &mut Event<CustomObject>, text: &[u8]) -> Result<(), OutOfMemory> {
        self.judge.event(event, text)
    }

    fn end_log(&mut self) -> Result<(), OutOfMemory> {
        self.judge.end_log()
    }

    fn begin_transcript(&mut self, count: u64) -> Result<(), OutOfMemory> {
        self.judge.begin_transcript(count)
    }

    #[inline(always)]
    fn recognises(&mut self, object: u8, looks: u64, tail: &[u8]) -> Result<bool, OutOfMemory> {
        self.entries.reserve(1)?;
        let recognised = self.judge.recognises(object, looks, tail)?;
        if recognised {
            self.entries.push_reserved(EntryShape {
                object,
                is_done: true,
            });
        }
        Ok(recognised)
    }

    fn entry(&mut self, entry: &mut Entry<CustomObject>) -> Result<(), OutOfMemory> {
        self.entries.reserve(1)?;
        let shape = EntryShape::of(entry);
        self.judge.entry(entry)?;
        self.entries.push_reserved(shape);
        Ok(())
    }

    fn end_transcript(&mut self) -> Result<(), OutOfMemory> {
        self.transcripts.reserve(1)?;
        self.judge.end_transcript()?;
        let entries = mem::replace(&mut self.entries, Vec::new(self.alloc));
        self.transcripts.push_reserved(Series::from_vec(entries));
        Ok(())
    }

    fn forget(&mut self) {
        self.judge.forget();
        self.transcripts = Vec::new(self.alloc);
        self.entries = Vec::new(self.alloc);
    }
}
