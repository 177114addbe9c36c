//! A record that is judged while it is read, and then merged.

ghost use Rattle.std.specs.{Prelude.{◌≡◌, ◌<◌, Err, List, IfOk, IfErr}, List.AllByRecursion};
ghost use Rattle.auditor.specs.{Faults.IsFirstFault, VerdictText.IsNamed};
ghost use Rattle.log_merge.specs.MergedRecords.{IsMerged, HasCycle};
ghost use Rattle.record_lines.specs.Received.{only_head, IsWholeWith};
ghost use Rattle.records.specs.{KernelForm.{no_head, settings_in}, RecordRanges.RecordFits, RecordStates.received_record, Runs.opened_of};
ghost use Rattle.sound_run.specs.{Orders.HasOrder, Sound.Sound};

use crate::record_merge::{MergeFault, Merged};
use crate::run_merge::{Merging, merge_run};
use crate::run_shape::EntryShape;
use crate::shaped_run::ShapedRun;
use auditor::{Fault, RecordJudge, ReferenceObject};
use event_log::{Done, Entry, Event, OutOfMemory, SeqObject, Series};
use kernel_object::KernelObject;
use record_lines::RecordSink;
use records::{KernelForm, KernelHead, MOST_ENTRIES, StepTexts};
use sound_run::Place;
use std::alloc::Global;
use std::marker::Model;
use std::mem;

/// Judges a record while it is read, and keeps two bytes of each entry beside what the judge keeps. What it was handed over
/// contracts alone know.
#[derive(Drop)]
pub struct MergeJudge<J: ReferenceObject<KernelObject>> {
    alloc: Global,
    judge: RecordJudge<J>,
    transcripts: Vec<Series<EntryShape>>,
    entries: Vec<EntryShape>,
}

impl<J: ReferenceObject<KernelObject>> Model for MergeJudge<J> {
    ghost use Rattle.std.specs.Prelude.{◌≡◌, map};
    ghost use Rattle.records.specs.RecordStates.{KernelReceived};
    ghost use Rattle.log_merge.specs.Shapes.{shape_of};

    ghost Value = { KernelReceived };

    ghost view = { λ m. m.judge };

    ghost invariant = { λ m. (m.transcripts.items ≡ map (map shape_of) m.judge.transcripts) × (m.entries.items ≡ map shape_of m.judge.entries) };
}

impl<J: ReferenceObject<KernelObject>> MergeJudge<J> {
    /// Nothing was read yet. It takes no memory.
    pub fn new(alloc: Global) -> MergeJudge<J>
        ensures { result ≡ only_head no_head }
    {
        MergeJudge {
            alloc,
            judge: RecordJudge::new(alloc),
            transcripts: Vec::new(alloc),
            entries: Vec::new(alloc),
        }
    }

    /// One order over all entries of the record that was read, and its run. What `merge` says of a record is said of this one.
    pub fn into_merged(self) -> Result<(ShapedRun<KernelObject, StepTexts>, Merged), MergeFault>
        requires whole { IsWholeWith self.head self }
        requires fit { RecordFits (received_record self) }
        ensures unsound { (f : Fault) → result ≡ Err (MergeFault.Unsound f) →
            IsFirstFault ⟦<KernelObject as SeqObject>⟧ (opened_of (settings_in self.head)) (received_record self).run f }
        ensures reported { (f : Fault) → result ≡ Err (MergeFault.Unsound f) → IsNamed (settings_in self.head) f }
        ensures run { IfOk result (λ r. r.0 ≡ (received_record self).run) }
        ensures order { IfOk result (λ r. IsMerged ⟦<KernelObject as SeqObject>⟧ (opened_of (settings_in self.head)) (received_record self).run r.1.places) }
        ensures cycle { (c : List Place) → result ≡ Err (MergeFault.Cycle c) →
            HasCycle ⟦<KernelObject as SeqObject>⟧ (opened_of (settings_in self.head)) (received_record self).run c }
        ensures given { Sound ⟦<KernelObject as SeqObject>⟧ (opened_of (settings_in self.head)) (received_record self).run → HasOrder (received_record self).run →
            IfErr result (λ f. f ≡ MergeFault.OutOfMemory) }
        ensures few { (c : List Place) → result ≡ Err (MergeFault.Cycle c) → AllByRecursion (λ p. p.entry < MOST_ENTRIES) c }
    {
        let MergeJudge {
            alloc,
            judge,
            transcripts,
            entries: _,
        } = self;
        let run = match judge.into_run() {
            Err(fault) => return Err(MergeFault::Unsound(fault)),
            Ok(run) => ShapedRun::new(run, transcripts),
        };
        let merging = merge_run(alloc, &run)?;
        match merging {
            Merging::Order(places) => Ok((run, Merged { places })),
            Merging::Cycle(cycle) => Err(MergeFault::Cycle(cycle)),
        }
    }
}

impl<J: ReferenceObject<KernelObject>> RecordSink<KernelForm> for MergeJudge<J> {
    ghost received = { λ p. p };

    fn begin(&mut self, head: &KernelHead) -> Result<(), OutOfMemory> {
        self.judge.begin(head)
    }

    fn begin_log(&mut self, count: u64) -> Result<(), OutOfMemory> {
        self.judge.begin_log(count)
    }

    fn event(&mut self, event: &mut Event<KernelObject>, text: &[u8]) -> Result<(), OutOfMemory> {
        self.judge.event(event, text)
    }

    fn end_log(&mut self) -> Result<(), OutOfMemory> {
        self.judge.end_log()
    }

    fn begin_transcript(&mut self, count: u64) -> Result<(), OutOfMemory> {
        self.judge.begin_transcript(count)
    }

    #[inline(always)]
    fn recognises(&mut self, object: u8, looks: u64, tail: &[u8]) -> Result<bool, OutOfMemory> {
        self.entries.reserve(1)?;
        let recognised = self.judge.recognises(object, looks, tail)?;
        if recognised {
            self.entries.push_reserved(EntryShape {
                object,
                is_done: true,
            });
        }
        Ok(recognised)
    }

    fn entry(&mut self, entry: &mut Entry<KernelObject>) -> Result<(), OutOfMemory> {
        self.entries.reserve(1)?;
        let shape = EntryShape::of(entry);
        self.judge.entry(entry)?;
        self.entries.push_reserved(shape);
        Ok(())
    }

    fn end_transcript(&mut self) -> Result<(), OutOfMemory> {
        self.transcripts.reserve(1)?;
        self.judge.end_transcript()?;
        let entries = mem::replace(&mut self.entries, Vec::new(self.alloc));
        self.transcripts.push_reserved(Series::from_vec(entries));
        Ok(())
    }

    fn forget(&mut self) {
        *self = MergeJudge::new(self.alloc);
    }
}
