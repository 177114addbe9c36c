//! Whole runs over any object.

ghost use Rattle.std.specs.Prelude.{◌≡◌, ◌<◌, ◌↔◌, ℕ, true, [], ◌∷◌, ◌++◌, length, Some, slice_get, IfOk, OnOk};
ghost use Rattle.event_log.specs.{declared.event.Event.{Event as Shown}, declared.entry.Entry.{Entry as ShownEntry}};
ghost use Rattle.sound_run.specs.Sound.{Sound};
ghost use Rattle.auditor.specs.{Faults.{HasSteps, IsFirstFault}, ReceivedRun.{nothing, event_received, log_received, logs_received, transcript_received, run_received}, Passes.IsRunOf, SoFar.{IsBeforeLog, IsInLog, IsInTranscripts}, Terms.{terms_at, start, starts}, Transcripts.{judged_by, opened_by}};

use crate::packed_steps::PackedSteps;
use crate::run_judge::RunJudge;
use crate::{Fault, OpenedObject, ReferenceObject, Replayed, StepJudge, Verdict};
use event_log::{Entry, Event, OutOfMemory, Run, SeqObject};
use std::alloc::Global;

/// Feeds an event.
fn feed_event<O: SeqObject, J: StepJudge<O>>(
    judged: &mut RunJudge<O, J, PackedSteps<O>>,
    event: &Event<O>,
) -> Result<(), OutOfMemory>
    requires log { IsInLog judged.old }
    requires count { length judged.old.events < judged.old.count }
    requires cpu { event.now.cpu < judged.old.cpus }
    requires steps { HasSteps event.now }
    ensures { OnOk result (judged.new ≡ event_received judged.old event.now) }
{
    judged.event(event, &[])
}

/// Feeds a log, whose steps that judge judges.
fn feed_log<O: SeqObject, J: StepJudge<O>>(
    judged: &mut RunJudge<O, J, PackedSteps<O>>,
    opened: &OpenedObject<O>,
    judge: J,
    log: &[Event<O>],
) -> Result<(), OutOfMemory>
    requires before { IsBeforeLog judged.old }
    requires events { (k : ℕ) (e : Shown O O.Params O.Call O.Reply) → slice_get log.now k ≡ Some e → (e.cpu < judged.old.cpus) × HasSteps e }
    ensures { OnOk result (judged.new ≡ log_received judged.old (terms_at opened.now (J.shows judge)) log.now) }
{
    judged.begin_log(opened, judge, log.len())?;
    for event in log {
        feed_event(judged, event)?;
    }
    judged.end_log()?;
    Ok(())
}

/// Feeds the log of an object, whose calls are answered again.
fn feed_object<O: SeqObject, J: ReferenceObject<O>>(
    alloc: Global,
    judged: &mut RunJudge<O, Replayed<J>, PackedSteps<O>>,
    opened: &OpenedObject<O>,
    log: &[Event<O>],
) -> Result<(), OutOfMemory>
    requires able { O.in_range opened.now.params ≡ true }
    requires before { IsBeforeLog judged.old }
    requires events { (k : ℕ) (e : Shown O O.Params O.Call O.Reply) → slice_get log.now k ≡ Some e → (e.cpu < judged.old.cpus) × HasSteps e }
    ensures { OnOk result (judged.new ≡ log_received judged.old (start O.SeqObject (judged_by opened.now)) log.now) }
{
    let object = J::open(alloc, &opened.params)?;
    feed_log(judged, opened, Replayed { object }, log)
}

/// Feeds the logs, each whole before the next.
fn feed_logs<O: SeqObject, J: ReferenceObject<O>>(
    alloc: Global,
    judged: &mut RunJudge<O, Replayed<J>, PackedSteps<O>>,
    opened_objects: &[OpenedObject<O>],
    run: &Run<O>,
) -> Result<(), OutOfMemory>
    requires run { IsRunOf O.SeqObject opened_objects.now run.now }
    requires nothing { judged.old ≡ nothing (length run.now.transcripts) (length run.now.logs) }
    ensures { OnOk result (judged.new ≡ logs_received (starts O.SeqObject (opened_by opened_objects.now)) run.now) }
{
    let logs = run.logs.as_slice();
    for (object, log) in logs.iter().enumerate() {
        feed_object(alloc, judged, &opened_objects[object], log.as_slice())?;
    }
    Ok(())
}

/// Feeds a transcript.
fn feed_transcript<O: SeqObject, J: ReferenceObject<O>>(
    judged: &mut RunJudge<O, Replayed<J>, PackedSteps<O>>,
    transcript: &[Entry<O>],
)
    requires transcripts { IsInTranscripts judged.old }
    requires entries { judged.old.entries ≡ [] }
    requires objects { (n : ℕ) (e : ShownEntry O O.Params O.Call O.Reply) → slice_get transcript.now n ≡ Some e → e.object < judged.old.objects }
    ensures { judged.new ≡ transcript_received judged.old transcript.now }
{
    judged.begin_transcript(transcript.len());
    for entry in transcript {
        judged.entry(entry);
    }
    judged.end_transcript();
}

/// Feeds the transcripts, each whole before the next.
fn feed_transcripts<O: SeqObject, J: ReferenceObject<O>>(
    judged: &mut RunJudge<O, Replayed<J>, PackedSteps<O>>,
    opened_objects: &[OpenedObject<O>],
    run: &Run<O>,
)
    requires run { IsRunOf O.SeqObject opened_objects.now run.now }
    requires logs { judged.old ≡ logs_received (starts O.SeqObject (opened_by opened_objects.now)) run.now }
    ensures { judged.new ≡ run_received (starts O.SeqObject (opened_by opened_objects.now)) run.now }
{
    let transcripts = run.transcripts.as_slice();
    for entries in transcripts {
        feed_transcript(judged, entries.as_slice());
    }
}

/// Whether the run is sound, or else its first fault. Each step is done once, and each entry is compared with one event.
pub fn judge_run<O: SeqObject, J: ReferenceObject<O>>(
    alloc: Global,
    opened_objects: &[OpenedObject<O>],
    run: &Run<O>,
) -> Result<Verdict, OutOfMemory>
    requires { IsRunOf O.SeqObject opened_objects.now run.now }
    ensures sound { IfOk result (λ v. (v ≡ Verdict.Sound) ↔ Sound O.SeqObject (opened_by opened_objects.now) run.now) }
    ensures fault { (f : Fault) → IfOk result (λ v. (v ≡ Verdict.Unsound f) ↔ IsFirstFault O.SeqObject (opened_by opened_objects.now) run.now f) }
{
    let cpus = run.transcripts.as_slice().len();
    let objects = run.logs.as_slice().len();
    let mut judged = RunJudge::<O, Replayed<J>, PackedSteps<O>>::new(alloc, cpus, objects)?;
    feed_logs(alloc, &mut judged, opened_objects, run)?;
    feed_transcripts(&mut judged, opened_objects, run);
    Ok(judged.verdict())
}
