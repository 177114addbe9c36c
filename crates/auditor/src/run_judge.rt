//! A judge that receives the events and entries of a run one after the other.

ghost use Rattle.event_log.specs.declared.event.Step.{Step};
ghost use Rattle.std.specs.Prelude.{◌≡◌, ◌↔◌, ◌<◌, false, [], List, Some, length, IsTrue, IfOk, IfErr, OnOk, OnErr};
ghost use Rattle.auditor.specs.{ByModels.SoundBy, Faults.{HasSteps, IsFirstFaultBy}, ReceivedRun.{ReceivedRun, nothing, log_begun, event_received, log_ended, transcript_begun, entry_received, done_entry, transcript_ended, IsStepsOf, run_of}, Passes.IsRunOver, SoFar.{IsBeforeLog, IsInLog, HasLogs, IsInTranscripts}, StepModels.model_by, Terms.terms_at};

use crate::judge_state::JudgeState;
use crate::received_run::{ReceivedRun, of_one};
use crate::{Fault, JudgedRun, OpenedObject, StepJudge, StepRows, Verdict};
use event_log::{Entry, Event, OutOfMemory, SeqObject};
use std::alloc::Global;
use std::marker::Model;

/// Judges a run while it is read: all logs, then all transcripts. Of an event it keeps its steps, packed, and of an entry
/// nothing. What it has received is known to contracts alone.
#[derive(Drop)]
pub struct RunJudge<O: SeqObject, J: StepJudge<O>, R: StepRows<O>> {
    alloc: Global,
    received: ReceivedRun<O, J>,
    state: JudgeState<O, J, R>,
}

impl<O: SeqObject, J: StepJudge<O>, R: StepRows<O>> Model for RunJudge<O, J, R> {
    ghost use Rattle.std.specs.Prelude.{vec_capacity};
    ghost use Rattle.auditor.specs.{ReceivedRun.ReceivedRun, JudgeStates.IsJudgeState, StepModels.model_by};

    ghost Value = { ReceivedRun J.State O O.Params O.Call O.Reply };

    ghost view = { λ j. j.received };

    ghost invariant = { λ j. IsJudgeState (model_by O.SeqObject J.right J.behind) J.shows j.received j.state.fault j.state.replay j.state.logs.items (vec_capacity j.state.logs) };
}

impl<O: SeqObject, J: StepJudge<O>, R: StepRows<O>> RunJudge<O, J, R> {
    /// Before anything is received of a run of no CPUs and no objects. It takes no memory.
    pub fn empty(alloc: Global) -> RunJudge<O, J, R>
        ensures { result ≡ nothing 0 0 }
    {
        RunJudge {
            alloc,
            received: ReceivedRun::new(0, 0),
            state: JudgeState::empty(alloc),
        }
    }

    /// Before anything is received of a run of so many CPUs and objects.
    pub fn new(alloc: Global, cpus: usize, objects: usize) -> Result<RunJudge<O, J, R>, OutOfMemory>
        ensures { IfOk result (λ j. j ≡ nothing cpus objects) }
    {
        Ok(RunJudge {
            alloc,
            received: ReceivedRun::new(cpus, objects),
            state: JudgeState::new(alloc, objects)?,
        })
    }

    /// The next object's log begins, which will have so many events, and whose steps that judge judges. An `Err` changes nothing.
    pub fn begin_log(
        &mut self,
        opened: &OpenedObject<O>,
        judge: J,
        count: usize,
    ) -> Result<(), OutOfMemory>
        requires { IsBeforeLog self.old }
        ensures ok { OnOk result (self.new ≡ log_begun self.old (terms_at opened.now (J.shows judge)) count) }
        ensures err { OnErr result (self.new ≡ self.old) }
    {
        let first = of_one(&judge);
        self.state
            .begin_log(self.alloc, &self.received, opened, judge, count)?;
        self.received.receive_log(opened, &first, count);
        Ok(())
    }

    /// The log's next event, whose steps the text spells. An `Err` changes nothing.
    pub fn event(&mut self, event: &Event<O>, text: &[u8]) -> Result<(), OutOfMemory>
        requires log { IsInLog self.old }
        requires count { length self.old.events < self.old.count }
        requires cpu { event.now.cpu < self.old.cpus }
        requires steps { HasSteps event.now }
        requires text { R.spells text.now event.now.steps.list.items }
        ensures ok { OnOk result (self.new ≡ event_received self.old event.now) }
        ensures err { OnErr result (self.new ≡ self.old) }
    {
        self.state.event(&self.received, event, text)?;
        self.received.receive_event(event);
        Ok(())
    }

    /// The log is whole. An `Err` changes nothing.
    pub fn end_log(&mut self) -> Result<(), OutOfMemory>
        requires log { IsInLog self.old }
        requires objects { length self.old.logs < self.old.objects }
        requires count { length self.old.events ≡ self.old.count }
        requires transcripts { self.old.transcripts ≡ [] }
        requires entries { self.old.entries ≡ [] }
        ensures ok { OnOk result (self.new ≡ log_ended self.old) }
        ensures err { OnErr result (self.new ≡ self.old) }
    {
        self.state.end_log(self.alloc, &self.received)?;
        self.received.receive_log_end();
        Ok(())
    }

    /// The next CPU's transcript begins, which will have so many entries.
    pub fn begin_transcript(&mut self, count: usize)
        requires { HasLogs self.old }
        ensures { self.new ≡ transcript_begun self.old count }
    {
        self.received.receive_transcript(count);
    }

    /// Whether the text behind the looks of the transcript's next entry spells its CPU's next event on the object, and the event
    /// is what was asked. Then it is received.
    #[inline(always)]
    pub fn recognises(&mut self, object: u8, looks: u64, tail: &[u8]) -> bool
        requires transcripts { IsInTranscripts self.old }
        requires count { length self.old.entries < self.old.count }
        requires object { object < self.old.objects }
        ensures known { IsTrue result → (asked : List O.Call) × (steps : List (Step O O.Params O.Call O.Reply)) × R.tail_spells tail.now asked steps × (self.new ≡ entry_received self.old (done_entry object looks asked steps)) × IsStepsOf self.old.logs object steps }
        ensures unknown { result ≡ false → self.new ≡ self.old }
    {
        match self.state.recognises(&self.received, object, tail) {
            Some(steps) => {
                self.received
                    .receive_recognised(object, looks, tail, &steps);
                true
            }
            None => false,
        }
    }

    /// The transcript's next entry.
    pub fn entry(&mut self, entry: &Entry<O>)
        requires transcripts { IsInTranscripts self.old }
        requires count { length self.old.entries < self.old.count }
        requires object { entry.now.object < self.old.objects }
        ensures { self.new ≡ entry_received self.old entry.now }
    {
        self.state.entry(&self.received, entry);
        self.received.receive_entry(entry);
    }

    /// The transcript is whole.
    pub fn end_transcript(&mut self)
        requires { IsInTranscripts self.old }
        ensures { self.new ≡ transcript_ended self.old }
    {
        self.state.end_transcript(&self.received);
        self.received.receive_transcript_end();
    }

    /// Whether the run that was received is sound, or else its first fault.
    pub fn verdict(&self) -> Verdict
        requires logs { HasLogs self.now }
        requires transcripts { length self.now.transcripts ≡ self.now.cpus }
        requires entries { self.now.entries ≡ [] }
        requires run { IsRunOver self.now.opened (run_of self.now) }
        ensures sound { (result ≡ Verdict.Sound) ↔ SoundBy (model_by O.SeqObject J.right J.behind) self.now.opened (run_of self.now) }
        ensures fault { (f : Fault) → (result ≡ Verdict.Unsound f) ↔ IsFirstFaultBy (model_by O.SeqObject J.right J.behind) self.now.opened (run_of self.now) f }
    {
        self.state.verdict(&self.received)
    }

    /// The run that was received, if it is sound, or else its first fault. It takes no memory.
    pub fn into_run(self) -> Result<JudgedRun<O, R>, Fault>
        requires logs { HasLogs self }
        requires transcripts { length self.transcripts ≡ self.cpus }
        requires entries { self.entries ≡ [] }
        requires run { IsRunOver self.opened (run_of self) }
        ensures run { IfOk result (λ r. r ≡ run_of self) }
        ensures sound { IfOk result (λ r. SoundBy (model_by O.SeqObject J.right J.behind) self.opened (run_of self)) }
        ensures fault { IfErr result (IsFirstFaultBy (model_by O.SeqObject J.right J.behind) self.opened (run_of self)) }
    {
        let RunJudge {
            alloc: _,
            received,
            state,
        } = self;
        state.into_run(received)
    }
}
