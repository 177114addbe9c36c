//! A run of a counter, judged by the auditor: any object of one's own is, once there is a second way to answer its calls.

ghost use Rattle.std.specs.Prelude.{◌≡◌, ◌≢◌, ◌↔◌, IfOk};
ghost use Rattle.counter.specs.JudgedRun.{one_entry, read_after_one};

use crate::{BoundedCounter, CounterCall, CounterReply};
use arrayvec::ArrayVec;
use auditor::{Fault, OpenedObject, ReferenceObject, Verdict, judge_run};
use event_log::{Done, Entry, Event, OutOfMemory, Run, Series, Steps};
use std::alloc::Global;
use std::marker::Model;

/// How many a counter has counted, and how many it may still count.
#[derive(Drop)]
pub struct ReferenceCounter {
    value: u32,
    left: u32,
}

impl Model for ReferenceCounter {
    ghost use Rattle.std.specs.Prelude.{◌+◌, ◌<◌, ◌^◌};
    ghost use Rattle.counter.specs.State.{CounterState};

    ghost Value = { CounterState };

    ghost view = { λ c. record { most = c.value + c.left; value = c.value } };

    ghost invariant = { λ c. c.value + c.left < 2 ^ 32 };
}

impl ReferenceObject<BoundedCounter> for ReferenceCounter {
    ghost shows = { λ c. c };

    fn open(_alloc: Global, params: &u32) -> Result<ReferenceCounter, OutOfMemory> {
        Ok(ReferenceCounter {
            value: 0,
            left: *params,
        })
    }

    fn apply(&mut self, call: &CounterCall) -> CounterReply {
        match *call {
            CounterCall::Read => CounterReply::Value(self.value),
            CounterCall::Increase if self.left == 0 => CounterReply::Full,
            CounterCall::Increase => {
                self.left -= 1;
                self.value += 1;
                CounterReply::Ok
            }
        }
    }
}

/// An entry of that one call, with that reply.
fn entry_of(call: CounterCall, reply: CounterReply) -> Entry<BoundedCounter>
    ensures { result ≡ one_entry call reply }
{
    let mut asked = ArrayVec::new();
    asked.push(call);
    Entry {
        object: 0,
        asked,
        done: Done::Steps(Steps::one(call, reply)),
        looks: 1,
    }
}

/// A run of one CPU, which counts once, and then reads that value.
fn run_of_one(alloc: Global, read: u32) -> Result<Run<BoundedCounter>, OutOfMemory>
    ensures { IfOk result (λ run. run ≡ read_after_one read) }
{
    let mut log = Vec::with_capacity(alloc, 2)?;
    let mut transcript = Vec::with_capacity(alloc, 2)?;
    log.push_reserved(Event {
        cpu: 0,
        steps: Steps::one(CounterCall::Increase, CounterReply::Ok),
    });
    transcript.push_reserved(entry_of(CounterCall::Increase, CounterReply::Ok));
    log.push_reserved(Event {
        cpu: 0,
        steps: Steps::one(CounterCall::Read, CounterReply::Value(read)),
    });
    transcript.push_reserved(entry_of(CounterCall::Read, CounterReply::Value(read)));
    let mut logs = Vec::with_capacity(alloc, 1)?;
    logs.push_reserved(Series::from_vec(log));
    let mut transcripts = Vec::with_capacity(alloc, 1)?;
    transcripts.push_reserved(Series::from_vec(transcript));
    Ok(Run {
        logs: Series::from_vec(logs),
        transcripts: Series::from_vec(transcripts),
    })
}

/// The verdict on that run of a counter for 3: if another value is read, the reply of the second event is wrong.
pub fn verdict_on(alloc: Global, read: u32) -> Result<Verdict, OutOfMemory>
    ensures sound { IfOk result (λ v. (v ≡ Verdict.Sound) ↔ (read ≡ 1)) }
    ensures fault { IfOk result (λ v. (v ≡ Verdict.Unsound (Fault.WrongStep 0 1 0)) ↔ (read ≢ 1)) }
{
    let run = run_of_one(alloc, read)?;
    let opened = [OpenedObject {
        params: 3,
        limit: 100,
    }];
    judge_run::<BoundedCounter, ReferenceCounter>(alloc, &opened, &run)
}
