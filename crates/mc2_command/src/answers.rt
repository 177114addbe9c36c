//! What the program answers: the record of a run or of a simulation, a record that is read, and the report on it, its verdict
//! or its order.

ghost use Rattle.std.specs.{Prelude.{◌≡◌, ◌<◌, List, Some, IfOk, IfErr, string_bytes}, List.AllByRecursion};
ghost use Rattle.auditor.specs.{VerdictText.IsNamed, declared.fault.Fault.Fault};
ghost use Rattle.records.specs.declared.record.TheConstants.{MOST_ENTRIES};
ghost use Rattle.sound_run.specs.declared.place.Place.{Place};
ghost use Rattle.mc2_command.specs.{Answers.{AnswersRun, AnswersSim, AnswersReport, AnswersAudit, AnswersMerge}, Faults.reports_read_failed, Refused.{IsCommon, IsNoOrder, RefusesMerge, RefusesRun, RefusesSim}};
ghost use Rattle.event_log.specs.Stream.{counted};
ghost use Rattle.program.specs.{Inputs.{bytes_of, says_read_failed}, Texts.{RefusesRecord, SpellsRecordOf}};

use crate::fault::CommandFault;
use crate::input::settings_of;
use auditor::{RecordJudge, ReferenceKernelObject, Verdict, fault_text, verdict_line};
use cpu_worker::{AlwaysAllowed, OpenGate, report, run_owned, simulate_owned};
use event_log::OutOfMemory;
use log_merge::{MergeFault, MergeJudge, OrderedRecord, cycle_text};
use program::{
    Inputs, Refusal, read_record, read_record_into, read_schedule, read_scripts, read_settings,
};
use scripts::{Record, Settings};
use std::alloc::Global;
use std::sync::Wait;
use std::thread::Threads;

/// The record of a run of the scripts of that name, or of standard input, on the objects of the settings of that name, or on
/// the built-in ones. It may wait.
pub fn run_answer<R: Threads + Wait + Sync, I: Inputs>(
    rt: &R,
    alloc: Global,
    inputs: &mut I,
    settings: Option<&str>,
    scripts: Option<&str>,
) -> Result<Record, CommandFault>
    ensures answer { IfOk result (AnswersRun (I.held inputs.old) (bytes_of settings.entry) (bytes_of scripts.entry)) }
    ensures refused { IfErr result (RefusesRun (I.held inputs.old) (bytes_of settings.entry) (bytes_of scripts.entry)) }
    ensures failures { I.failed inputs.new ≡ counted (reports_read_failed result) (I.failed inputs.old) }
{
    let settings = settings_of(alloc, inputs, settings)?;
    let scripts = read_scripts(alloc, inputs, scripts, &settings)?;
    let record = run_owned(rt, alloc, settings, scripts, &OpenGate, &AlwaysAllowed)?;
    Ok(record)
}

/// The record of the simulation of the scripts and the schedule of those names, on the objects of the settings. Each is
/// judged before the next is opened: the settings, the scripts, the schedule.
pub fn sim_answer<I: Inputs>(
    alloc: Global,
    inputs: &mut I,
    settings: &str,
    scripts: &str,
    schedule: &str,
) -> Result<Record, CommandFault>
    ensures answer { IfOk result (AnswersSim (I.held inputs.old) settings.now scripts.now schedule.now) }
    ensures refused { IfErr result (RefusesSim (I.held inputs.old) settings.now scripts.now schedule.now) }
    ensures failures { I.failed inputs.new ≡ counted (reports_read_failed result) (I.failed inputs.old) }
{
    let settings = read_settings(alloc, inputs, settings)?;
    let scripts = read_scripts(alloc, inputs, Some(scripts), &settings)?;
    let schedule = read_schedule(alloc, inputs, schedule, &settings)?;
    match simulate_owned(alloc, settings, scripts, &schedule) {
        Ok(record) => Ok(record),
        Err(OutOfMemory) => Err(CommandFault::Common(Refusal::OutOfMemory)),
    }
}

/// The report on the record of that name, or on that of standard input.
pub fn report_answer<I: Inputs>(
    alloc: Global,
    inputs: &mut I,
    record: Option<&str>,
) -> Result<String, Refusal>
    ensures answer { IfOk result (λ text. AnswersReport (I.held inputs.old) (bytes_of «record».entry) (string_bytes text)) }
    ensures refused { IfErr result (RefusesRecord (I.held inputs.old) (bytes_of «record».entry)) }
    ensures failures { I.failed inputs.new ≡ counted (says_read_failed result) (I.failed inputs.old) }
{
    let record = read_record(alloc, inputs, record)?;
    let text = report(alloc, &record)?;
    Ok(text)
}

/// The record of that name, or that of standard input, in whichever form its text is.
pub fn upgrade_answer<I: Inputs>(
    alloc: Global,
    inputs: &mut I,
    record: Option<&str>,
) -> Result<Record, Refusal>
    ensures answer { IfOk result (SpellsRecordOf (I.held inputs.old) (bytes_of «record».entry)) }
    ensures refused { IfErr result (RefusesRecord (I.held inputs.old) (bytes_of «record».entry)) }
    ensures failures { I.failed inputs.new ≡ counted (says_read_failed result) (I.failed inputs.old) }
{
    read_record(alloc, inputs, record)
}

/// The verdict on the record of that name, or on that of standard input, and its line.
pub fn audit_answer<I: Inputs>(
    alloc: Global,
    inputs: &mut I,
    record: Option<&str>,
) -> Result<(Verdict, String), Refusal>
    ensures answer { IfOk result (λ a. AnswersAudit (I.held inputs.old) (bytes_of «record».entry) a.0 (string_bytes a.1)) }
    ensures refused { IfErr result (RefusesRecord (I.held inputs.old) (bytes_of «record».entry)) }
    ensures failures { I.failed inputs.new ≡ counted (says_read_failed result) (I.failed inputs.old) }
{
    let judge = RecordJudge::<ReferenceKernelObject>::new(alloc);
    let read = read_record_into(alloc, inputs, record, judge)?;
    let verdict = read.1.verdict();
    let line = verdict_line(alloc, &read.0, verdict)?;
    Ok((verdict, line))
}

/// Why a record has no order, as a refusal.
fn no_order(alloc: Global, settings: &Settings, cause: MergeFault) -> CommandFault
    requires named { (f : Fault) → cause ≡ MergeFault.Unsound f → IsNamed settings.now f }
    requires few { (c : List Place) → cause ≡ MergeFault.Cycle c → AllByRecursion (λ p. p.entry < MOST_ENTRIES) c }
    ensures { IsNoOrder settings.now cause result }
{
    match cause {
        MergeFault::OutOfMemory => CommandFault::Common(Refusal::OutOfMemory),
        MergeFault::Unsound(fault) => match fault_text(alloc, settings, &fault) {
            Ok(text) => CommandFault::Unsound(text),
            Err(OutOfMemory) => CommandFault::Common(Refusal::OutOfMemory),
        },
        MergeFault::Cycle(cycle) => match cycle_text(alloc, cycle.as_slice()) {
            Ok(text) => CommandFault::Cycle(text),
            Err(OutOfMemory) => CommandFault::Common(Refusal::OutOfMemory),
        },
    }
}

/// The record of that name, or that of standard input, in the one order of its entries.
pub fn merge_answer<I: Inputs>(
    alloc: Global,
    inputs: &mut I,
    record: Option<&str>,
) -> Result<OrderedRecord, CommandFault>
    ensures answer { IfOk result (λ a. AnswersMerge (I.held inputs.old) (bytes_of «record».entry) a.of a.places) }
    ensures refused { IfErr result (RefusesMerge (I.held inputs.old) (bytes_of «record».entry)) }
    ensures failures { I.failed inputs.new ≡ counted (reports_read_failed result) (I.failed inputs.old) }
{
    let judge = MergeJudge::<ReferenceKernelObject>::new(alloc);
    let (settings, judge) = read_record_into(alloc, inputs, record, judge)?;
    match judge.into_merged() {
        Ok((run, merged)) => Ok(OrderedRecord::new(settings, run, merged)),
        Err(cause) => Err(no_order(alloc, &settings, cause)),
    }
}
