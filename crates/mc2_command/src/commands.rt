//! A whole command: the words after the program's name in, a status out.

ghost use Rattle.std.specs.{Prelude.{◌≡◌, ◌⊎◌, ◌≤◌, true, OnOk, OnErr, IfOk, IfErr}, Io.KnownBytes.Appends};
ghost use Rattle.event_log.specs.Stream.{counted};
ghost use Rattle.mc2_command.specs.{Answers.{Answers, AnswersAny, AnswersFor, AnswersWith, Finds, FindsNoOrder}, Printed.{printed, status_with}, Faults.{status_of, reports_read_failed}, Refused.{Refuses, RefusesTo, RefusesWith}};
ghost use Rattle.program.specs.Printing.{Prints, PrintsSome};
ghost use Rattle.record_lines.specs.Output.{AppendsBeginning};

use crate::answers::{
    audit_answer, merge_answer, report_answer, run_answer, sim_answer, upgrade_answer,
};
use crate::arguments::{Arguments, read_words};
use crate::fault::CommandFault;
use auditor::Verdict;
use event_log::Sink;
use log_merge::OrderedRecord;
use program::{Inputs, Refusal, write_line};
use scripts::{Record, WriteFailed, write_record, write_text};
use std::alloc::Global;
use std::sync::Wait;
use std::thread::Threads;

/// Does what the words ask for, and answers the status. A refusal is one line on `faults`, and a failed write there
/// changes no status. Nothing goes to `out` before the whole answer is known. It may wait.
pub fn command<R: Threads + Wait + Sync, I: Inputs, W: Sink, F: Sink>(
    rt: &R,
    alloc: Global,
    words: &[String],
    inputs: &mut I,
    out: &mut W,
    faults: &mut F,
) -> u8
    ensures done { result ≡ 0 → Prints (Answers (I.held inputs.old) words.now) (W.contents out.old) (W.contents out.new) }
    ensures none_failed { result ≤ 1 → W.failed out.new ≡ W.failed out.old }
    ensures no_line { result ≡ 0 → faults.new ≡ faults.old }
    ensures found { result ≡ 1 → (Prints (Finds (I.held inputs.old) words.now) (W.contents out.old) (W.contents out.new) × (faults.new ≡ faults.old))
        ⊎ ((out.new ≡ out.old) × FindsNoOrder (I.held inputs.old) words.now) }
    ensures nothing_written { result ≡ 2 → out.new ≡ out.old }
    ensures refused { result ≡ 2 → RefusesWith (I.held inputs.old) words.now 2 }
    ensures failed { result ≡ 3 → ((out.new ≡ out.old) × RefusesWith (I.held inputs.old) words.now 3)
        ⊎ (PrintsSome (AnswersAny (I.held inputs.old) words.now) (W.contents out.old) (W.contents out.new) × (W.failed out.new ≡ counted true (W.failed out.old))) }
    ensures reads { result ≤ 2 → I.failed inputs.new ≡ I.failed inputs.old }
    ensures statuses { result ≤ 3 }
{
    match perform(rt, alloc, words, inputs, out) {
        Ok(status) => status,
        Err(fault) => refuse(&fault, faults),
    }
}

/// What the words ask for.
#[derive(Drop)]
enum Answer {
    Record(Record),
    Report(String),
    /// A verdict with its line.
    Verdict(Verdict, String),
    /// A record in the one order of its entries.
    Merged(OrderedRecord),
}

impl Answer {
    /// The status that the program ends with, once it is written.
    fn status(&self) -> u8
        ensures { result ≡ status_with self.now }
    {
        match self {
            Answer::Verdict(Verdict::Unsound(_), _) => 1,
            _ => 0,
        }
    }
}

/// What those arguments ask for, once it is known.
fn answer_to<R: Threads + Wait + Sync, I: Inputs>(
    rt: &R,
    alloc: Global,
    arguments: Arguments<'_>,
    inputs: &mut I,
) -> Result<Answer, CommandFault>
    ensures answer { IfOk result (λ a. AnswersFor (I.held inputs.old) arguments.entry (status_with a) (printed a)) }
    ensures refused { IfErr result (RefusesTo (I.held inputs.old) arguments.entry) }
    ensures failures { I.failed inputs.new ≡ counted (reports_read_failed result) (I.failed inputs.old) }
{
    match arguments {
        Arguments::Run { settings, scripts } => {
            let record = run_answer(rt, alloc, inputs, settings, scripts)?;
            Ok(Answer::Record(record))
        }
        Arguments::Sim {
            settings,
            scripts,
            schedule,
        } => {
            let record = sim_answer(alloc, inputs, settings, scripts, schedule)?;
            Ok(Answer::Record(record))
        }
        Arguments::Report { record } => {
            let text = report_answer(alloc, inputs, record)?;
            Ok(Answer::Report(text))
        }
        Arguments::Audit { record } => {
            let audited = audit_answer(alloc, inputs, record)?;
            Ok(Answer::Verdict(audited.0, audited.1))
        }
        Arguments::Merge { record } => {
            let merged = merge_answer(alloc, inputs, record)?;
            Ok(Answer::Merged(merged))
        }
        Arguments::Upgrade { record } => {
            let record = upgrade_answer(alloc, inputs, record)?;
            Ok(Answer::Record(record))
        }
    }
}

/// What the words ask for, once it is known.
fn answered<R: Threads + Wait + Sync, I: Inputs>(
    rt: &R,
    alloc: Global,
    words: &[String],
    inputs: &mut I,
) -> Result<Answer, CommandFault>
    ensures answer { IfOk result (λ a. AnswersWith (I.held inputs.old) words.now (status_with a) (printed a)) }
    ensures refused { IfErr result (Refuses (I.held inputs.old) words.now) }
    ensures failures { I.failed inputs.new ≡ counted (reports_read_failed result) (I.failed inputs.old) }
{
    let arguments = read_words(alloc, words)?;
    answer_to(rt, alloc, arguments, inputs)
}

/// Writes the text of the answer.
fn write_answer<W: Sink>(answer: &Answer, out: &mut W) -> Result<(), WriteFailed>
    ensures ok { OnOk result (Appends (W.contents out.old) (W.contents out.new) (printed answer.now)) }
    ensures none_failed { OnOk result (W.failed out.new ≡ W.failed out.old) }
    ensures err { OnErr result (AppendsBeginning (W.contents out.old) (W.contents out.new) (printed answer.now)) }
    ensures one_failed { OnErr result (W.failed out.new ≡ counted true (W.failed out.old)) }
{
    match answer {
        Answer::Record(record) => write_record(record, out),
        Answer::Report(text) => write_text(text.as_bytes(), out),
        Answer::Verdict(_, line) => write_text(line.as_bytes(), out),
        Answer::Merged(ordered) => ordered.write(out),
    }
}

/// Does what the words ask for, and answers the status.
fn perform<R: Threads + Wait + Sync, I: Inputs, W: Sink>(
    rt: &R,
    alloc: Global,
    words: &[String],
    inputs: &mut I,
    out: &mut W,
) -> Result<u8, CommandFault>
    ensures done { IfOk result (λ status. Prints (AnswersWith (I.held inputs.old) words.now status) (W.contents out.old) (W.contents out.new)) }
    ensures none_failed { OnOk result (W.failed out.new ≡ W.failed out.old) }
    ensures failures { I.failed inputs.new ≡ counted (reports_read_failed result) (I.failed inputs.old) }
    ensures refused { IfErr result (λ f. (Refuses (I.held inputs.old) words.now f × (out.new ≡ out.old))
        ⊎ ((f ≡ CommandFault.Common Refusal.WriteFailed) × PrintsSome (AnswersAny (I.held inputs.old) words.now) (W.contents out.old) (W.contents out.new) × (W.failed out.new ≡ counted true (W.failed out.old)))) }
{
    let answer = answered(rt, alloc, words, inputs)?;
    match write_answer(&answer, out) {
        Ok(()) => Ok(answer.status()),
        Err(WriteFailed) => Err(CommandFault::Common(Refusal::WriteFailed)),
    }
}

/// Writes the line of the refusal, and answers its status.
pub fn refuse<F: Sink>(fault: &CommandFault, faults: &mut F) -> u8
    ensures { result ≡ status_of fault.now }
{
    write_line(fault, faults);
    fault.status()
}
