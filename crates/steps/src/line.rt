//! A step as a line of words.

ghost use Rattle.std.specs.Prelude.{◌≡◌, ◌++◌, map, string_bytes, OnOk};
ghost use Rattle.word_rule.specs.{Labels.shown_by, Machine.Shown.{Represents, opened_by}, StepNames.outcome_of};
ghost use Rattle.records.specs.Runs.{opened_of};
ghost use Rattle.cpu_worker.specs.Simulation.{KernelWorld};
ghost use Rattle.steps.specs.Lines.{groups_text, line_alone, line_at, line_of, lock_text, outcome_text, spaced};

use event_log::SeqObject;
use scripts::{KernelObject, ObjectSettings, Settings};
use std::alloc::AllocError;
use word_rule::{Labels, Machine, StepDone, next_ticket, served_ticket};

/// Puts the numbers, each behind a space.
fn put_spaced(text: &mut String, numbers: &[u64]) -> Result<(), AllocError>
    ensures { OnOk result (string_bytes text.new ≡ string_bytes text.old ++ spaced numbers.now) }
{
    for number in numbers {
        write!(text, " {number}")?;
    }
    Ok(())
}

/// Puts groups of so many words, each behind its label.
fn put_groups(
    text: &mut String,
    labels: &[&'static str],
    cpus: usize,
    words: &[u64],
) -> Result<(), AllocError>
    ensures { OnOk result (string_bytes text.new ≡ string_bytes text.old ++ groups_text cpus (map (λ label. label.now) labels.now) words.now) }
{
    let Some((label, labels)) = labels.split_first() else {
        return Ok(());
    };
    let (group, words) = words.split_at(cpus.min(words.len()));
    write!(text, " {label}")?;
    put_spaced(text, group)?;
    put_groups(text, labels, cpus, words)
}

/// Puts the words of a lock for so many CPUs, each behind its label.
fn put_lock(text: &mut String, labels: Labels, cpus: usize, words: &[u64]) -> Result<(), AllocError>
    ensures { OnOk result (string_bytes text.new ≡ string_bytes text.old ++ lock_text (shown_by labels) cpus words.now) }
{
    let Some((first, others)) = words.split_first() else {
        return Ok(());
    };
    match labels {
        Labels::Halves(high, low) => {
            let (next, served) = (next_ticket(*first), served_ticket(*first));
            write!(text, " {high} {next} {low} {served}")
        }
        Labels::Groups(label, labels) => {
            write!(text, " {label} {first}")?;
            put_groups(text, labels, cpus, others)
        }
    }
}

/// Puts what came of a step, if it can come out in two ways.
fn put_outcome(text: &mut String, done: StepDone) -> Result<(), AllocError>
    ensures { OnOk result (string_bytes text.new ≡ string_bytes text.old ++ outcome_text (outcome_of done)) }
{
    let outcome = done.outcome();
    if outcome.is_empty() {
        return Ok(());
    }
    write!(text, " {outcome}")
}

/// Puts the line of a step at an object, whose lock then has these words.
fn put_at(
    text: &mut String,
    cpus: usize,
    number: usize,
    cpu: u8,
    done: StepDone,
    words: &[u64],
    object: &ObjectSettings,
) -> Result<(), AllocError>
    ensures { OnOk result (string_bytes text.new ≡ string_bytes text.old ++ line_at cpus number cpu done words.now object.now) }
{
    let (name, kind) = (object.name_str(), done.name());
    write!(text, "{number} cpu {cpu} {name} {kind}")?;
    put_outcome(text, done)?;
    text.push_str(" |")?;
    let labels = Labels::of(object.lock());
    put_lock(text, labels, cpus, words)?;
    text.push_str("\n")
}

/// Puts the line of a step at no object.
fn put_alone(text: &mut String, number: usize, cpu: u8, done: StepDone) -> Result<(), AllocError>
    ensures { OnOk result (string_bytes text.new ≡ string_bytes text.old ++ line_alone number cpu done) }
{
    let kind = done.name();
    writeln!(text, "{number} cpu {cpu} {kind}")
}

/// Puts the line of a CPU's step at that object, if it worked on one. The machine has done it.
pub fn put_line(
    text: &mut String,
    settings: &Settings,
    machine: &Machine<KernelObject>,
    number: usize,
    cpu: u8,
    object: Option<u8>,
    done: StepDone,
) -> Result<(), AllocError>
    requires { opened_by machine.now ≡ opened_of settings.now }
    ensures { (w : KernelWorld) → Represents ⟦<KernelObject as SeqObject>⟧ machine.now w →
        OnOk result (string_bytes text.new ≡ string_bytes text.old ++ line_of settings.now number cpu object done w) }
{
    let Some(x) = object else {
        return put_alone(text, number, cpu, done);
    };
    match settings.objects().get(x as usize) {
        Some(object) => {
            let words = machine.words(x);
            put_at(
                text,
                settings.cpus() as usize,
                number,
                cpu,
                done,
                words,
                object,
            )
        }
        None => put_alone(text, number, cpu, done),
    }
}
