//! All steps of a schedule, a line each.

ghost use Rattle.std.specs.{Prelude.{◌≡◌, ◌<◌, length, map, string_bytes, if◌then◌else◌, IfOk}, List.AllByRecursion};
ghost use Rattle.scripts.specs.ScriptText.{ScriptsFit};
ghost use Rattle.word_rule.specs.{Machine.Orders.first_cell, Machine.World.left, StepKinds.ends_hold};
ghost use Rattle.steps.specs.Lines.{steps_text};

use crate::line::put_line;
use cpu_worker::new_machine;
use event_log::{OutOfMemory, Todo};
use scripts::{KernelObject, Schedule, Scripts, Settings};
use std::alloc::Global;
use word_rule::StepDone;

/// The entries that a CPU hasn't done.
type Left<'a> = &'a [Todo<KernelObject>];

/// Each script, of which nothing is done.
fn whole(alloc: Global, scripts: &Scripts) -> Result<Vec<Left<'_>>, OutOfMemory>
    ensures { IfOk result (λ left. map (λ l. l.now) left.items ≡ scripts.now) }
{
    let mut left = Vec::new(alloc);
    for script in scripts.lists() {
        left.push(script.as_slice())?;
    }
    Ok(left)
}

/// The object of the first of these entries.
fn object_of(todos: Left<'_>) -> Option<u8>
    ensures { result ≡ first_cell todos.now }
{
    match todos.first() {
        Some(todo) => Some(todo.object),
        None => None,
    }
}

/// What is left behind the step: all but the first, where it ends a hold.
fn left_after(todos: Left<'_>, done: StepDone) -> Left<'_>
    ensures { result.now ≡ (if ends_hold done then left todos.now else todos.now) }
{
    let ends = match done {
        StepDone::Serve | StepDone::Pass => true,
        StepDone::Empty(emptied) => emptied,
        _ => false,
    };
    match todos.split_first() {
        Some((_, rest)) if ends => rest,
        _ => todos,
    }
}

/// A line for each step of the schedule: what the step machine answers, and the words of the lock behind it.
pub fn lines(
    alloc: Global,
    settings: &Settings,
    scripts: &Scripts,
    schedule: &Schedule,
) -> Result<String, OutOfMemory>
    requires scripts { ScriptsFit settings.now.cpus (length settings.now.objects) scripts.now }
    requires schedule { AllByRecursion (λ cpu. cpu < settings.now.cpus) schedule.now }
    ensures { IfOk result (λ text. string_bytes text ≡ steps_text settings.now scripts.now schedule.now) }
{
    let mut machine = new_machine(alloc, settings, scripts.copy(alloc)?)?;
    let mut left = whole(alloc, scripts)?;
    let mut text = String::new(alloc);
    for (place, cpu) in schedule.steps().iter().enumerate() {
        let todos = left[*cpu as usize];
        let done = machine.step(*cpu);
        left[*cpu as usize] = left_after(todos, done);
        let object = object_of(todos);
        put_line(&mut text, settings, &machine, place + 1, *cpu, object, done)?;
    }
    Ok(text)
}
