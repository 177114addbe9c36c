//! What the program answers: the lines of the steps.

ghost use Rattle.std.specs.Prelude.{◌≡◌, string_bytes, IfErr, IfOk};
ghost use Rattle.event_log.specs.Stream.{counted};
ghost use Rattle.program.specs.Inputs.{says_read_failed};
ghost use Rattle.steps.specs.Answers.{AnswersTo, RefusesTo};

use crate::arguments::Arguments;
use crate::lines::lines;
use program::{Inputs, Refusal, read_schedule, read_scripts, read_settings};
use std::alloc::Global;

/// The lines of the steps that `sim` does of the same files. Each is judged before the next is opened: the settings, the
/// scripts, the schedule.
pub fn answer<I: Inputs>(
    alloc: Global,
    inputs: &mut I,
    arguments: Arguments<'_>,
) -> Result<String, Refusal>
    ensures answer { IfOk result (λ text. AnswersTo (I.held inputs.old) arguments.entry (string_bytes text)) }
    ensures refused { IfErr result (RefusesTo (I.held inputs.old) arguments.entry) }
    ensures failures { I.failed inputs.new ≡ counted (says_read_failed result) (I.failed inputs.old) }
{
    let settings = read_settings(alloc, inputs, arguments.settings)?;
    let scripts = read_scripts(alloc, inputs, Some(arguments.scripts), &settings)?;
    let schedule = read_schedule(alloc, inputs, arguments.schedule, &settings)?;
    let text = lines(alloc, &settings, &scripts, &schedule)?;
    Ok(text)
}
