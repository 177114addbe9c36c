//! The settings of `run` and `sim`, of which the first has built-in ones too.

ghost use Rattle.std.specs.Prelude.{◌≡◌, ℕ, List, Option, IfErr, IfOk};
ghost use Rattle.event_log.specs.Stream.{counted};
ghost use Rattle.program.specs.Inputs.{bytes_of, says_read_failed};
ghost use Rattle.mc2_command.specs.{Answers.ReadsSettings, Refused.RefusesSettingsOf};

use program::{Inputs, Refusal, read_settings};
use scripts::Settings;
use std::alloc::Global;

/// The settings that the file of that name spells, or the built-in ones.
pub fn settings_of<I: Inputs>(
    alloc: Global,
    inputs: &mut I,
    name: Option<&str>,
) -> Result<Settings, Refusal>
    ensures found { IfOk result (ReadsSettings (I.held inputs.old) (bytes_of name.entry)) }
    ensures refused { IfErr result (RefusesSettingsOf (I.held inputs.old) (bytes_of name.entry)) }
    ensures same { (other : Option (List ℕ)) → I.held inputs.new other ≡ I.held inputs.old other }
    ensures failures { I.failed inputs.new ≡ counted (says_read_failed result) (I.failed inputs.old) }
{
    match name {
        Some(file) => read_settings(alloc, inputs, file),
        None => Ok(Settings::built_in(alloc)?),
    }
}
