//! What a command reads of its inputs: settings, scripts, a schedule and a record.

ghost use Rattle.std.specs.Prelude.{◌≡◌, ℕ, List, Some, None, length, IfErr, IfOk};
ghost use Rattle.event_log.specs.Stream.{counted};
ghost use Rattle.program.specs.{Inputs.{bytes_of, says_read_failed}, Texts.{RefusesRecord, RefusesSchedule, RefusesScripts, RefusesSettings, SpellsRecordOf, SpellsScheduleOf, SpellsScriptsOf, SpellsSettingsOf}};
ghost use Rattle.record_lines.specs.Received.{only_head, IsWholeWith};
ghost use Rattle.records.specs.{KernelForm.{no_head, settings_in}, RecordRanges.RecordFits, RecordStates.received_record};
ghost use Rattle.scripts.specs.ScriptText.{ScriptsFit};

use crate::inputs::Inputs;
use crate::refusal::Refusal;
use event_log::StreamFailed;
use record_lines::RecordSink;
use records::{KernelForm, read_into};
use scripts::{ReadSettings, Record, Schedule, Scripts, Settings, SettingsFault, SourceFault};
use std::alloc::Global;

/// The reader of the input of that name. No call on it has failed.
fn opened<I: Inputs>(inputs: &mut I, name: Option<&str>) -> Result<I::Input, Refusal>
    ensures all { IfOk result (λ input. (all : List ℕ) → I.held inputs.old (bytes_of name.entry) ≡ Some all → I.Input.remaining input ≡ Some all) }
    ensures files { (file : List ℕ) → I.held inputs.new (Some file) ≡ I.held inputs.old (Some file) }
    ensures standard { (file : List ℕ) → bytes_of name.entry ≡ Some file → I.held inputs.new None ≡ I.held inputs.old None }
    ensures refused { IfErr result (λ f. f ≡ Refusal.ReadFailed) }
    ensures failures { I.failed inputs.new ≡ counted (says_read_failed result) (I.failed inputs.old) }
    ensures none_failed { IfOk result (λ input. I.Input.failed input ≡ 0) }
{
    match inputs.input(name) {
        Ok(input) => Ok(input),
        Err(StreamFailed) => Err(Refusal::ReadFailed),
    }
}

/// The settings that the file of that name spells. Of a text that is too long no more is read than one byte beyond the most.
pub fn read_settings<I: Inputs>(
    alloc: Global,
    inputs: &mut I,
    name: &str,
) -> Result<Settings, Refusal>
    ensures found { IfOk result (SpellsSettingsOf (I.held inputs.old) name.now) }
    ensures refused { IfErr result (RefusesSettings (I.held inputs.old) name.now) }
    ensures files { (file : List ℕ) → I.held inputs.new (Some file) ≡ I.held inputs.old (Some file) }
    ensures standard { I.held inputs.new None ≡ I.held inputs.old None }
    ensures failures { I.failed inputs.new ≡ counted (says_read_failed result) (I.failed inputs.old) }
{
    let mut input = opened(inputs, Some(name))?;
    let settings = Settings::read_from(alloc, &mut input);
    inputs.close(input);
    match settings {
        Ok(settings) => Ok(settings),
        Err(SourceFault::ReadFailed) => Err(Refusal::ReadFailed),
        Err(SourceFault::Reported(SettingsFault::OutOfMemory)) => Err(Refusal::OutOfMemory),
        Err(SourceFault::Reported(SettingsFault::Refused(bad))) => Err(Refusal::BadSettings(bad)),
    }
}

/// The scripts that the input of that name spells. Where a line can't come, no more is read.
pub fn read_scripts<I: Inputs>(
    alloc: Global,
    inputs: &mut I,
    name: Option<&str>,
    settings: &Settings,
) -> Result<Scripts, Refusal>
    ensures found { IfOk result (SpellsScriptsOf (I.held inputs.old) (bytes_of name.entry) settings.now) }
    ensures fit { IfOk result (λ scripts. ScriptsFit settings.now.cpus (length settings.now.objects) scripts) }
    ensures refused { IfErr result (RefusesScripts (I.held inputs.old) (bytes_of name.entry) settings.now) }
    ensures files { (file : List ℕ) → I.held inputs.new (Some file) ≡ I.held inputs.old (Some file) }
    ensures failures { I.failed inputs.new ≡ counted (says_read_failed result) (I.failed inputs.old) }
{
    let mut input = opened(inputs, name)?;
    let scripts = Scripts::read_from(alloc, &mut input, settings);
    inputs.close(input);
    match scripts {
        Ok(scripts) => Ok(scripts),
        Err(fault) => Err(Refusal::of_scripts(fault)),
    }
}

/// The schedule that the file of that name spells. Where a word can't come, no more is read.
pub fn read_schedule<I: Inputs>(
    alloc: Global,
    inputs: &mut I,
    name: &str,
    settings: &Settings,
) -> Result<Schedule, Refusal>
    ensures found { IfOk result (SpellsScheduleOf (I.held inputs.old) name.now settings.now.cpus) }
    ensures refused { IfErr result (RefusesSchedule (I.held inputs.old) name.now settings.now.cpus) }
    ensures failures { I.failed inputs.new ≡ counted (says_read_failed result) (I.failed inputs.old) }
{
    let mut input = opened(inputs, Some(name))?;
    let schedule = Schedule::read_from(alloc, &mut input, settings);
    inputs.close(input);
    match schedule {
        Ok(schedule) => Ok(schedule),
        Err(SourceFault::ReadFailed) => Err(Refusal::ReadFailed),
        Err(SourceFault::Reported(fault)) => Err(Refusal::from(fault)),
    }
}

/// The record that the input of that name spells. Of its text no more is held than a line and a piece.
pub fn read_record<I: Inputs>(
    alloc: Global,
    inputs: &mut I,
    name: Option<&str>,
) -> Result<Record, Refusal>
    ensures found { IfOk result (SpellsRecordOf (I.held inputs.old) (bytes_of name.entry)) }
    ensures refused { IfErr result (RefusesRecord (I.held inputs.old) (bytes_of name.entry)) }
    ensures failures { I.failed inputs.new ≡ counted (says_read_failed result) (I.failed inputs.old) }
{
    let mut input = opened(inputs, name)?;
    let record = Record::read_from(alloc, &mut input);
    inputs.close(input);
    match record {
        Ok(record) => Ok(record),
        Err(fault) => Err(Refusal::of_record(fault)),
    }
}

/// The settings of the record that the input of that name spells, and the sink, which was handed over the rest of it.
pub fn read_record_into<I: Inputs, K: RecordSink<KernelForm>>(
    alloc: Global,
    inputs: &mut I,
    name: Option<&str>,
    sink: K,
) -> Result<(Settings, K), Refusal>
    requires { K.received sink ≡ only_head no_head }
    ensures found { IfOk result (λ given. SpellsRecordOf (I.held inputs.old) (bytes_of name.entry) (received_record (K.received given.1))) }
    ensures settings { IfOk result (λ given. given.0 ≡ settings_in (K.received given.1).head) }
    ensures whole { IfOk result (λ given. IsWholeWith (K.received given.1).head (K.received given.1)) }
    ensures fit { IfOk result (λ given. RecordFits (received_record (K.received given.1))) }
    ensures refused { IfErr result (RefusesRecord (I.held inputs.old) (bytes_of name.entry)) }
    ensures failures { I.failed inputs.new ≡ counted (says_read_failed result) (I.failed inputs.old) }
{
    let mut input = opened(inputs, name)?;
    let read = read_into(alloc, &mut input, sink);
    inputs.close(input);
    match read {
        Ok(read) => Ok(read),
        Err(fault) => Err(Refusal::of_record(fault)),
    }
}
