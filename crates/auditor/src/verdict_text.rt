//! The text of a verdict.

ghost use Rattle.std.specs.Prelude.{◌≡◌, ◌<◌, ◌++◌, length, string_bytes, IfOk, OnOk};
ghost use Rattle.records.specs.Settings.{name_at};
ghost use Rattle.auditor.specs.VerdictText.{IsNamed, CanBeReported, fault_text, verdict_text};

use crate::{Fault, Verdict};
use event_log::OutOfMemory;
use records::Settings;
use std::alloc::{AllocError, Global};

fn name_of(settings: &Settings, object: usize) -> &str
    requires { object < length settings.now.objects }
    ensures { result.now ≡ name_at settings.now object }
{
    settings.objects()[object].name_str()
}

/// Puts the text of a fault, without a line end.
fn put_fault(text: &mut String, settings: &Settings, fault: Fault) -> Result<(), AllocError>
    requires { IsNamed settings.now fault }
    ensures { OnOk result (string_bytes text.new ≡ string_bytes text.old ++ fault_text settings.now fault) }
{
    match fault {
        Fault::TooLong { object } => {
            let name = name_of(settings, object);
            write!(text, "log {name}: too long")
        }
        Fault::WrongStep {
            object,
            event,
            step,
        } => {
            let name = name_of(settings, object);
            let (event, step) = (event + 1, step + 1);
            write!(text, "log {name} event {event} step {step}: wrong step")
        }
        Fault::RoomWasLeft { cpu, entry } => {
            let entry = entry + 1;
            write!(text, "cpu {cpu} entry {entry}: room was left")
        }
        Fault::NotItsEvent { cpu, entry } => {
            let entry = entry + 1;
            write!(text, "cpu {cpu} entry {entry}: not its event")
        }
        Fault::NotAsked { cpu, entry } => {
            let entry = entry + 1;
            write!(text, "cpu {cpu} entry {entry}: not what was asked")
        }
        Fault::Unclaimed { object, event } => {
            let name = name_of(settings, object);
            let event = event + 1;
            write!(text, "log {name} event {event}: unclaimed")
        }
    }
}

/// Puts the line of a verdict, with its end.
fn put_verdict(text: &mut String, settings: &Settings, verdict: Verdict) -> Result<(), AllocError>
    requires { CanBeReported settings.now verdict }
    ensures { OnOk result (string_bytes text.new ≡ string_bytes text.old ++ verdict_text settings.now verdict) }
{
    match verdict {
        Verdict::Sound => text.push_str("sound\n"),
        Verdict::Unsound(fault) => {
            text.push_str("unsound: ")?;
            put_fault(text, settings, fault)?;
            text.push_str("\n")
        }
    }
}

/// The text of a fault, with numbers from 1 and CPUs from 0, without a line end.
pub fn fault_text(alloc: Global, settings: &Settings, fault: &Fault) -> Result<String, OutOfMemory>
    requires { IsNamed settings.now fault.now }
    ensures { IfOk result (λ text. string_bytes text ≡ fault_text settings.now fault.now) }
{
    let mut text = String::new(alloc);
    put_fault(&mut text, settings, *fault)?;
    Ok(text)
}

/// `sound` or `unsound: FAULT`, with a line end.
pub fn verdict_line(
    alloc: Global,
    settings: &Settings,
    verdict: Verdict,
) -> Result<String, OutOfMemory>
    requires { CanBeReported settings.now verdict }
    ensures { IfOk result (λ text. string_bytes text ≡ verdict_text settings.now verdict) }
{
    let mut text = String::new(alloc);
    put_verdict(&mut text, settings, verdict)?;
    Ok(text)
}
