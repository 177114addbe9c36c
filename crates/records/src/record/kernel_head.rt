//! The head of a record, while it is read.

ghost use Rattle.std.specs.Prelude.{◌≡◌, Some, None, OnOk, OnErr, Err};
ghost use Rattle.record_lines.specs.Reading.{words};
ghost use Rattle.records.specs.{KernelForm.{head_after, settings_in, HeadFits}, RecordReading.new_object_at};

use crate::record::head_lines::{cpus_line, first_line, objects_line};
use crate::record::lines::object_line;
use crate::settings::lookup::is_taken;
use crate::{ObjectSettings, Settings};
use event_log::Series;
use kernel_words::Form;
use record_lines::LineFault;
use std::marker::Model;

/// Which line of a head can come next.
#[derive(Clone, Copy, Debug, PartialEq, Eq, Drop)]
pub enum HeadNext {
    /// The form.
    First,
    /// The number of CPUs.
    Cpus,
    /// The number of objects.
    Count,
    Object,
    /// None.
    Whole,
}

/// What the head of a record has said so far: its form, the CPUs, how many objects there will be, and the objects.
#[derive(Drop)]
pub struct KernelHead {
    pub awaits: HeadNext,
    pub form: Form,
    pub cpus: u8,
    pub count: u64,
    pub objects: Vec<ObjectSettings>,
}

impl Model for KernelHead {
    ghost use Rattle.records.specs.KernelForm.{Head};

    ghost Value = { Head };

    ghost view = { λ h. record { awaits = h.awaits; form = h.form; cpus = h.cpus; count = h.count; objects = h.objects.items } };
}

impl KernelHead {
    /// The settings that a whole head says.
    pub fn into_settings(self) -> Settings
        requires { HeadFits self }
        ensures { result ≡ settings_in self }
    {
        let KernelHead { cpus, objects, .. } = self;
        Settings::new(cpus, Series::from_vec(objects))
    }
}

/// What the line spells, if it is an object whose name is none of the others'.
#[tactic(auto, unfolding(crate::specs::RecordReading::new_object_at))]
fn new_object_line(form: Form, others: &[ObjectSettings], line: &[u8]) -> Option<ObjectSettings>
    ensures { result ≡ new_object_at form others.now (words line.now) }
{
    let object = object_line(form, line)?;
    if is_taken(others, object.name()) {
        None
    } else {
        Some(object)
    }
}

/// Takes the line of the form.
#[tactic(auto, unfolding(crate::specs::KernelForm::behind_head_at))]
fn take_first(head: &mut KernelHead, line: &[u8]) -> Result<(), LineFault>
    requires { head.old.awaits ≡ HeadNext.First }
    ensures ok { OnOk result (head_after head.old line.now ≡ Some head.new) }
    ensures err { OnErr result (head.new ≡ head.old) }
    ensures refused { result ≡ Err LineFault.Refused → head_after head.old line.now ≡ None }
{
    let Some(form) = first_line(line) else {
        return Err(LineFault::Refused);
    };
    head.form = form;
    head.awaits = HeadNext::Cpus;
    Ok(())
}

/// Takes the line of the number of CPUs.
#[tactic(auto, unfolding(crate::specs::KernelForm::behind_head_at))]
fn take_cpus(head: &mut KernelHead, line: &[u8]) -> Result<(), LineFault>
    requires { head.old.awaits ≡ HeadNext.Cpus }
    ensures ok { OnOk result (head_after head.old line.now ≡ Some head.new) }
    ensures err { OnErr result (head.new ≡ head.old) }
    ensures refused { result ≡ Err LineFault.Refused → head_after head.old line.now ≡ None }
{
    let Some(cpus) = cpus_line(head.form, line) else {
        return Err(LineFault::Refused);
    };
    head.cpus = cpus;
    head.awaits = HeadNext::Count;
    Ok(())
}

/// Takes the line of the number of objects.
#[tactic(auto, unfolding(crate::specs::KernelForm::behind_head_at))]
fn take_count(head: &mut KernelHead, line: &[u8]) -> Result<(), LineFault>
    requires { head.old.awaits ≡ HeadNext.Count }
    ensures ok { OnOk result (head_after head.old line.now ≡ Some head.new) }
    ensures err { OnErr result (head.new ≡ head.old) }
    ensures refused { result ≡ Err LineFault.Refused → head_after head.old line.now ≡ None }
{
    let Some(count) = objects_line(line) else {
        return Err(LineFault::Refused);
    };
    head.count = count;
    head.awaits = HeadNext::Object;
    Ok(())
}

/// Takes the line of an object.
#[tactic(auto, unfolding(crate::specs::KernelForm::behind_head_at, crate::specs::KernelForm::behind_object))]
fn take_object(head: &mut KernelHead, line: &[u8]) -> Result<(), LineFault>
    requires { head.old.awaits ≡ HeadNext.Object }
    ensures ok { OnOk result (head_after head.old line.now ≡ Some head.new) }
    ensures err { OnErr result (head.new ≡ head.old) }
    ensures refused { result ≡ Err LineFault.Refused → head_after head.old line.now ≡ None }
{
    let Some(object) = new_object_line(head.form, head.objects.as_slice(), line) else {
        return Err(LineFault::Refused);
    };
    head.objects.push(object)?;
    if (head.objects.len() as u64) < head.count {
        return Ok(());
    }
    head.count = 0;
    head.awaits = HeadNext::Whole;
    Ok(())
}

/// Takes a line of the head.
#[tactic(auto, unfolding(crate::specs::KernelForm::behind_head_at))]
pub fn take_head(head: &mut KernelHead, line: &[u8]) -> Result<(), LineFault>
    ensures ok { OnOk result (head_after head.old line.now ≡ Some head.new) }
    ensures err { OnErr result (head.new ≡ head.old) }
    ensures refused { result ≡ Err LineFault.Refused → head_after head.old line.now ≡ None }
{
    match head.awaits {
        HeadNext::First => take_first(head, line),
        HeadNext::Cpus => take_cpus(head, line),
        HeadNext::Count => take_count(head, line),
        HeadNext::Object => take_object(head, line),
        HeadNext::Whole => Err(LineFault::Refused),
    }
}
