//! The head of a record 3, while it is read.

ghost use Rattle.std.specs.{Prelude.{◌≡◌, ◌<◌, length, Some, None, OnOk, OnErr, Err}, List.list_any, Str.bytes_eq};
ghost use Rattle.custom_records.specs.{Settings.{names_of, word_in}, CustomForm.{head_after, new_object_at}};
ghost use Rattle.record_lines.specs.Reading.{words};

use crate::{
    CustomHead, CustomSettings, count_line, cpus_line, first_line, object_line, refuses_line,
};
use record_lines::LineFault;
use std::alloc::Global;
use std::marker::Model;

/// Which line of a head can come next.
#[derive(Clone, Copy, Debug, PartialEq, Eq, Drop)]
pub enum CustomHeadNext {
    /// The form.
    First,
    /// The number of CPUs.
    Cpus,
    /// The number of objects.
    Count,
    Object,
    /// The words that refuse.
    Refuses,
    /// None.
    Whole,
}

/// What the head of a record has said so far, and how many objects there will be.
#[derive(Drop)]
pub struct CustomFormHead {
    pub awaits: CustomHeadNext,
    pub count: u64,
    pub so_far: CustomHead,
}

impl Model for CustomFormHead {
    ghost use Rattle.custom_records.specs.CustomForm.{Head};

    ghost Value = { Head };

    ghost view = { λ h. record { awaits = h.awaits; count = h.count; so_far = h.so_far } };
}

/// The name of the object at that place, from 0.
pub(crate) fn name_at(head: &CustomHead, place: usize) -> &[u8]
    requires { place < length head.now.objects }
    ensures { result.now ≡ word_in (names_of head.now) place }
{
    head.objects[place].name.as_bytes()
}

/// Whether one of the objects has that name.
fn is_taken(objects: &[CustomSettings], name: &[u8]) -> bool
    ensures { result ≡ list_any (λ o. bytes_eq o.name name.now) objects.now }
{
    objects.iter().any(|other| other.name.as_bytes() == name)
}

/// What the line spells, if it is an object whose name is none of the others'.
#[tactic(auto, unfolding(crate::specs::CustomForm::new_object_at))]
fn new_object_line(others: &[CustomSettings], line: &[u8]) -> Option<CustomSettings>
    ensures { result ≡ new_object_at others.now (words line.now) }
{
    let object = object_line(line)?;
    if is_taken(others, object.name.as_bytes()) {
        None
    } else {
        Some(object)
    }
}

/// Takes the line of the form.
#[tactic(auto, unfolding(crate::specs::CustomForm::behind_head_at))]
fn take_first(head: &mut CustomFormHead, line: &[u8]) -> Result<(), LineFault>
    requires { head.old.awaits ≡ CustomHeadNext.First }
    ensures ok { OnOk result (head_after head.old line.now ≡ Some head.new) }
    ensures err { OnErr result (head.new ≡ head.old) }
    ensures refused { result ≡ Err LineFault.Refused → head_after head.old line.now ≡ None }
{
    let Some(()) = first_line(line) else {
        return Err(LineFault::Refused);
    };
    head.awaits = CustomHeadNext::Cpus;
    Ok(())
}

/// Takes the line of the number of CPUs.
#[tactic(auto, unfolding(crate::specs::CustomForm::behind_head_at))]
fn take_cpus(head: &mut CustomFormHead, line: &[u8]) -> Result<(), LineFault>
    requires { head.old.awaits ≡ CustomHeadNext.Cpus }
    ensures ok { OnOk result (head_after head.old line.now ≡ Some head.new) }
    ensures err { OnErr result (head.new ≡ head.old) }
    ensures refused { result ≡ Err LineFault.Refused → head_after head.old line.now ≡ None }
{
    let Some(cpus) = cpus_line(line) else {
        return Err(LineFault::Refused);
    };
    head.so_far.cpus = cpus;
    head.awaits = CustomHeadNext::Count;
    Ok(())
}

/// Takes the line of the number of objects.
#[tactic(auto, unfolding(crate::specs::CustomForm::behind_head_at))]
fn take_count(head: &mut CustomFormHead, line: &[u8]) -> Result<(), LineFault>
    requires { head.old.awaits ≡ CustomHeadNext.Count }
    ensures ok { OnOk result (head_after head.old line.now ≡ Some head.new) }
    ensures err { OnErr result (head.new ≡ head.old) }
    ensures refused { result ≡ Err LineFault.Refused → head_after head.old line.now ≡ None }
{
    let Some(count) = count_line(line) else {
        return Err(LineFault::Refused);
    };
    head.count = count;
    head.awaits = CustomHeadNext::Object;
    Ok(())
}

/// Takes the line of an object.
#[tactic(auto, unfolding(crate::specs::CustomForm::behind_head_at, crate::specs::CustomForm::behind_object))]
fn take_object(head: &mut CustomFormHead, line: &[u8]) -> Result<(), LineFault>
    requires { head.old.awaits ≡ CustomHeadNext.Object }
    ensures ok { OnOk result (head_after head.old line.now ≡ Some head.new) }
    ensures err { OnErr result (head.new ≡ head.old) }
    ensures refused { result ≡ Err LineFault.Refused → head_after head.old line.now ≡ None }
{
    let Some(object) = new_object_line(head.so_far.objects.as_slice(), line) else {
        return Err(LineFault::Refused);
    };
    head.so_far.objects.push(object)?;
    if (head.so_far.objects.len() as u64) < head.count {
        return Ok(());
    }
    head.count = 0;
    head.awaits = CustomHeadNext::Refuses;
    Ok(())
}

/// Takes the line of the words that refuse.
#[tactic(auto, unfolding(crate::specs::CustomForm::behind_head_at))]
fn take_refuses(alloc: Global, head: &mut CustomFormHead, line: &[u8]) -> Result<(), LineFault>
    requires { head.old.awaits ≡ CustomHeadNext.Refuses }
    ensures ok { OnOk result (head_after head.old line.now ≡ Some head.new) }
    ensures err { OnErr result (head.new ≡ head.old) }
    ensures refused { result ≡ Err LineFault.Refused → head_after head.old line.now ≡ None }
{
    let Some(refusing) = refuses_line(alloc, line)? else {
        return Err(LineFault::Refused);
    };
    head.so_far.refusing = refusing;
    head.awaits = CustomHeadNext::Whole;
    Ok(())
}

/// Takes a line of the head.
#[tactic(auto, unfolding(crate::specs::CustomForm::behind_head_at))]
pub(crate) fn take_head(
    alloc: Global,
    head: &mut CustomFormHead,
    line: &[u8],
) -> Result<(), LineFault>
    ensures ok { OnOk result (head_after head.old line.now ≡ Some head.new) }
    ensures err { OnErr result (head.new ≡ head.old) }
    ensures refused { result ≡ Err LineFault.Refused → head_after head.old line.now ≡ None }
{
    match head.awaits {
        CustomHeadNext::First => take_first(head, line),
        CustomHeadNext::Cpus => take_cpus(head, line),
        CustomHeadNext::Count => take_count(head, line),
        CustomHeadNext::Object => take_object(head, line),
        CustomHeadNext::Refuses => take_refuses(alloc, head, line),
        CustomHeadNext::Whole => Err(LineFault::Refused),
    }
}
