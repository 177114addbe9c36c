//! Records.

ghost use Rattle.std.specs.Prelude.{◌≡◌, ◌↔◌, IfOk};
ghost use Rattle.sound_run.specs.Sound.{Sound};
ghost use Rattle.records.specs.Runs.{opened_of};
ghost use Rattle.auditor.specs.{Faults.IsFirstFault, VerdictText.CanBeReported};

use crate::judge::judge_run;
use crate::record_judge::objects_of;
use crate::references::ReferenceKernelObject;
use crate::{Fault, ReferenceObject, Verdict};
use event_log::{OutOfMemory, SeqObject};
use kernel_object::KernelObject;
use records::Record;
use std::alloc::Global;

/// The verdict on a record, whose calls are answered a second time by values of that type.
fn audit_by<J: ReferenceObject<KernelObject>>(
    alloc: Global,
    record: &Record,
) -> Result<Verdict, OutOfMemory>
    ensures sound { IfOk result (λ v. (v ≡ Verdict.Sound) ↔ Sound ⟦<KernelObject as SeqObject>⟧ (opened_of «record».now.settings) «record».now.run) }
    ensures fault { (f : Fault) → IfOk result (λ v. (v ≡ Verdict.Unsound f) ↔
        IsFirstFault ⟦<KernelObject as SeqObject>⟧ (opened_of «record».now.settings) «record».now.run f) }
    ensures reported { IfOk result (CanBeReported «record».now.settings) }
{
    let opened_objects = objects_of(alloc, record.settings().objects())?;
    judge_run::<KernelObject, J>(alloc, opened_objects.as_slice(), record.run())
}

/// Whether the record is sound, or else its first fault.
pub fn audit(alloc: Global, record: &Record) -> Result<Verdict, OutOfMemory>
    ensures sound { IfOk result (λ v. (v ≡ Verdict.Sound) ↔ Sound ⟦<KernelObject as SeqObject>⟧ (opened_of «record».now.settings) «record».now.run) }
    ensures fault { (f : Fault) → IfOk result (λ v. (v ≡ Verdict.Unsound f) ↔
        IsFirstFault ⟦<KernelObject as SeqObject>⟧ (opened_of «record».now.settings) «record».now.run f) }
    ensures reported { IfOk result (CanBeReported «record».now.settings) }
{
    audit_by::<ReferenceKernelObject>(alloc, record)
}
