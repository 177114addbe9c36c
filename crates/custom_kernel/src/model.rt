//! An object of the kernel that judges steps.

ghost use Rattle.std.specs.Prelude.{◌≡◌, ◌∷◌, [], true, Some, None, IfSome, IfNone, IfOk, IfErr, OnOk};
ghost use Rattle.kernel_object.specs.Kernel.{kernel_in_range, kernel_opening, kernel_answer};
ghost use Rattle.custom_kernel.specs.KernelModel.{params_of, call_of, said_of, is_said, answers_last};

use crate::params::kernel_params;
use crate::said::{call_of, says};
use auditor::{ReferenceKernelObject, ReferenceObject};
use custom_records::{CustomObject, CustomSettings};
use event_log::{OutOfMemory, Step};
use kernel_object::{KParams, KernelObject};
use std::alloc::Global;
use std::marker::Model;

/// An object of one of the four kinds, which answers a log's calls by lists of the auditor's.
#[derive(Drop)]
pub struct KernelModel {
    object: ReferenceKernelObject,
}

impl Model for KernelModel {
    ghost use Rattle.kernel_object.specs.declared.object.KernelObject.{KernelObject};
    ghost use Rattle.auditor.specs.References.{shown};

    ghost Value = { KernelObject };

    ghost view = { λ m. shown m.object };
}

impl KernelModel {
    /// A new object.
    pub fn open(alloc: Global, params: &KParams) -> Result<KernelModel, OutOfMemory>
        requires { kernel_in_range params.now ≡ true }
        ensures { IfOk result (λ m. m ≡ kernel_opening params.now) }
    {
        Ok(KernelModel {
            object: ReferenceKernelObject::open(alloc, params)?,
        })
    }

    /// Whether the object answers so; if the call is one, it is done.
    pub fn step(&mut self, step: &Step<CustomObject>) -> bool
        ensures right { result ≡ answers_last self.old (step.now ∷ []) }
        ensures next { (call : _) → call_of step.now.call ≡ Some call → self.new ≡ (kernel_answer self.old call).0 }
    {
        let Some(call) = call_of(&step.call) else {
            return false;
        };
        let reply = self.object.apply(&call);
        says(reply, &step.reply.said)
    }
}
