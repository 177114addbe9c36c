//! How many steps of an object of the kernel are right.

ghost use Rattle.std.specs.Prelude.{◌≡◌, ◌+◌, ◌<◌, ◌≤◌, ◌^◌, ◌++◌, ◌∷◌, [], true, length, IfOk};
ghost use Rattle.event_log.specs.declared.event.TheConstants.{MOST_CALLS};
ghost use Rattle.kernel_object.specs.Kernel.{kernel_in_range};
ghost use Rattle.custom_kernel.specs.Counts.{none_counted, answers_of, IsCountOf};

use crate::KernelModel;
use custom_records::CustomObject;
use event_log::{Event, OutOfMemory, Past, Step};
use kernel_object::KParams;
use std::alloc::Global;
use std::marker::Model;

/// Counts the steps that are right from the first on. Contracts speak of all steps, none of which has to lie in memory.
#[derive(Drop)]
pub struct KernelCount {
    params: KParams,
    past: Past<Step<CustomObject>>,
    model: KernelModel,
    right: u64,
    goes_on: bool,
}

impl Model for KernelCount {
    ghost use Rattle.custom_kernel.specs.Counts.{Counted, IsCounting};

    ghost Value = { Counted };

    ghost view = { λ c. record { params = c.params; steps = c.past.items; right = c.right } };

    ghost invariant = { λ c. IsCounting (record { params = c.params; steps = c.past.items; right = c.right }) c.model c.goes_on };
}

/// One value more.
fn with_one<T>(past: &Past<T>, one: &T) -> Past<T>
    ensures { result.items ≡ past.now.items ++ one.now ∷ [] }
{
    Past::named(past, one)
}

impl KernelCount {
    /// No step of a new object.
    pub fn open(alloc: Global, params: &KParams) -> Result<KernelCount, OutOfMemory>
        requires { kernel_in_range params.now ≡ true }
        ensures { IfOk result (λ c. c ≡ none_counted params.now) }
    {
        Ok(KernelCount {
            params: *params,
            past: Past::new(),
            model: KernelModel::open(alloc, params)?,
            right: 0,
            goes_on: true,
        })
    }

    /// One step more.
    fn step(&mut self, step: &Step<CustomObject>)
        requires { length self.old.steps + 1 < 2 ^ 64 }
        ensures params { self.new.params ≡ self.old.params }
        ensures steps { self.new.steps ≡ self.old.steps ++ step.now ∷ [] }
    {
        self.past = with_one(&self.past, step);
        if !self.goes_on {
            return;
        }
        if self.model.step(step) {
            self.right += 1;
        } else {
            self.goes_on = false;
        }
    }

    /// The steps of an event more.
    pub fn event(&mut self, event: &Event<CustomObject>)
        requires { length self.old.steps + length event.now.steps.list.items < 2 ^ 64 }
        ensures params { self.new.params ≡ self.old.params }
        ensures steps { self.new.steps ≡ self.old.steps ++ event.now.steps.list.items }
        ensures few { length self.new.steps ≤ length self.old.steps + MOST_CALLS }
    {
        for step in event.steps.list.as_slice() {
            self.step(step);
        }
    }

    /// How many steps are right from the first on.
    pub fn right(&self) -> u64
        ensures number { result ≡ self.now.right }
        ensures count { IsCountOf (answers_of self.now.params) self.now.steps result }
    {
        self.right
    }
}
