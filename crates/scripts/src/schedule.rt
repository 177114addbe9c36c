//! Reading a schedule: a CPU's number for each step.

ghost use Rattle.std.specs.{Prelude.{◌≡◌, ◌≤◌, ℕ, List, nat_lt, Err, IfOk}, List.list_all};
ghost use Rattle.sound_run.specs.declared.limits.TheConstants.{MOST_CPUS};
ghost use Rattle.scripts.specs.ScheduleText.{IsSchedule, ScheduleWithin, IsFirstBadWord};

pub mod source;
mod step_reader;

use crate::schedule::step_reader::StepReader;
use records::Settings;
use std::alloc::Global;
use std::marker::Model;

/// The most steps of a schedule.
pub const MOST_STEPS: usize = 100_000;

/// Why a schedule was not read.
#[derive(Clone, Copy, Debug, PartialEq, Eq, Drop)]
pub enum ScheduleFault {
    OutOfMemory,
    /// The first word, from 1, that is no CPU's number, or that is one too many.
    Word(usize),
}

/// A CPU for each step: at most 100,000 steps of at most 64 CPUs.
#[derive(Drop)]
pub struct Schedule {
    steps: Vec<u8>,
}

impl Model for Schedule {
    ghost use Rattle.std.specs.Prelude.{ℕ, List};
    ghost use Rattle.scripts.specs.ScheduleText.{ScheduleWithin};

    ghost Value = { List ℕ };

    ghost view = { λ s. s.steps.items };

    ghost invariant = { λ s. ScheduleWithin s.steps.items };
}

impl Schedule {
    /// Reads all steps, in the order of their words: numbers of CPUs of the settings, with spaces or line ends around
    /// them.
    pub fn read(alloc: Global, text: &[u8], settings: &Settings) -> Result<Schedule, ScheduleFault>
        ensures found { IfOk result (λ steps. IsSchedule settings.now.cpus text.now steps) }
        ensures first_bad { (n : ℕ) → result ≡ Err (ScheduleFault.Word n) → IsFirstBadWord settings.now.cpus text.now n }
        ensures no_schedule { (n : ℕ) (steps : List ℕ) → result ≡ Err (ScheduleFault.Word n) → IsSchedule settings.now.cpus text.now steps → ⊥ }
    {
        let steps = read_steps(alloc, text, settings.cpus())?;
        Ok(Schedule { steps })
    }

    /// The CPU of each step.
    pub fn steps(&self) -> &[u8]
        ensures steps { result.now ≡ self.now }
        ensures within { ScheduleWithin self.now }
    {
        self.steps.as_slice()
    }

    /// Whether each step is of a CPU of the settings.
    pub fn fits(&self, settings: &Settings) -> bool
        ensures { result ≡ list_all (λ cpu. nat_lt cpu settings.now.cpus) self.now }
    {
        let cpus = settings.cpus();
        self.steps.as_slice().iter().all(|cpu| *cpu < cpus)
    }
}

/// Reads all steps, in the order of their words.
fn read_steps(alloc: Global, text: &[u8], cpus: u8) -> Result<Vec<u8>, ScheduleFault>
    requires { (1 ≤ cpus) × (cpus ≤ MOST_CPUS) }
    ensures found { IfOk result (λ steps. IsSchedule cpus text.now steps.items) }
    ensures first_bad { (n : ℕ) → result ≡ Err (ScheduleFault.Word n) → IsFirstBadWord cpus text.now n }
    ensures no_schedule { (n : ℕ) (steps : List ℕ) → result ≡ Err (ScheduleFault.Word n) → IsSchedule cpus text.now steps → ⊥ }
{
    let mut reader = StepReader::new(alloc, cpus);
    match reader.feed(text) {
        Ok(()) => reader.finish(),
        Err(fault) => Err(fault),
    }
}
