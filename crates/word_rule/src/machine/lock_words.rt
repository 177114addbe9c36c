//! The words of a lock.

ghost use Rattle.std.specs.Prelude.{◌≡◌, ◌<◌, ◌≤◌, vec_len, IfOk};
ghost use Rattle.word_rule.specs.{Locks.{Lock, opening_lock}, Machine.Shown.{KeepsLock, TurnsLock}, Rule.LockStates.IsLockOf};

use crate::machine::mcs::turn_mcs;
use crate::machine::step_done::StepDone;
use crate::machine::ticket::turn_ticket;
use crate::{Stage, TICKETS, word_with};
use event_log::OutOfMemory;
use sound_run::{LockKind, MOST_CPUS};
use std::alloc::Global;

/// The words of a lock of any kind, and where each CPU stands at it.
#[derive(Drop)]
pub struct LockWords {
    pub kind: LockKind,
    pub words: Vec<u64>,
    pub stages: Vec<Stage>,
}

impl LockWords {
    /// A lock for so many CPUs before the first step.
    pub fn new(
        alloc: Global,
        kind: LockKind,
        first: u64,
        cpus: usize,
    ) -> Result<LockWords, OutOfMemory>
        requires { cpus ≤ MOST_CPUS }
        ensures { IfOk result (λ w. KeepsLock cpus w (opening_lock kind first)) }
    {
        let words = new_words(alloc, kind, first, cpus)?;
        let stages = vec![in alloc; Stage::Idle; cpus]?;
        Ok(LockWords {
            kind,
            words,
            stages,
        })
    }

    /// The next step of a CPU.
    pub fn turn(&mut self, cpu: u8) -> StepDone
        requires shows { (l : Lock) × KeepsLock (vec_len self.old.stages) self.old l }
        requires exists { cpu < vec_len self.old.stages }
        requires few { vec_len self.old.stages ≤ MOST_CPUS }
        ensures { TurnsLock (vec_len self.old.stages) self.old cpu result self.new }
    {
        match self.kind {
            LockKind::Ticket => turn_ticket(&mut self.words, &mut self.stages, cpu),
            LockKind::Mcs => turn_mcs(&mut self.words, &mut self.stages, cpu),
        }
    }
}

/// The words of a new lock.
fn new_words(
    alloc: Global,
    kind: LockKind,
    first: u64,
    cpus: usize,
) -> Result<Vec<u64>, OutOfMemory>
    requires { cpus ≤ MOST_CPUS }
    ensures { IfOk result (λ w. IsLockOf kind cpus w.items (opening_lock kind first)) }
{
    match kind {
        LockKind::Ticket => {
            let first = (first % TICKETS) as u32;
            Ok(vec![in alloc; word_with(first, first); 1]?)
        }
        LockKind::Mcs => Ok(vec![in alloc; 0; 1 + 2 * cpus]?),
    }
}
