//! A new MCS lock, with a pass for each CPU.

ghost use Rattle.std.specs.Prelude.{◌≡◌, ◌<◌, ◌≤◌, [], IfOk, IfErr, vec_len};
ghost use Rattle.sound_run.specs.declared.lock_kind.LockKind.TheVariants.{Mcs};
ghost use Rattle.word_rule.specs.{Cell.{EachAt, first_pass}, Passes.{view_of_pass, run_of_pass}};
ghost use Rattle.mcs_lock.specs.Passes.{IsPassOf};

use crate::cell::McsCell;
use event_log::{Logged, OutOfMemory, SeqObject};
use sound_run::{LockKind, MOST_CPUS};
use std::alloc::Global;
use word_rule::{LockTable, Pass, Resting};

// The words of the greatest cell.
const MOST_WORDS: usize = 1 + 2 * MOST_CPUS as usize;

impl<O: SeqObject> McsCell<O> {
    /// A cell of 1 to 64 CPUs, and a pass for each CPU, in order: pass k owns the CPU k and has seen the log of the given
    /// object. Where there is no memory the object comes back as it was.
    pub fn new(
        alloc: Global,
        logged: Logged<O>,
        cpus: u8,
    ) -> Result<(McsCell<O>, Vec<Pass<O>>), (OutOfMemory, Logged<O>)>
        requires some { 0 < cpus }
        requires few { cpus ≤ MOST_CPUS }
        ensures count { IfOk result (λ r. vec_len r.1 ≡ cpus) }
        ensures passes { IfOk result (λ r. EachAt (λ k p. IsPassOf r.0 p × (view_of_pass p ≡ first_pass Mcs 0 logged cpus k)) r.1.items) }
        ensures runs { IfOk result (λ r. EachAt (λ k p. run_of_pass p ≡ []) r.1.items) }
        ensures unchanged { IfErr result (λ e. e.1 ≡ logged) }
    {
        let zeros = [0u64; MOST_WORDS];
        let words = &zeros[..1 + 2 * cpus as usize];
        let (table, passes) = LockTable::open(alloc, LockKind::Mcs, 0, words, logged, cpus)?;
        let resting = Resting::new();
        Ok((
            McsCell {
                table,
                resting,
                cpus,
            },
            passes,
        ))
    }
}
