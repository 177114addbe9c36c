//! An MCS lock's steps, each on one word (Mellor-Crummey and Scott 1991). A tail or a `next` is 0, or j + 1 where it names
//! CPU j.

ghost use Rattle.std.specs.Prelude.{◌≡◌, ℕ, ◌+◌, ◌<◌, ◌≤◌, true, false, length, slice_index_or};
ghost use Rattle.word_rule.specs.{Mcs.Definition.mcs_lock, Rule.LockStates.{ShowsState, TurnsTo}};

use crate::machine::step_done::StepDone;
use crate::{McsStage, Stage, locked_index, next_index};
use sound_run::MOST_CPUS;

/// The next step of a CPU.
pub fn turn_mcs(words: &mut [u64], stages: &mut [Stage], cpu: u8) -> StepDone
    requires shows { ShowsState mcs_lock (length stages.old) words.old stages.old }
    requires exists { cpu < length stages.old }
    requires few { length stages.old ≤ MOST_CPUS }
    ensures { TurnsTo mcs_lock (length stages.old) words.old stages.old cpu result words.new stages.new }
{
    let i = cpu as usize;
    match stages[i] {
        Stage::Idle => {
            words[next_index(cpu as u32)] = 0;
            stages[i] = Stage::Mcs(McsStage::Ready);
            StepDone::Clear
        }
        Stage::Mcs(stage) => turn_in_queue(words, stages, cpu, stage),
        _ => StepDone::Idle,
    }
}

/// The next step of a CPU that has begun.
fn turn_in_queue(words: &mut [u64], stages: &mut [Stage], cpu: u8, stage: McsStage) -> StepDone
    requires shows { ShowsState mcs_lock (length stages.old) words.old stages.old }
    requires exists { cpu < length stages.old }
    requires few { length stages.old ≤ MOST_CPUS }
    requires stands { slice_index_or stages.old cpu Stage.Idle ≡ Stage.Mcs stage }
    ensures { TurnsTo mcs_lock (length stages.old) words.old stages.old cpu result words.new stages.new }
{
    let n = stages.len() as u8;
    let i = cpu as usize;
    match stage {
        McsStage::Ready => enter(words, stages, cpu),
        McsStage::Behind(ahead) => {
            words[locked_index(n, cpu as u32)] = 1;
            stages[i] = Stage::Mcs(McsStage::Armed(ahead));
            StepDone::Arm
        }
        McsStage::Armed(ahead) => {
            words[next_index(ahead as u32)] = cpu as u64 + 1;
            stages[i] = Stage::Mcs(McsStage::Waiting);
            StepDone::Link
        }
        McsStage::Waiting => look(words, stages, cpu),
        McsStage::Holding => see(
            words[next_index(cpu as u32)],
            McsStage::Alone,
            &mut stages[i],
        ),
        McsStage::Alone => empty(words, stages, cpu),
        McsStage::Leaving => see(
            words[next_index(cpu as u32)],
            McsStage::Leaving,
            &mut stages[i],
        ),
        McsStage::Passing(behind) => {
            words[locked_index(n, behind as u32)] = 0;
            stages[i] = Stage::Idle;
            StepDone::Pass
        }
    }
}

/// It swaps itself into the tail: it gets the object where nobody was there, or is behind the old last.
fn enter(words: &mut [u64], stages: &mut [Stage], cpu: u8) -> StepDone
    requires shows { ShowsState mcs_lock (length stages.old) words.old stages.old }
    requires exists { cpu < length stages.old }
    requires few { length stages.old ≤ MOST_CPUS }
    requires stands { slice_index_or stages.old cpu Stage.Idle ≡ Stage.Mcs McsStage.Ready }
    ensures { TurnsTo mcs_lock (length stages.old) words.old stages.old cpu result words.new stages.new }
{
    let i = cpu as usize;
    let old = words[0];
    words[0] = cpu as u64 + 1;
    if old == 0 {
        stages[i] = Stage::Mcs(McsStage::Holding);
        return StepDone::Enter(true);
    }
    stages[i] = Stage::Mcs(McsStage::Behind((old - 1) as u8));
    StepDone::Enter(false)
}

/// It looks whether its `locked` is clear, and then has the object.
fn look(words: &mut [u64], stages: &mut [Stage], cpu: u8) -> StepDone
    requires shows { ShowsState mcs_lock (length stages.old) words.old stages.old }
    requires exists { cpu < length stages.old }
    requires few { length stages.old ≤ MOST_CPUS }
    requires stands { slice_index_or stages.old cpu Stage.Idle ≡ Stage.Mcs McsStage.Waiting }
    ensures { TurnsTo mcs_lock (length stages.old) words.old stages.old cpu result words.new stages.new }
{
    if words[locked_index(stages.len() as u8, cpu as u32)] != 0 {
        return StepDone::Look(false);
    }
    stages[cpu as usize] = Stage::Mcs(McsStage::Holding);
    StepDone::Look(true)
}

/// It clears the tail where that names it, and has given the object back; else another has come.
fn empty(words: &mut [u64], stages: &mut [Stage], cpu: u8) -> StepDone
    requires shows { ShowsState mcs_lock (length stages.old) words.old stages.old }
    requires exists { cpu < length stages.old }
    requires few { length stages.old ≤ MOST_CPUS }
    requires stands { slice_index_or stages.old cpu Stage.Idle ≡ Stage.Mcs McsStage.Alone }
    ensures { TurnsTo mcs_lock (length stages.old) words.old stages.old cpu result words.new stages.new }
{
    let i = cpu as usize;
    if words[0] != cpu as u64 + 1 {
        stages[i] = Stage::Mcs(McsStage::Leaving);
        return StepDone::Empty(false);
    }
    words[0] = 0;
    stages[i] = Stage::Idle;
    StepDone::Empty(true)
}

/// What a holder sees in its `next`: its follower, to which it will pass, or nobody.
fn see(next: u64, otherwise: McsStage, stage: &mut Stage) -> StepDone
    requires { next ≤ MOST_CPUS }
    ensures none { next ≡ 0 → (result ≡ StepDone.See false) × (stage.new ≡ Stage.Mcs otherwise) }
    ensures one { (j : ℕ) → next ≡ j + 1 → (result ≡ StepDone.See true) × (stage.new ≡ Stage.Mcs (McsStage.Passing j)) }
{
    if next == 0 {
        *stage = Stage::Mcs(otherwise);
        return StepDone::See(false);
    }
    *stage = Stage::Mcs(McsStage::Passing((next - 1) as u8));
    StepDone::See(true)
}
